//! Which calls of an object in memory are to fail.

ghost use Rattle.std.specs.Prelude.{◌≡◌, ◌==◌, ◌||◌, ℕ, false, OnOk, OnErr};
ghost use Rattle.kin_io.specs.Plans.{made, is_failing, fails_next, one_more, SameFailing, FailsAlso};

use kin_ids::Memory;
use std::alloc::Global;
use std::collections::BTreeSet;

/// Which calls are to fail, and how many were made. Calls are numbered from 1, and the counter
/// stays at 2^64 - 1 once it is there.
#[derive(Drop)]
pub struct CallPlan {
    made: u64,
    failing: BTreeSet<u64>,
}

impl CallPlan {
    /// No call is made, and none is to fail. It takes no memory.
    pub fn new(alloc: Global) -> CallPlan
        ensures made { made result ≡ 0 }
        ensures failing { (call : ℕ) → is_failing result call ≡ false }
    {
        CallPlan {
            made: 0,
            failing: BTreeSet::new(alloc),
        }
    }

    /// Lets the call of this number fail, besides those that are to fail already. O(log n).
    pub fn fail_at(&mut self, call: u64) -> Result<(), Memory>
        ensures ok { OnOk result (FailsAlso self.old self.new call) }
        ensures err { OnErr result (SameFailing self.old self.new) }
        ensures made { made self.new ≡ made self.old }
    {
        self.failing.insert(call)?;
        Ok(())
    }

    /// Counts a call, and answers whether it is to fail. O(log n).
    pub fn count(&mut self) -> bool
        ensures counted { made self.new ≡ one_more (made self.old) }
        ensures fails { result ≡ fails_next self.old }
        ensures failing { SameFailing self.old self.new }
    {
        self.made = self.made.saturating_add(1);
        self.failing.contains(&self.made)
    }
}
