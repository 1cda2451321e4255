//! A shelf in memory.

ghost use Rattle.std.specs.Prelude.{◌≡◌, ◌+◌, ◌-◌, ◌<◌, ◌≤◌, ◌^◌, ◌==◌, ◌||◌, ◌++◌, ℕ, List, take, drop, min, length, true, false, None, Some, is_err, is_none, is_some, if◌then◌else◌, OnOk, OnErr, IfOk, IfSome, string_bytes};
ghost use Rattle.std.specs.Str.{bytes_eq};
ghost use Rattle.kin_io.specs.Outside.{HasCause, ReadsAt, read_length};
ghost use Rattle.kin_io.specs.Plans.{made, is_failing, fails_next, one_more, SameFailing, FailsAlso};

use crate::plans::CallPlan;
use crate::shelves::Shelf;
use kin_ids::{Failed, Memory};
use std::alloc::Global;
use std::collections::BTreeMap;

// A file in memory, and how often a call on it failed.
#[derive(Drop)]
struct StoredFile {
    bytes: Vec<u8>,
    faults: u64,
}

/// Files in memory, with reads that fail where they are told to. A look-up takes O(log n)
/// comparisons of names.
#[derive(Drop)]
pub struct MemShelf {
    files: BTreeMap<String, StoredFile>,
    missing: u64,
    step: u64,
    plan: CallPlan,
    ghost gives: { 0 < step },
}

impl MemShelf {
    ghost use Rattle.kin_io.specs.Shelves.{kept_bytes, kept_faults, most_bytes, shelf_plan, SameBytes, SameFaults, SameFaultsBut, HasFile, GivesWhatFits};

    /// A shelf without files, on which no call fails and a read gives what fits. It takes no memory.
    pub fn new(alloc: Global) -> MemShelf
        ensures empty { (n : List ℕ) → kept_bytes result n ≡ None }
        ensures counts { (n : List ℕ) → kept_faults result n ≡ 0 }
        ensures most { most_bytes result ≡ 2 ^ 64 - 1 }
        ensures made { made (shelf_plan result) ≡ 0 }
        ensures failing { (call : ℕ) → is_failing (shelf_plan result) call ≡ false }
    {
        MemShelf {
            files: BTreeMap::new(alloc),
            missing: 0,
            step: u64::MAX,
            plan: CallPlan::new(alloc),
        }
    }

    /// Adds a file, or replaces its bytes where the name is there. A new name takes over the count
    /// of the names that aren't there.
    pub fn add(&mut self, name: String, bytes: Vec<u8>) -> Result<(), Memory>
        ensures ok { OnOk result (HasFile (string_bytes name) bytes.items self.old self.new) }
        ensures err { OnErr result (SameBytes self.old self.new) }
        ensures counts { SameFaults self.old self.new }
        ensures most { most_bytes self.new ≡ most_bytes self.old }
        ensures plan { shelf_plan self.new ≡ shelf_plan self.old }
    {
        let faults = self.faults_of(name.as_str());
        self.files.insert(name, StoredFile { bytes, faults })?;
        Ok(())
    }

    // How often a name failed.
    fn faults_of(&self, name: &str) -> u64
        ensures { result ≡ kept_faults self.now name.now }
    {
        match self.files.get(name) {
            Some(file) => file.faults,
            None => self.missing,
        }
    }

    /// Lets the read of this number fail, besides those that are to fail already. Reads are
    /// numbered from 1.
    pub fn fail_at(&mut self, call: u64) -> Result<(), Memory>
        ensures ok { OnOk result (FailsAlso (shelf_plan self.old) (shelf_plan self.new) call) }
        ensures err { OnErr result (SameFailing (shelf_plan self.old) (shelf_plan self.new)) }
        ensures made { made (shelf_plan self.new) ≡ made (shelf_plan self.old) }
        ensures content { SameBytes self.old self.new }
        ensures counts { SameFaults self.old self.new }
        ensures most { most_bytes self.new ≡ most_bytes self.old }
    {
        self.plan.fail_at(call)
    }

    /// Lets a read give at most `n` bytes from now on. It takes no memory.
    pub fn limit_step(&mut self, n: u64)
        requires { 0 < n }
        ensures most { most_bytes self.new ≡ n }
        ensures content { SameBytes self.old self.new }
        ensures counts { SameFaults self.old self.new }
        ensures plan { shelf_plan self.new ≡ shelf_plan self.old }
    {
        self.step = n;
    }
}

// Reads at most `step` bytes of a file from a place on into the front of the buffer.
fn read_from(file: &[u8], at: u64, step: u64, buf: &mut [u8]) -> usize
    ensures count { result ≡ read_length step file.now at (length buf.old) }
    ensures bytes { buf.new ≡ take result (drop at file.now) ++ drop result buf.old }
{
    let start = at.min(file.len() as u64) as usize;
    let rest = &file[start..];
    let count = step.min(rest.len().min(buf.len()) as u64) as usize;
    buf[..count].copy_from_slice(&rest[..count]);
    count
}

impl Shelf for MemShelf {
    ghost use Rattle.kin_io.specs.Shelves.{kept_bytes, kept_faults, most_bytes, shelf_plan, SameBytes, SameFaults, SameFaultsBut, HasFile, GivesWhatFits};

    ghost content = { λ s n. kept_bytes s n };

    ghost faults = { λ s n. kept_faults s n };

    fn read_at(&mut self, name: &str, at: u64, buf: &mut [u8]) -> Result<usize, Failed>
        ensures content { SameBytes self.old self.new }
        ensures reads { IfOk result (λ n. ReadsAt (kept_bytes self.old name.now) at n buf.old buf.new) }
        ensures counts { (n : List ℕ) → kept_faults self.old n ≤ kept_faults self.new n }
        ensures cause { HasCause (kept_faults self.old name.now) (kept_faults self.new name.now) result }
        ensures count { IfOk result (GivesWhatFits self.old name.now at (length buf.old)) }
        ensures fails { is_err result
            ≡ (fails_next (shelf_plan self.old) || is_none (kept_bytes self.old name.now)) }
        ensures made { made (shelf_plan self.new) ≡ one_more (made (shelf_plan self.old)) }
        ensures failing { SameFailing (shelf_plan self.old) (shelf_plan self.new) }
        ensures most { most_bytes self.new ≡ most_bytes self.old }
        ensures fault { OnErr result
            (kept_faults self.new name.now ≡ one_more (kept_faults self.old name.now)) }
        ensures calm { OnOk result ((n : List ℕ) → kept_faults self.new n ≡ kept_faults self.old n) }
        ensures others { SameFaultsBut name.now self.old self.new }
    {
        let fails = self.plan.count();
        let Some(file) = self.files.get_mut(name) else {
            self.missing = self.missing.saturating_add(1);
            return Err(Failed);
        };
        if fails {
            file.faults = file.faults.saturating_add(1);
            return Err(Failed);
        }
        Ok(read_from(&file.bytes, at, self.step, buf))
    }
}
