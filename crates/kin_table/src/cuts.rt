//! Cuts: where an epoch ends.

ghost use Rattle.std.specs.Prelude.{◌≡◌, IfOk};

use kin_ids::{Ends, Epoch, Memory};
use std::alloc::Global;

/// Where an epoch ends: a position for each node, with the incarnation of the stamp that ends there, which is 0 where the
/// position is 0.
#[derive(Debug, Drop)]
pub struct Cut {
    pub epoch: Epoch,
    pub ends: Ends,
}

impl Cut {
    /// An equal one. It costs O(n) in the nodes.
    pub fn copy(&self, alloc: Global) -> Result<Cut, Memory>
        ensures { IfOk result (λ cut. cut ≡ self.now) }
    {
        let ends = Vec::from_slice(alloc, self.ends.as_slice())?;
        Ok(Cut {
            epoch: self.epoch,
            ends: Ends::of(ends),
        })
    }
}
