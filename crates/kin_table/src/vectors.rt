//! The vectors of a table.

ghost use Rattle.std.specs.Prelude.{◌≡◌, ◌≤◌, ◌<◌, ◌-◌, ◌↔◌, ◌++◌, [], ◌∷◌, IfOk, IfSome, IsNone, OnOk, OnErr, length, replicate};

use crate::cuts::Cut;
use kin_ids::{End, Ends, Epoch, Inc, Memory};
use std::alloc::Global;
use std::marker::Model;

/// The cut of each epoch, from epoch 0 on, whose vector is all zeros.
#[derive(Debug, Drop)]
pub(crate) struct Vectors {
    cuts: Vec<Cut>,
}

impl Model for Vectors {
    ghost use Rattle.std.specs.Prelude.{List};
    ghost use Rattle.kin_ids.specs.declared.stamps.End.{End};
    ghost use Rattle.kin_table.specs.Numbers.{vectors_of, IsNumbered};

    ghost Value = { List (List End) };

    ghost view = { λ v. vectors_of v.cuts.items };

    ghost invariant = { λ v. IsNumbered v.cuts.items };
}

impl Vectors {
    ghost use Rattle.kin_table.specs.Vectors.{no_end, vector_at};

    /// Vector 0 alone.
    pub fn new(alloc: Global, nodes: u16) -> Result<Vectors, Memory>
        ensures { IfOk result (λ v. v ≡ replicate nodes no_end ∷ []) }
    {
        let start = End { inc: Inc(0), to: 0 };
        let ends = vec![in alloc; start; usize::from(nodes)]?;
        let mut cuts = Vec::new(alloc);
        cuts.push(Cut {
            epoch: Epoch(0),
            ends: Ends::of(ends),
        })?;
        Ok(Vectors { cuts })
    }

    /// How many there are.
    pub fn count(&self) -> usize
        ensures count { result ≡ length self.now }
        ensures some { 0 < result }
    {
        self.cuts.len()
    }

    /// The cut of an epoch.
    pub fn get(&self, k: Epoch) -> Option<&Cut>
        ensures none { IsNone result ↔ (length self.now ≤ k.0) }
        ensures cut { IfSome result (λ cut. cut.now
            ≡ record { epoch = k; ends = vector_at self.now k.0 }) }
    {
        self.cuts.get(k.0 as usize)
    }

    /// The last one.
    pub fn last(&self) -> &[End]
        ensures { result.now ≡ vector_at self.now (length self.now - 1) }
    {
        self.cuts[self.cuts.len() - 1].ends.as_slice()
    }

    /// Appends the vector of the next epoch.
    pub fn push(&mut self, cut: Cut) -> Result<(), Memory>
        requires { cut.epoch.0 ≡ length self.old }
        ensures ok { OnOk result (self.new ≡ self.old ++ cut.ends ∷ []) }
        ensures err { OnErr result (self.new ≡ self.old) }
    {
        self.cuts.push(cut)?;
        Ok(())
    }
}
