//! Pieces that came before the chain could take them.

ghost use Rattle.std.specs.Prelude.{◌≡◌, ◌+◌, ◌^◌, ◌<◌, [], ◌∷◌, false, true, length, IsPermutation, MatchOption, OnOk, OnErr};

use kin_ids::{Memory, Piece};
use std::alloc::Global;
use std::collections::BTreeMap;
use std::marker::Model;

/// Early pieces in the order of where they begin; no two begin at one position. Adding, finding and
/// taking out cost O(log n).
#[derive(Drop)]
pub(crate) struct EarlyPieces {
    alloc: Global,
    by_from: BTreeMap<u64, Piece>,
}

impl Model for EarlyPieces {
    ghost use Rattle.std.specs.Prelude.{List, ◌≡◌};
    ghost use Rattle.std.specs.BTreeMap.{values};
    ghost use Rattle.kin_ids.specs.declared.ops.Piece.{Piece};
    ghost use Rattle.kin_held.specs.Early.{keyed, IsAscending};

    ghost Value = { List Piece };

    ghost view = { λ e. values e.by_from };

    ghost invariant = { λ e. (e.by_from.entries ≡ keyed (values e.by_from)) × IsAscending (values e.by_from) };
}

impl EarlyPieces {
    ghost use Rattle.kin_held.specs.Early.{begins, IsAscending};

    /// No pieces. It takes no memory.
    pub fn new(alloc: Global) -> EarlyPieces
        ensures { result ≡ [] }
    {
        EarlyPieces {
            alloc,
            by_from: BTreeMap::new(alloc),
        }
    }

    /// How many there are.
    pub fn len(&self) -> usize
        ensures count { result ≡ length self.now }
        ensures small { result < 2 ^ 63 }
    {
        self.by_from.len()
    }

    /// Whether one begins at the position.
    pub fn begins(&self, at: u64) -> bool
        ensures { result ≡ begins at self.now }
    {
        self.by_from.contains_key(&at)
    }

    /// Adds a piece that begins where none does.
    pub fn add(&mut self, piece: Piece) -> Result<(), Memory>
        requires { begins piece.stamp.from self.old ≡ false }
        ensures ok { OnOk result (IsPermutation (piece ∷ self.old) self.new) }
        ensures err { OnErr result (self.new ≡ self.old) }
        ensures ascending { IsAscending self.new }
    {
        self.by_from.insert(piece.stamp.from, piece)?;
        Ok(())
    }

    /// Takes out the piece that begins at the position.
    pub fn remove(&mut self, at: u64) -> Option<Piece>
        ensures taken { MatchOption result ((begins at self.old ≡ false) × (self.new ≡ self.old))
            (λ p. (p.stamp.from ≡ at) × IsPermutation self.old (p ∷ self.new)) }
        ensures ascending { IsAscending self.new }
    {
        self.by_from.remove(&at)
    }

    /// Lets go of all.
    pub fn clear(&mut self)
        ensures { self.new ≡ [] }
    {
        self.by_from.clear();
    }

    /// Lets go of all, and keeps this piece.
    pub fn keep_only(&mut self, piece: Piece) -> Result<(), Memory>
        ensures ok { OnOk result (self.new ≡ piece ∷ []) }
        ensures err { OnErr result (self.new ≡ self.old) }
    {
        let mut by_from = BTreeMap::new(self.alloc);
        by_from.insert(piece.stamp.from, piece)?;
        self.by_from = by_from;
        Ok(())
    }
}
