//! One node's chain.

ghost use Rattle.std.specs.Prelude.{◌≡◌, ◌+◌, ◌≤◌, ◌<◌, ◌++◌, ◌∷◌, List, All, IfOk, OnErr, length, take, drop};
ghost use Rattle.kin_ids.specs.declared.ops.Piece.{Piece};
ghost use Rattle.kin_ids.specs.Operations.{IsWellFormed};
ghost use Rattle.kin_held.specs.Early.{IsAscending};
ghost use Rattle.kin_held.specs.Takes.{Joins};

use crate::answers::Taken;
use crate::early::EarlyPieces;
use crate::queues::Queue;
use crate::runs::{len_to, upto_len};
use kin_ids::{Inc, Memory, Piece};
use std::alloc::Global;
use std::marker::Model;

/// What a partition keeps of one node: the pieces of its chain in their order, and those that came early.
#[derive(Drop)]
pub(crate) struct Chain {
    inc: Inc,
    floor: u64,
    top: u64,
    held: Queue,
    early: EarlyPieces,
}

impl Model for Chain {
    ghost use Rattle.kin_held.specs.Chains.{ChainView, IsChain};

    ghost Value = { ChainView };

    ghost view = { λ c. record { inc = c.inc.0; floor = c.floor; top = c.top; held = c.held.items; early = c.early } };

    ghost invariant = { λ c. IsChain (record { inc = c.inc.0; floor = c.floor; top = c.top; held = c.held.items; early = c.early }) };
}

impl Chain {
    ghost use Rattle.kin_held.specs.Chains.{IsChain, no_chain, pieces_upto, pieces_past};
    ghost use Rattle.kin_held.specs.Takes.{Takes, Places, IsPlace, taken_of, chain_past};

    /// A chain of incarnation 0 from position 0 on. It takes no memory.
    pub fn new(alloc: Global) -> Chain
        ensures { result ≡ no_chain }
    {
        Chain {
            inc: Inc(0),
            floor: 0,
            top: 0,
            held: Queue::new(alloc),
            early: EarlyPieces::new(alloc),
        }
    }

    pub fn inc(&self) -> Inc
        ensures { result.0 ≡ self.now.inc }
    {
        self.inc
    }

    pub fn floor(&self) -> u64
        ensures { result ≡ self.now.floor }
    {
        self.floor
    }

    pub fn top(&self) -> u64
        ensures { result ≡ self.now.top }
    {
        self.top
    }

    pub fn held(&self) -> &[Piece]
        ensures held { result.now ≡ self.now.held }
        ensures chain { IsChain self.now }
    {
        self.held.as_slice()
    }

    pub fn count_upto(&self, at: u64) -> usize
        ensures within { result ≤ length self.now.held }
        ensures front { take result self.now.held ≡ pieces_upto at self.now.held }
        ensures rest { drop result self.now.held ≡ pieces_past at self.now.held }
    {
        upto_len(self.held.as_slice(), at)
    }

    pub fn take(&mut self, piece: Piece) -> Result<Taken, Memory>
        requires { IsWellFormed piece }
        ensures answer { IfOk result (λ taken. taken ≡ taken_of self.old piece self.new.top) }
        ensures taken { IfOk result (λ taken. Takes self.old piece taken self.new) }
        ensures err { OnErr result (self.new ≡ self.old) }
        ensures chain { IsChain self.new }
    {
        if piece.stamp.inc < self.inc {
            return Ok(Taken::Stale(self.inc));
        }
        if self.inc < piece.stamp.inc {
            return self.enter(piece);
        }
        self.place(piece)
    }

    /// Lets go of the pieces up to a place. It costs O(log n) and, over all calls, what is let go of.
    pub fn forget(&mut self, to: u64)
        requires { IsPlace self.old to }
        ensures forgot { self.new ≡ chain_past self.old to }
        ensures chain { IsChain self.new }
    {
        let count = self.count_upto(to);
        self.held.drop_front(count);
        self.floor = to;
    }

    // Takes a piece of a later incarnation.
    fn enter(&mut self, piece: Piece) -> Result<Taken, Memory>
        requires formed { IsWellFormed piece }
        requires later { self.old.inc < piece.stamp.inc.0 }
        ensures taken { IfOk result (λ taken. Takes self.old piece taken self.new) }
        ensures err { OnErr result (self.new ≡ self.old) }
        ensures chain { IsChain self.new }
    {
        let stamp = piece.stamp;
        let base = piece.base;
        let Some(kept) = len_to(self.floor, self.held.as_slice(), base) else {
            return Ok(Taken::Adrift {
                base,
                floor: self.floor,
                top: self.top,
            });
        };
        if stamp.from != base {
            self.early.keep_only(piece)?;
            self.held.truncate(kept);
            self.inc = stamp.inc;
            self.top = base;
            return Ok(Taken::Early(base));
        }
        self.held.reserve(1)?;
        self.held.truncate(kept);
        self.held.push_reserved(piece);
        self.early.clear();
        self.inc = stamp.inc;
        self.top = stamp.to;
        Ok(Taken::Held(self.top))
    }

    // Takes a piece of the kept incarnation.
    fn place(&mut self, piece: Piece) -> Result<Taken, Memory>
        requires { IsWellFormed piece }
        ensures taken { IfOk result (λ taken. Places self.old piece taken self.new) }
        ensures err { OnErr result (self.new ≡ self.old) }
        ensures chain { IsChain self.new }
    {
        let stamp = piece.stamp;
        if stamp.to <= self.top {
            return Ok(Taken::Repeat);
        }
        if stamp.from == self.top {
            self.held.reserve(self.early.len() + 1)?;
            self.held.push_reserved(piece);
            self.top = join(&mut self.held, &mut self.early, stamp.to);
            return Ok(Taken::Held(self.top));
        }
        if self.early.begins(stamp.from) {
            return Ok(Taken::Repeat);
        }
        self.early.add(piece)?;
        Ok(Taken::Early(self.top))
    }
}

// Moves to the end of the chain each early piece that begins at the top then reached.
fn join(held: &mut Queue, early: &mut EarlyPieces, from: u64) -> u64
    requires room { length early.old ≤ held.old.room }
    requires formed { All IsWellFormed early.old }
    ensures joins { (joined : List Piece) × (held.new.items ≡ held.old.items ++ joined)
        × Joins from early.old joined early.new result }
    ensures ascending { IsAscending early.new }
{
    let mut top = from;
    while let Some(next) = early.remove(top) {
        top = next.stamp.to;
        held.push_reserved(next);
    }
    top
}
