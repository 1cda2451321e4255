//! One partition's chains, one for each node.

ghost use Rattle.std.specs.Prelude.{◌≡◌, ◌<◌, ◌≤◌, IfOk, OnErr, length, take, drop, slice_set, replicate};
ghost use Rattle.kin_ids.specs.Operations.{IsWellFormed};

use crate::answers::Taken;
use crate::chains::Chain;
use kin_ids::{Inc, IngestId, Memory, Piece};
use std::alloc::Global;
use std::marker::Model;

/// The pieces that a partition holds, a chain for each node.
#[derive(Drop)]
pub struct Held {
    chains: Vec<Chain>,
}

impl Model for Held {
    ghost use Rattle.std.specs.Prelude.{List};
    ghost use Rattle.kin_held.specs.Chains.{ChainView};

    ghost Value = { List ChainView };

    ghost view = { λ h. h.chains.items };
}

impl Held {
    ghost use Rattle.kin_held.specs.Chains.{IsChain, chain_at, no_chain, pieces_upto, pieces_past};
    ghost use Rattle.kin_held.specs.Takes.{TakesAt, IsPlace, taken_of, chain_past};

    /// Empty chains of this many nodes.
    pub fn new(alloc: Global, nodes: u16) -> Result<Held, Memory>
        ensures { IfOk result (λ held. held ≡ replicate nodes no_chain) }
    {
        let mut chains = Vec::with_capacity(alloc, usize::from(nodes))?;
        for _node in 0..nodes {
            chains.push(Chain::new(alloc))?;
        }
        Ok(Held { chains })
    }

    /// Takes a piece into its node's chain. It costs O(log n) in the early pieces of that chain, for
    /// the piece and for each that joins with it; entering a later incarnation costs O(log n) in the
    /// chain besides, and what it drops.
    pub fn take(&mut self, piece: Piece) -> Result<Taken, Memory>
        requires formed { IsWellFormed piece }
        requires node { piece.stamp.ingest.0 < length self.old }
        // Which answer comes, and what each one says and leaves.
        ensures answer { IfOk result (λ taken. taken ≡ taken_of
            (chain_at self.old piece.stamp.ingest.0) piece (chain_at self.new piece.stamp.ingest.0).top) }
        ensures taken { IfOk result (λ taken. TakesAt self.old piece taken self.new) }

        ensures err { OnErr result (self.new ≡ self.old) }
        ensures chain { IsChain (chain_at self.new piece.stamp.ingest.0) }
    {
        let chain = &mut self.chains[usize::from(piece.stamp.ingest.0)];
        chain.take(piece)
    }

    /// Up to where node `i` is held without a gap.
    pub fn top(&self, i: IngestId) -> u64
        requires { i.0 < length self.now }
        ensures { result ≡ (chain_at self.now i.0).top }
    {
        self.chains[usize::from(i.0)].top()
    }

    /// The greatest incarnation of node `i` that a piece was taken of.
    pub fn inc(&self, i: IngestId) -> Inc
        requires { i.0 < length self.now }
        ensures { result.0 ≡ (chain_at self.now i.0).inc }
    {
        self.chains[usize::from(i.0)].inc()
    }

    /// Up to where the pieces of node `i` were forgotten.
    pub fn floor(&self, i: IngestId) -> u64
        requires { i.0 < length self.now }
        ensures { result ≡ (chain_at self.now i.0).floor }
    {
        self.chains[usize::from(i.0)].floor()
    }

    /// The pieces of node `i` that follow each other from its floor to its top.
    pub fn chain(&self, i: IngestId) -> &[Piece]
        requires { i.0 < length self.now }
        ensures held { result.now ≡ (chain_at self.now i.0).held }
        ensures chain { IsChain (chain_at self.now i.0) }
    {
        self.chains[usize::from(i.0)].held()
    }

    /// How many pieces of the chain of node `i` end at or before the position. It costs O(log n).
    pub fn count_upto(&self, i: IngestId, at: u64) -> usize
        requires { i.0 < length self.now }
        ensures within { result ≤ length (chain_at self.now i.0).held }
        ensures front { take result (chain_at self.now i.0).held
            ≡ pieces_upto at (chain_at self.now i.0).held }
        ensures rest { drop result (chain_at self.now i.0).held
            ≡ pieces_past at (chain_at self.now i.0).held }
    {
        self.chains[usize::from(i.0)].count_upto(at)
    }

    /// Lets go of the pieces of node `i` up to a place of its chain, which is its floor then. It costs
    /// O(log n) and, over all calls, what is let go of. Pieces that were let go of may stay in memory
    /// until they come to more than those of the chain.
    pub fn forget(&mut self, i: IngestId, to: u64)
        requires node { i.0 < length self.old }
        requires place { IsPlace (chain_at self.old i.0) to }
        ensures forgot { self.new ≡ slice_set self.old i.0 (chain_past (chain_at self.old i.0) to) }
        ensures chain { IsChain (chain_at self.new i.0) }
    {
        let chain = &mut self.chains[usize::from(i.0)];
        chain.forget(to);
    }
}
