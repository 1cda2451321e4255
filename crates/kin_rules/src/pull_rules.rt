//! Rules of layers: each value of a user is computed from the values of its neighbours one layer lower.

ghost use Rattle.std.specs.Prelude.{◌≡◌, [], IfOk};

use kin_graph::Uses;
use kin_ids::{Memory, User};
use std::alloc::Global;

/// On which side of a user its inputs stand: those who follow it now, or those whom it follows now.
#[derive(Clone, Copy, Debug, PartialEq, Eq)]
pub enum Side {
    In,
    Out,
}

/// What is known of a user beside its edges: how many users it follows now, and its first uses of tags.
#[derive(Debug, Drop)]
pub struct Facts {
    pub user: User,
    pub following: u64,
    pub uses: Uses,
}

impl Facts {
    /// Facts of a user that follows nobody and has used no tag. It takes no memory.
    pub fn blank(alloc: Global, user: User) -> Facts
        ensures { result ≡ record { user = user; following = 0; uses = [] } }
    {
        Facts {
            user,
            following: 0,
            uses: Uses::new(alloc),
        }
    }

    /// Equal facts. O(n) for n uses.
    pub fn copy(&self, alloc: Global) -> Result<Facts, Memory>
        ensures { IfOk result (λ facts. facts ≡ self.now) }
    {
        let uses = Vec::from_slice(alloc, self.uses.as_slice())?;
        Ok(Facts {
            user: self.user,
            following: self.following,
            uses: Uses::of(uses),
        })
    }
}

/// A neighbour, with its value one layer lower.
#[derive(Debug, Drop)]
pub struct Input<V> {
    pub facts: Facts,
    pub value: V,
}

/// A neighbour that is lent, with its value one layer lower.
#[derive(Drop)]
pub struct Lent<'a, V: Drop> {
    pub facts: &'a Facts,
    pub value: &'a V,
}

/// A rule of layers. Layer 0 of everybody is `first`, and each layer above is `next` of the user's facts and of its
/// inputs one layer lower. The three provided calls make evaluation fast: a rule that needs no copies of its inputs
/// writes `next_lent`, and one that sees an input by a number alone writes `share` and `next_shares`.
pub trait PullRule {
    ghost use Rattle.std.specs.Prelude.{◌≡◌, ◌<◌, ℕ, IfOk, IfSome, List, All, length};
    ghost use Rattle.kin_rules.specs.declared.pull_rules.Facts.{Facts};
    ghost use Rattle.kin_rules.specs.declared.pull_rules.Input.{Input};
    ghost use Rattle.kin_rules.specs.Layers.{AreShares, LayerRule, IsLayerRule, lent};

    type Value: Drop;

    /// How many layers there are above layer 0.
    const LAYERS: u32;

    ghost LAYERS: { ℕ };

    /// The number by which alone `next` sees an input, where `next_shares` answers Some.
    ghost share: { Self → Facts → Self.Value → ℕ } = { λ _ _ _. 0 };

    /// What the rule is.
    ghost seen: { Self → LayerRule Self.Value };

    /// On which side the inputs are.
    fn side(&self) -> Side
        ensures { result ≡ (seen self.now).side };

    /// The value of layer 0.
    fn first(&self, alloc: Global) -> Result<Self::Value, Memory>
        ensures { IfOk result (λ v. v ≡ (seen self.now).first) };

    /// An equal value.
    fn copy(&self, alloc: Global, value: &Self::Value) -> Result<Self::Value, Memory>
        ensures { IfOk result (λ v. v ≡ value.now) };

    /// The value of the layer above the inputs'.
    fn next(
        &self,
        alloc: Global,
        own: &Facts,
        inputs: &[Input<Self::Value>],
    ) -> Result<Self::Value, Memory>
        ensures { IfOk result (λ v. v ≡ (seen self.now).next own.now inputs.now) };

    /// `next` of inputs that are lent. This one copies them.
    fn next_lent(
        &self,
        alloc: Global,
        own: &Facts,
        inputs: &[Lent<'_, Self::Value>],
    ) -> Result<Self::Value, Memory>
        ensures { IfOk result (λ v. v ≡ (seen self.now).next own.now (lent inputs.now)) }
    {
        let mut copies = Vec::with_capacity(alloc, inputs.len())?;
        for input in inputs {
            copies.push(Input {
                facts: input.facts.copy(alloc)?,
                value: self.copy(alloc, input.value)?,
            })?;
        }
        self.next(alloc, own, copies.as_slice())
    }

    /// The share of an input; None where the rule has no shares. It takes no memory.
    fn share(&self, _facts: &Facts, _value: &Self::Value) -> Option<u64>
        ensures { IfSome result (λ n. n ≡ share self.now _facts.now _value.now) }
    {
        None
    }

    /// `next` of the inputs that stand at these places, of everybody's shares; None where the rule has no shares.
    fn next_shares(
        &self,
        _alloc: Global,
        _own: &Facts,
        _shares: &[u64],
        _ends: &[usize],
    ) -> Result<Option<Self::Value>, Memory>
        requires { All (λ i. i < length _shares.now) _ends.now }
        ensures { IfOk result (λ o. IfSome o (λ v. (inputs : List (Input Self.Value)) →
            AreShares (share self.now) inputs _shares.now _ends.now → v ≡ (seen self.now).next _own.now inputs)) }
    {
        Ok(None)
    }

    /// Whether such own facts give the same values. It takes no memory.
    fn own_alike(&self, was: &Facts, now: &Facts) -> bool
        ensures { result ≡ (seen self.now).own_alike was.now now.now };

    /// Whether such inputs of one user give the same values. It takes no memory.
    fn input_alike(
        &self,
        was: &Facts,
        was_value: &Self::Value,
        now: &Facts,
        now_value: &Self::Value,
    ) -> bool
        ensures { result ≡ (seen self.now).alike was.now was_value.now now.now now_value.now };

    ghost laws: { (r : Self) → IsLayerRule (seen r) };
}
