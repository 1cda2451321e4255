//! Which users are active.

ghost use Rattle.std.specs.Prelude.{◌≡◌, ◌≤◌, ◌<◌, ◌+◌, ℕ, true, false, None, IfOk, IfSome, length, replicate};
ghost use Rattle.std.specs.Prelude.{slice_index_or, slice_set};

use kin_ids::Memory;
use std::alloc::Global;
use std::marker::Model;

// So many places are looked at together.
const BLOCK: usize = 256;

/// Marks of places below a number, seen as a list of truth values. It notes for each block of places whether one of
/// them may be marked, so that the first mark is found without a look at all places.
#[derive(Drop)]
pub struct ActiveSet {
    on: Vec<bool>,
    any: Vec<bool>,
}

impl Model for ActiveSet {
    ghost use Rattle.std.specs.Prelude.{List, Bool};
    ghost use Rattle.kin_push.specs.States.{AreNoted};

    ghost Value = { List Bool };

    ghost view = { λ a. a.on.items };

    ghost invariant = { λ a. AreNoted a.on.items a.any.items };
}

impl ActiveSet {
    /// No mark at any of so many places. O(n).
    pub fn none(alloc: Global, n: usize) -> Result<ActiveSet, Memory>
        ensures { IfOk result (λ m. m ≡ replicate n false) }
    {
        let on = vec![in alloc; false; n]?;
        let any = vec![in alloc; false; n / BLOCK + 1]?;
        Ok(ActiveSet { on, any })
    }

    /// How many places there are. O(1).
    pub fn len(&self) -> usize
        ensures { result ≡ length self.now }
    {
        self.on.len()
    }

    /// Whether a place is marked. O(1).
    pub fn is_on(&self, i: usize) -> bool
        requires { i < length self.now }
        ensures { result ≡ slice_index_or self.now i false }
    {
        self.on[i]
    }

    /// Marks a place. It takes no memory. O(1).
    pub fn mark(&mut self, i: usize)
        requires { i < length self.old }
        ensures { self.new ≡ slice_set self.old i true }
    {
        self.any[i / BLOCK] = true;
        self.on[i] = true;
    }

    // The first mark of the block that begins at a place.
    fn first_in(&self, from: usize) -> Option<usize>
        requires { from ≤ length self.now }
        ensures some { IfSome result (λ i. (from ≤ i) × (i < length self.now) × (slice_index_or self.now i false ≡ true)
            × ((k : ℕ) → from ≤ k → k < i → slice_index_or self.now k false ≡ false)) }
        ensures none { result ≡ None → (k : ℕ) → from ≤ k → k < from + 256 → slice_index_or self.now k false ≡ false }
    {
        let mut to = self.on.len();
        if to - from > BLOCK {
            to = from + BLOCK;
        }
        for i in from..to {
            if self.on[i] {
                return Some(i);
            }
        }
        None
    }

    /// Takes the mark of a place away. It looks at the places of one block.
    pub fn unmark(&mut self, i: usize)
        requires { i < length self.old }
        ensures { self.new ≡ slice_set self.old i false }
    {
        self.on[i] = false;
        let block = i / BLOCK;
        if self.first_in(i - i % BLOCK).is_none() {
            self.any[block] = false;
        }
    }

    /// The first place that is marked. It costs a look at each block of 256 places, and at the places of one.
    pub fn first(&self) -> Option<usize>
        ensures some { IfSome result (λ i. (i < length self.now) × (slice_index_or self.now i false ≡ true)
            × ((k : ℕ) → k < i → slice_index_or self.now k false ≡ false)) }
        ensures none { result ≡ None → (k : ℕ) → slice_index_or self.now k false ≡ false }
    {
        for block in 0..self.any.len() {
            if self.any[block] && block <= self.on.len() / BLOCK {
                if let Some(i) = self.first_in(block * BLOCK) {
                    return Some(i);
                }
            }
        }
        None
    }
}
