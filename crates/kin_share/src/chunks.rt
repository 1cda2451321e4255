//! Items in full chunks, which clones share, and a rest.

ghost use Rattle.std.specs.Prelude.{◌≡◌, ◌<◌, ◌≤◌, take, ◌++◌, ◌∷◌, [], IfOk, OnOk, OnErr, length, slice_index_or, slice_set};

use crate::full::{Full, FullRef};
use crate::items::Items;
use crate::runs::Chunk;
use std::alloc::{AllocError, Global};
use std::marker::Model;

/// A list that grows at its end. It costs no memory while it is empty, and a clone copies one
/// pointer and at most 64 items. The first write after that copies n / 4096 pointers and at most 64.
#[derive(Drop)]
pub(crate) struct Chunks<T> {
    alloc: Global,
    full: Full<T>,
    rest: Vec<T>,
    count: usize,
}

// So many items has a full chunk.
const CHUNK: usize = 64;

impl<T> Model for Chunks<T> {
    ghost use Rattle.std.specs.Prelude.{List};
    ghost use Rattle.kin_share.specs.Chunks.{joined, IsChunked};

    ghost Value = { List T };

    ghost view = { λ a. joined a.full a.rest.items };

    ghost invariant = { λ a. IsChunked a.full a.rest.items a.count };
}

impl<T: Copy + Drop> Chunks<T> {
    /// One item.
    pub(crate) fn of(alloc: Global, item: T) -> Result<Chunks<T>, AllocError>
        ensures { IfOk result (λ c. c ≡ item ∷ []) }
    {
        let mut rest = Vec::with_capacity(alloc, 1)?;
        rest.push(item)?;
        Ok(Chunks {
            alloc,
            full: Full::none(),
            rest,
            count: 1,
        })
    }

    /// How many items. O(1).
    pub(crate) fn len(&self) -> usize
        ensures { result ≡ length self.now }
    {
        self.count
    }

    /// The item at a place. O(1).
    pub(crate) fn at(&self, place: usize) -> T
        requires { place < length self.now }
        ensures { (d : T) → result ≡ slice_index_or self.now place d }
    {
        let chunk = place / CHUNK;
        if chunk < self.full.len() {
            return self.full.chunk(chunk)[place % CHUNK];
        }
        self.rest[place - CHUNK * self.full.len()]
    }

    /// The first items, at most 64. O(1).
    pub(crate) fn head(&self, few: usize) -> &[T]
        requires { few ≤ 64 }
        ensures { result.now ≡ take few self.now }
    {
        let first = if self.full.len() == 0 {
            self.rest.as_slice()
        } else {
            self.full.chunk(0)
        };
        &first[..few.min(first.len())]
    }

    /// The items, one after the other.
    pub(crate) fn iter(&self) -> Items<'_, T>
        ensures { result ≡ self.now }
    {
        Items::of(FullRef::of(&self.full), self.rest.as_slice())
    }

    /// One more item at the end. O(1), each 64th time a copy of 64 items.
    pub(crate) fn push(&mut self, item: T) -> Result<(), AllocError>
        ensures ok { OnOk result (self.new ≡ self.old ++ item ∷ []) }
        ensures err { OnErr result (self.new ≡ self.old) }
    {
        let Some(more) = self.count.checked_add(1) else {
            return Err(AllocError);
        };
        if self.rest.len() == CHUNK {
            let chunk = Chunk::of(self.alloc, &self.rest)?;
            let mut rest = Vec::with_capacity(self.alloc, 4)?;
            rest.push(item)?;
            self.full.push(self.alloc, chunk)?;
            self.rest = rest;
            self.count = more;
            return Ok(());
        }
        self.rest.push(item)?;
        self.count = more;
        Ok(())
    }

    /// Writes over an item. O(1), and a copy of its chunk where that is shared.
    pub(crate) fn set(&mut self, place: usize, item: T) -> Result<(), AllocError>
        requires { place < length self.old }
        ensures ok { OnOk result (self.new ≡ slice_set self.old place item) }
        ensures err { OnErr result (self.new ≡ self.old) }
    {
        let chunk = place / CHUNK;
        if chunk < self.full.len() {
            return self.full.set(chunk, place % CHUNK, item);
        }
        let at = place - CHUNK * self.full.len();
        self.rest[at] = item;
        Ok(())
    }
}

// The same items, and room for one more: who copies a list is about to write it.
fn with_room<T: Copy + Drop>(alloc: Global, items: &[T]) -> Result<Vec<T>, AllocError>
    requires { length items.now ≤ 64 }
    ensures { IfOk result (λ v. v.items ≡ items.now) }
{
    let room = (items.len() + 1).min(CHUNK);
    let mut copy = Vec::with_capacity(alloc, room)?;
    copy.extend_from_slice(items)?;
    Ok(copy)
}

/// A clone shares the full chunks.
impl<T: Copy + Drop> Clone for Chunks<T> {
    ghost is_clone = { λ list result. result ≡ list };

    fn clone(&self) -> Result<Chunks<T>, AllocError> {
        Ok(Chunks {
            alloc: self.alloc,
            full: self.full.clone()?,
            rest: with_room(self.alloc, &self.rest)?,
            count: self.count,
        })
    }
}
