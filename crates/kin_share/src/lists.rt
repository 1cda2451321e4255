//! Lists that grow at their end, which clones share.

ghost use Rattle.std.specs.Prelude.{◌≡◌, ◌<◌, ◌≤◌, ◌==◌, take, ◌++◌, ◌∷◌, [], OnOk, OnErr, length, slice_index_or, slice_set};

use crate::chunks::Chunks;
use crate::full::FullRef;
use crate::items::Items;
use std::alloc::{AllocError, Global};
use std::marker::Model;
use std::sync::Arc;

/// A list that grows at its end, seen as a list. It takes no memory while it is empty, and a clone shares all of it: the first
/// write after that copies at most 64 items, 64 pointers, and one more for each 4096 items.
#[derive(Drop)]
pub struct SharedList<T> {
    alloc: Global,
    list: Option<Arc<Chunks<T>, Global>>,
}

impl<T> Model for SharedList<T> {
    ghost use Rattle.std.specs.Prelude.{List};
    ghost use Rattle.kin_share.specs.Chunks.{of_arc};

    ghost Value = { List T };

    ghost view = { λ a. of_arc a.list };
}

impl<T: Copy + Drop> SharedList<T> {
    /// No items. It takes no memory.
    pub fn new(alloc: Global) -> SharedList<T>
        ensures { result ≡ [] }
    {
        SharedList { alloc, list: None }
    }

    /// How many items. O(1).
    pub fn len(&self) -> usize
        ensures { result ≡ length self.now }
    {
        match &self.list {
            Some(list) => list.len(),
            None => 0,
        }
    }

    /// Whether there are no items. O(1).
    pub fn is_empty(&self) -> bool
        ensures { result ≡ (length self.now == 0) }
    {
        self.len() == 0
    }

    /// The item at a place. O(1).
    pub fn at(&self, place: usize) -> T
        requires { place < length self.now }
        ensures { (d : T) → result ≡ slice_index_or self.now place d }
    {
        match &self.list {
            Some(list) => list.at(place),
            None => unreachable!(),
        }
    }

    /// The first items, at most 64. O(1).
    pub fn head(&self, few: usize) -> &[T]
        requires { few ≤ 64 }
        ensures { result.now ≡ take few self.now }
    {
        match &self.list {
            Some(list) => list.head(few),
            None => &[],
        }
    }

    /// The items, one after the other.
    pub fn iter(&self) -> Items<'_, T>
        ensures { result ≡ self.now }
    {
        match &self.list {
            Some(list) => list.iter(),
            None => Items::of(FullRef::none(), &[]),
        }
    }

    /// One more item at the end. O(1), and a copy of what is shared and written.
    pub fn push(&mut self, item: T) -> Result<(), AllocError>
        ensures ok { OnOk result (self.new ≡ self.old ++ item ∷ []) }
        ensures err { OnErr result (self.new ≡ self.old) }
    {
        match &mut self.list {
            Some(list) => {
                let list = Arc::make_mut(list)?;
                list.push(item)
            }
            None => {
                let list = Chunks::of(self.alloc, item)?;
                self.list = Some(Arc::new(self.alloc, list)?);
                Ok(())
            }
        }
    }

    /// Writes over an item. O(1), and a copy of what is shared and written.
    pub fn set(&mut self, place: usize, item: T) -> Result<(), AllocError>
        requires { place < length self.old }
        ensures ok { OnOk result (self.new ≡ slice_set self.old place item) }
        ensures err { OnErr result (self.new ≡ self.old) }
    {
        match &mut self.list {
            Some(list) => {
                let list = Arc::make_mut(list)?;
                list.set(place, item)
            }
            None => Ok(()),
        }
    }
}

/// A clone shares all items. O(1).
impl<T: Copy + Drop> Clone for SharedList<T> {
    ghost is_clone = { λ list result. result ≡ list };

    fn clone(&self) -> Result<SharedList<T>, AllocError> {
        Ok(SharedList {
            alloc: self.alloc,
            list: match &self.list {
                Some(list) => Some(Arc::try_clone(list)?),
                None => None,
            },
        })
    }
}
