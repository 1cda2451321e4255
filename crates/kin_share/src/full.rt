//! The full chunks of a list.

ghost use Rattle.std.specs.Prelude.{◌≡◌, ◌<◌, ◌++◌, ◌∷◌, [], OnOk, OnErr, length, slice_index_or, slice_set};

use crate::pages::Pages;
use crate::runs::Chunk;
use std::alloc::{AllocError, Global};
use std::marker::Model;
use std::sync::Arc;

/// The full chunks of a list: nothing where there are none, and shared by clones.
#[derive(Drop)]
pub(crate) struct Full<T> {
    pages: Option<Arc<Pages<T>, Global>>,
}

impl<T> Model for Full<T> {
    ghost use Rattle.std.specs.Prelude.{List};
    ghost use Rattle.kin_share.specs.Chunks.{of_arc};

    ghost Value = { List (List T) };

    ghost view = { λ a. of_arc a.pages };
}

impl<T: Copy + Drop> Full<T> {
    /// No chunks. It takes no memory.
    pub(crate) fn none() -> Full<T>
        ensures { result ≡ [] }
    {
        Full { pages: None }
    }

    /// How many chunks.
    pub(crate) fn len(&self) -> usize
        ensures { result ≡ length self.now }
    {
        match &self.pages {
            Some(pages) => pages.len(),
            None => 0,
        }
    }

    /// A chunk. O(1).
    pub(crate) fn chunk(&self, chunk: usize) -> &[T]
        requires { chunk < length self.now }
        ensures { result.now ≡ slice_index_or self.now chunk [] }
    {
        match &self.pages {
            Some(pages) => pages.chunk(chunk).items(),
            None => &[],
        }
    }

    /// One more chunk at the end.
    pub(crate) fn push(&mut self, alloc: Global, chunk: Chunk<T>) -> Result<(), AllocError>
        ensures ok { OnOk result (self.new ≡ self.old ++ chunk ∷ []) }
        ensures err { OnErr result (self.new ≡ self.old) }
    {
        match &mut self.pages {
            Some(pages) => {
                let pages = Arc::make_mut(pages)?;
                pages.push(chunk)
            }
            None => {
                let mut pages = Pages::new(alloc);
                pages.push(chunk)?;
                self.pages = Some(Arc::new(alloc, pages)?);
                Ok(())
            }
        }
    }

    /// Writes over an item of a chunk. O(1), and a copy of the chunk where it is shared.
    pub(crate) fn set(&mut self, chunk: usize, place: usize, item: T) -> Result<(), AllocError>
        requires chunk { chunk < length self.old }
        requires place { place < length (slice_index_or self.old chunk []) }
        ensures ok { OnOk result (self.new ≡ slice_set self.old chunk (slice_set (slice_index_or self.old chunk []) place item)) }
        ensures err { OnErr result (self.new ≡ self.old) }
    {
        match &mut self.pages {
            Some(pages) => {
                let pages = Arc::make_mut(pages)?;
                pages.set(chunk, place, item)
            }
            None => Ok(()),
        }
    }
}

/// A clone shares all chunks. O(1).
impl<T: Copy + Drop> Clone for Full<T> {
    ghost is_clone = { λ full result. result ≡ full };

    fn clone(&self) -> Result<Full<T>, AllocError> {
        Ok(Full {
            pages: match &self.pages {
                Some(pages) => Some(Arc::try_clone(pages)?),
                None => None,
            },
        })
    }
}

/// The full chunks of a list that is read, or none.
#[derive(Drop)]
pub(crate) struct FullRef<'a, T> {
    full: Option<&'a Full<T>>,
}

impl<'a, T> Model for FullRef<'a, T> {
    ghost use Rattle.std.specs.Prelude.{List, [], unwrap_or};
    ghost use Rattle.std.specs.Option.{option_copied};

    ghost Value = { List (List T) };

    ghost view = { λ a. unwrap_or (option_copied a.full) [] };
}

impl<'a, T: Copy + Drop> FullRef<'a, T> {
    /// No chunks.
    pub(crate) fn none() -> FullRef<'a, T>
        ensures { result ≡ [] }
    {
        FullRef { full: None }
    }

    /// These chunks.
    pub(crate) fn of(full: &'a Full<T>) -> FullRef<'a, T>
        ensures { result ≡ full.now }
    {
        FullRef { full: Some(full) }
    }

    /// How many chunks.
    pub(crate) fn len(&self) -> usize
        ensures { result ≡ length self.now }
    {
        match self.full {
            Some(full) => full.len(),
            None => 0,
        }
    }

    /// A chunk. O(1).
    pub(crate) fn chunk(&self, chunk: usize) -> &'a [T]
        requires { chunk < length self.now }
        ensures { result.now ≡ slice_index_or self.now chunk [] }
    {
        match self.full {
            Some(full) => full.chunk(chunk),
            None => &[],
        }
    }
}
