//! Runs of items behind a pointer that clones share.

ghost use Rattle.std.specs.Prelude.{◌≡◌, ◌<◌, IfOk, OnOk, OnErr, length, slice_set};

use std::alloc::{AllocError, Global};
use std::marker::Model;
use std::sync::Arc;

/// Some items.
#[derive(Drop)]
pub(crate) struct Run<T> {
    alloc: Global,
    items: Vec<T>,
}

impl<T> Model for Run<T> {
    ghost use Rattle.std.specs.Prelude.{List};

    ghost Value = { List T };

    ghost view = { λ a. a.items.items };
}

impl<T: Copy + Drop> Run<T> {
    fn set(&mut self, place: usize, item: T)
        requires { place < length self.old }
        ensures { self.new ≡ slice_set self.old place item }
    {
        self.items[place] = item;
    }
}

/// A clone is an equal list. O(n).
impl<T: Copy + Drop> Clone for Run<T> {
    ghost is_clone = { λ run result. result ≡ run };

    fn clone(&self) -> Result<Run<T>, AllocError> {
        Ok(Run {
            alloc: self.alloc,
            items: Vec::from_slice(self.alloc, &self.items)?,
        })
    }
}

/// A chunk, which clones share, and which is copied when it is written while it is shared.
#[derive(Drop)]
pub(crate) struct Chunk<T> {
    run: Arc<Run<T>, Global>,
}

impl<T> Model for Chunk<T> {
    ghost use Rattle.std.specs.Prelude.{List};
    ghost use Rattle.std.specs.Arc.{arc_value};

    ghost Value = { List T };

    ghost view = { λ a. arc_value a.run };
}

impl<T: Copy + Drop> Chunk<T> {
    /// A chunk of these items.
    pub(crate) fn of(alloc: Global, items: &[T]) -> Result<Chunk<T>, AllocError>
        ensures { IfOk result (λ c. c ≡ items.now) }
    {
        let run = Run {
            alloc,
            items: Vec::from_slice(alloc, items)?,
        };
        Ok(Chunk {
            run: Arc::new(alloc, run)?,
        })
    }

    /// The items.
    pub(crate) fn items(&self) -> &[T]
        ensures { result.now ≡ self.now }
    {
        self.run.items.as_slice()
    }

    /// Writes over an item. O(1), and a copy of the chunk where it is shared.
    pub(crate) fn set(&mut self, place: usize, item: T) -> Result<(), AllocError>
        requires { place < length self.old }
        ensures ok { OnOk result (self.new ≡ slice_set self.old place item) }
        ensures err { OnErr result (self.new ≡ self.old) }
    {
        let run = Arc::make_mut(&mut self.run)?;
        run.set(place, item);
        Ok(())
    }
}

/// A clone shares the chunk. O(1).
impl<T: Copy + Drop> Clone for Chunk<T> {
    ghost is_clone = { λ chunk result. result ≡ chunk };

    fn clone(&self) -> Result<Chunk<T>, AllocError> {
        Ok(Chunk {
            run: self.run.clone()?,
        })
    }
}
