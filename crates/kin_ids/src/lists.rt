//! Lists, each over one `Vec`, which contracts see as a list.

ghost use Rattle.std.specs.Prelude.{◌≡◌, [], ◌∷◌, ◌++◌, OnOk, OnErr};

use crate::faults::Memory;
use crate::ids::User;
use crate::ops::{Item, Name, Numbered, Piece};
use crate::stamps::{End, Stamp};
use std::alloc::Global;
use std::marker::Model;

/// A list of items, seen as the list.
#[derive(Debug, Drop)]
pub struct ListOf<T> {
    all: Vec<T>,
}

impl<T> Model for ListOf<T> {
    ghost use Rattle.std.specs.Prelude.{List};

    ghost Value = { List T };

    ghost view = { λ a. a.all.items };
}

impl<T: Drop> ListOf<T> {
    /// The empty list. It takes no memory.
    pub fn new(alloc: Global) -> ListOf<T>
        ensures { result ≡ [] }
    {
        ListOf {
            all: Vec::new(alloc),
        }
    }

    /// The list of these items. It takes no memory.
    pub fn of(all: Vec<T>) -> ListOf<T>
        ensures { result ≡ all.items }
    {
        ListOf { all }
    }

    /// Its items. It takes no memory.
    pub fn into_vec(self) -> Vec<T>
        ensures { result.items ≡ self }
    {
        self.all
    }

    /// Appends one item.
    pub fn push(&mut self, item: T) -> Result<(), Memory>
        ensures ok { OnOk result (self.new ≡ self.old ++ item ∷ []) }
        ensures err { OnErr result (self.new ≡ self.old) }
    {
        self.all.push(item)?;
        Ok(())
    }

    /// Its items, as a slice. It takes no memory.
    pub fn as_slice(&self) -> &[T]
        ensures { result.now ≡ self.now }
    {
        self.all.as_slice()
    }
}

/// The items of a tweet.
pub type Items = ListOf<Item>;

/// The operations of a piece.
pub type Ops = ListOf<Numbered>;

/// Positions of nodes.
pub type Ends = ListOf<End>;

/// Stamps in order.
pub type StampList = ListOf<Stamp>;

/// Pieces in order.
pub type PieceList = ListOf<Piece>;

/// File names in the order of the words.
pub type Names = ListOf<Name>;

/// Landmarks in the order of the words.
pub type Landmarks = ListOf<User>;
