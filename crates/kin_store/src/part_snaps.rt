//! The store of one partition at one moment.

ghost use Rattle.std.specs.Prelude.{◌≡◌, ◌<◌, ◌^◌, IfOk, OnOk, OnErr};
ghost use Rattle.kin_ids.specs.declared.ids.User.{User};
ghost use Rattle.kin_ids.specs.Operations.{op_part};
ghost use Rattle.kin_store.specs.Changes.{done, kept};
ghost use Rattle.kin_store.specs.State.{empty_part, row_of, users_of, LivesHere};
ghost use Rattle.kin_store.specs.Hints.{op_place, IsIndexed, IsReady};

use crate::indexes::Index;
use crate::lists::Users;
use crate::rows::Row;
use crate::stores::Store;
use kin_ids::{Memory, Op, PartId, Place, Tag, User};
use std::alloc::Global;
use std::marker::Model;
use std::sync::Arc;

/// A partition's store. Versions share what is the same in them, and a write copies what it changes and others share.
#[derive(Drop)]
pub struct PartSnap {
    store: Arc<Store, Global>,
}

impl Model for PartSnap {
    ghost use Rattle.std.specs.Arc.{arc_value};
    ghost use Rattle.kin_store.specs.State.{PartState};

    ghost Value = { PartState };

    ghost view = { λ a. arc_value a.store };
}

impl PartSnap {
    /// An empty store. Its partition is one of `parts` many.
    pub fn new(alloc: Global, part: PartId, parts: u16) -> Result<PartSnap, Memory>
        requires { part.0 < parts }
        ensures { IfOk result (λ s. s ≡ empty_part part.0 parts) }
    {
        Ok(PartSnap {
            store: Arc::new(alloc, Store::new(alloc, part, parts)?)?,
        })
    }

    /// An equal store, which shares all of this one. O(1).
    pub fn share(&self) -> Result<PartSnap, Memory>
        ensures { IfOk result (λ s. s ≡ self.now) }
    {
        Ok(PartSnap {
            store: Arc::try_clone(&self.store)?,
        })
    }

    /// Its allocator.
    pub fn alloc(&self) -> Global {
        self.store.alloc()
    }

    /// Which partition it is. It takes no memory.
    pub fn part(&self) -> PartId
        ensures number { result.0 ≡ self.now.part }
        ensures home { LivesHere self.now }
    {
        self.store.part()
    }

    /// The row of a user: a blank one where nothing is kept. O(log n).
    pub fn row(&self, user: User) -> &Row
        ensures { result.now ≡ row_of self.now user }
    {
        self.store.row(user)
    }

    /// The users of a tag. O(log n).
    pub fn users_of(&self, tag: Tag) -> &Users
        ensures { result.now ≡ users_of self.now tag }
    {
        self.store.users(tag)
    }

    /// The store.
    pub(crate) fn store(&self) -> &Store
        ensures { result.now ≡ self.now }
    {
        &self.store
    }

    /// Does what an operation of this partition says. O(log n), and a copy of what is shared and written: a row, the
    /// end of one of its lists, and pointers to the others; nothing where it changes nothing. The item's place is noted
    /// first, so after `Memory` the index may know of an item that isn't there, which harms no look-up.
    pub fn write(&mut self, index: &mut Index, place: Place, op: &Op) -> Result<(), Memory>
        requires indexed { IsIndexed (kept self.old) index.old }
        requires home { op_part self.old.parts op.now ≡ self.old.part }
        requires said { (u : User) → ((done place (kept self.old) op.now).row u).said < 2 ^ 64 }
        ensures ok { OnOk result (kept self.new ≡ done place (kept self.old) op.now) }
        ensures err { OnErr result (self.new ≡ self.old) }
        ensures indexed { IsIndexed (kept self.new) index.new }
        ensures same { (self.new.part ≡ self.old.part) × (self.new.parts ≡ self.old.parts) }
    {
        let at = self.store.place(op, index.hint(op));
        if self.store.is_done(op, at) {
            return Ok(());
        }
        note_new(index, &self.store, op, at)?;
        self.apply(place, op, at)
    }

    // Does what an operation of this partition says, whose item stands there.
    fn apply(&mut self, place: Place, op: &Op, at: Option<usize>) -> Result<(), Memory>
        requires at { at ≡ op_place (kept self.old) op.now }
        requires home { op_part self.old.parts op.now ≡ self.old.part }
        requires said { (u : User) → ((done place (kept self.old) op.now).row u).said < 2 ^ 64 }
        ensures ok { OnOk result (kept self.new ≡ done place (kept self.old) op.now) }
        ensures err { OnErr result (self.new ≡ self.old) }
        ensures same { (self.new.part ≡ self.old.part) × (self.new.parts ≡ self.old.parts) }
    {
        let store = Arc::make_mut(&mut self.store)?;
        store.apply_op(place, op, at)
    }
}

// Notes the item that an operation is about, where it isn't there yet.
fn note_new(index: &mut Index, store: &Store, op: &Op, at: Option<usize>) -> Result<(), Memory>
    requires known { IsIndexed (kept store.now) index.old }
    requires at { at ≡ op_place (kept store.now) op.now }
    ensures ready { OnOk result (IsReady (kept store.now) op.now index.new) }
    ensures err { OnErr result (index.new ≡ index.old) }
{
    if at.is_some() {
        return Ok(());
    }
    index.note(op, store.count(op))
}
