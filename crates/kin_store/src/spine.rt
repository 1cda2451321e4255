//! A partition's blocks in pages that versions share.

ghost use Rattle.std.specs.Prelude.{◌≡◌, ◌<◌, ◌^◌, IfOk, OnOk, OnErr, length, replicate, slice_set};
ghost use Rattle.kin_store.specs.Rows.{row_applied};
ghost use Rattle.kin_store.specs.Changes.{kept_in, with_op, with_user};
ghost use Rattle.kin_store.specs.Lists.{user_place};
ghost use Rattle.kin_store.specs.Hints.{row_place};
ghost use Rattle.kin_store.specs.Blocks.{empty_block, empty_blocks, row_in, slot_of, users_in};

use crate::blocks::Block;
use crate::shelves::Shelf;
use kin_ids::{Memory, Op, Place, Tag, User};
use std::alloc::{AllocError, Global};
use std::marker::Model;
use std::sync::Arc;

/// Some blocks.
#[derive(Drop)]
pub(crate) struct Rack {
    shelves: Vec<Shelf>,
}

impl Model for Rack {
    ghost use Rattle.std.specs.Prelude.{List};
    ghost use Rattle.kin_store.specs.Blocks.{BlockState};

    ghost Value = { List BlockState };

    ghost view = { λ a. a.shelves.items };
}

impl Rack {
    fn new(alloc: Global) -> Result<Rack, Memory>
        ensures { IfOk result (λ r. r ≡ replicate 64 empty_block) }
    {
        let shelf = Shelf::new(alloc)?;
        let mut shelves = Vec::with_capacity(alloc, PAGE)?;
        for _ in 0..PAGE {
            shelves.push(shelf.clone()?)?;
        }
        Ok(Rack { shelves })
    }

    /// Does in a user's row what an operation says.
    pub(crate) fn apply_to_user(
        &mut self,
        slot: usize,
        user: User,
        place: Place,
        op: &Op,
        at: Option<usize>,
    ) -> Result<(), Memory>
        requires slot { slot < length self.old }
        requires at { at ≡ row_place (row_in (slot_of self.old slot) user) op.now }
        requires said { (row_applied place (row_in (slot_of self.old slot) user) op.now).said < 2 ^ 64 }
        ensures others { self.new ≡ slice_set self.old slot (slot_of self.new slot) }
        ensures err { OnErr result (self.new ≡ self.old) }
        ensures ok { OnOk result (kept_in (slot_of self.new slot)
            ≡ with_op (kept_in (slot_of self.old slot)) user place op.now) }
    {
        self.shelves[slot].apply_to_user(user, place, op, at)
    }

    /// The user has used the tag.
    pub(crate) fn add_tag_user(
        &mut self,
        slot: usize,
        tag: Tag,
        user: User,
        at: Option<usize>,
    ) -> Result<(), Memory>
        requires slot { slot < length self.old }
        requires at { at ≡ user_place (users_in (slot_of self.old slot) tag) user }
        ensures others { self.new ≡ slice_set self.old slot (slot_of self.new slot) }
        ensures err { OnErr result (self.new ≡ self.old) }
        ensures ok { OnOk result (kept_in (slot_of self.new slot)
            ≡ with_user (kept_in (slot_of self.old slot)) tag user) }
    {
        self.shelves[slot].add_tag_user(tag, user, at)
    }
}

/// A clone shares each block.
impl Clone for Rack {
    ghost is_clone = { λ rack result. result ≡ rack };

    fn clone(&self) -> Result<Rack, AllocError> {
        Ok(Rack {
            shelves: self.shelves.clone()?,
        })
    }
}

/// 64 blocks. Versions share them.
#[derive(Drop)]
pub(crate) struct Page {
    rack: Arc<Rack, Global>,
}

impl Model for Page {
    ghost use Rattle.std.specs.Prelude.{List};
    ghost use Rattle.std.specs.Arc.{arc_value};
    ghost use Rattle.kin_store.specs.Blocks.{BlockState};

    ghost Value = { List BlockState };

    ghost view = { λ a. arc_value a.rack };
}

impl Page {
    fn new(alloc: Global) -> Result<Page, Memory>
        ensures { IfOk result (λ r. r ≡ replicate 64 empty_block) }
    {
        Ok(Page {
            rack: Arc::new(alloc, Rack::new(alloc)?)?,
        })
    }

    fn block(&self, slot: usize) -> &Block
        requires { slot < length self.now }
        ensures { result.now ≡ slot_of self.now slot }
    {
        self.rack.shelves[slot].block()
    }

    /// Does in a user's row what an operation says.
    pub(crate) fn apply_to_user(
        &mut self,
        slot: usize,
        user: User,
        place: Place,
        op: &Op,
        at: Option<usize>,
    ) -> Result<(), Memory>
        requires slot { slot < length self.old }
        requires at { at ≡ row_place (row_in (slot_of self.old slot) user) op.now }
        requires said { (row_applied place (row_in (slot_of self.old slot) user) op.now).said < 2 ^ 64 }
        ensures others { self.new ≡ slice_set self.old slot (slot_of self.new slot) }
        ensures err { OnErr result (self.new ≡ self.old) }
        ensures ok { OnOk result (kept_in (slot_of self.new slot)
            ≡ with_op (kept_in (slot_of self.old slot)) user place op.now) }
    {
        let rack = Arc::make_mut(&mut self.rack)?;
        rack.apply_to_user(slot, user, place, op, at)
    }

    /// The user has used the tag.
    pub(crate) fn add_tag_user(
        &mut self,
        slot: usize,
        tag: Tag,
        user: User,
        at: Option<usize>,
    ) -> Result<(), Memory>
        requires slot { slot < length self.old }
        requires at { at ≡ user_place (users_in (slot_of self.old slot) tag) user }
        ensures others { self.new ≡ slice_set self.old slot (slot_of self.new slot) }
        ensures err { OnErr result (self.new ≡ self.old) }
        ensures ok { OnOk result (kept_in (slot_of self.new slot)
            ≡ with_user (kept_in (slot_of self.old slot)) tag user) }
    {
        let rack = Arc::make_mut(&mut self.rack)?;
        rack.add_tag_user(slot, tag, user, at)
    }
}

/// A clone shares the blocks. O(1).
impl Clone for Page {
    ghost is_clone = { λ page result. result ≡ page };

    fn clone(&self) -> Result<Page, AllocError> {
        Ok(Page {
            rack: self.rack.clone()?,
        })
    }
}

/// Blocks in pages of 64. A clone copies a pointer a page.
#[derive(Drop)]
pub(crate) struct Spine {
    pages: Vec<Page>,
    count: usize,
}

// So many blocks has a page.
const PAGE: usize = 64;

// So many pages has a partition.
const PAGES: usize = 64;

impl Model for Spine {
    ghost use Rattle.std.specs.Prelude.{List, []};
    ghost use Rattle.kin_share.specs.Chunks.{joined};
    ghost use Rattle.kin_store.specs.Blocks.{BlockState, IsPaged};

    ghost Value = { List BlockState };

    ghost view = { λ a. joined a.pages.items [] };

    ghost invariant = { λ a. IsPaged a.pages.items a.count };
}

impl Spine {
    /// Empty blocks, all of which are one that is shared.
    pub(crate) fn new(alloc: Global) -> Result<Spine, Memory>
        ensures { IfOk result (λ s. s ≡ empty_blocks) }
    {
        let page = Page::new(alloc)?;
        let mut pages = Vec::with_capacity(alloc, PAGES)?;
        for _ in 0..PAGES {
            pages.push(page.clone()?)?;
        }
        Ok(Spine {
            pages,
            count: PAGE * PAGES,
        })
    }

    /// How many blocks.
    pub(crate) fn len(&self) -> usize
        ensures { result ≡ length self.now }
    {
        self.count
    }

    /// A block. O(1).
    pub(crate) fn block(&self, slot: usize) -> &Block
        requires { slot < length self.now }
        ensures { result.now ≡ slot_of self.now slot }
    {
        self.pages[slot / PAGE].block(slot % PAGE)
    }

    /// Does in a user's row what an operation says.
    pub(crate) fn apply_to_user(
        &mut self,
        slot: usize,
        user: User,
        place: Place,
        op: &Op,
        at: Option<usize>,
    ) -> Result<(), Memory>
        requires slot { slot < length self.old }
        requires at { at ≡ row_place (row_in (slot_of self.old slot) user) op.now }
        requires said { (row_applied place (row_in (slot_of self.old slot) user) op.now).said < 2 ^ 64 }
        ensures others { self.new ≡ slice_set self.old slot (slot_of self.new slot) }
        ensures err { OnErr result (self.new ≡ self.old) }
        ensures ok { OnOk result (kept_in (slot_of self.new slot)
            ≡ with_op (kept_in (slot_of self.old slot)) user place op.now) }
    {
        self.pages[slot / PAGE].apply_to_user(slot % PAGE, user, place, op, at)
    }

    /// The user has used the tag.
    pub(crate) fn add_tag_user(
        &mut self,
        slot: usize,
        tag: Tag,
        user: User,
        at: Option<usize>,
    ) -> Result<(), Memory>
        requires slot { slot < length self.old }
        requires at { at ≡ user_place (users_in (slot_of self.old slot) tag) user }
        ensures others { self.new ≡ slice_set self.old slot (slot_of self.new slot) }
        ensures err { OnErr result (self.new ≡ self.old) }
        ensures ok { OnOk result (kept_in (slot_of self.new slot)
            ≡ with_user (kept_in (slot_of self.old slot)) tag user) }
    {
        self.pages[slot / PAGE].add_tag_user(slot % PAGE, tag, user, at)
    }
}

/// A clone shares each page.
impl Clone for Spine {
    ghost is_clone = { λ spine result. result ≡ spine };

    fn clone(&self) -> Result<Spine, AllocError> {
        Ok(Spine {
            pages: self.pages.clone()?,
            count: self.count,
        })
    }
}
