//! Blocks that versions share.

ghost use Rattle.std.specs.Prelude.{◌≡◌, ◌<◌, ◌^◌, IfOk, OnOk, OnErr};
ghost use Rattle.kin_store.specs.Rows.{row_applied};
ghost use Rattle.kin_store.specs.Changes.{kept_in, with_op, with_user};
ghost use Rattle.kin_store.specs.Lists.{user_place};
ghost use Rattle.kin_store.specs.Hints.{row_place};
ghost use Rattle.kin_store.specs.Blocks.{empty_block, row_in, users_in};

use crate::blocks::Block;
use kin_ids::{Memory, Op, Place, Tag, User};
use std::alloc::{AllocError, Global};
use std::marker::Model;
use std::sync::Arc;

/// A block. Versions share it, and it is copied when it is written while it is shared.
#[derive(Drop)]
pub(crate) struct Shelf {
    block: Arc<Block, Global>,
}

impl Model for Shelf {
    ghost use Rattle.std.specs.Arc.{arc_value};
    ghost use Rattle.kin_store.specs.Blocks.{BlockState};

    ghost Value = { BlockState };

    ghost view = { λ a. arc_value a.block };
}

impl Shelf {
    /// An empty block.
    pub(crate) fn new(alloc: Global) -> Result<Shelf, Memory>
        ensures { IfOk result (λ s. s ≡ empty_block) }
    {
        Ok(Shelf {
            block: Arc::new(alloc, Block::new(alloc))?,
        })
    }

    /// The block.
    pub(crate) fn block(&self) -> &Block
        ensures { result.now ≡ self.now }
    {
        &self.block
    }

    /// Does in a user's row what an operation says.
    pub(crate) fn apply_to_user(
        &mut self,
        user: User,
        place: Place,
        op: &Op,
        at: Option<usize>,
    ) -> Result<(), Memory>
        requires at { at ≡ row_place (row_in self.old user) op.now }
        requires said { (row_applied place (row_in self.old user) op.now).said < 2 ^ 64 }
        ensures err { OnErr result (self.new ≡ self.old) }
        ensures ok { OnOk result (kept_in self.new ≡ with_op (kept_in self.old) user place op.now) }
    {
        let block = Arc::make_mut(&mut self.block)?;
        block.apply_to_user(user, place, op, at)
    }

    /// The user has used the tag.
    pub(crate) fn add_tag_user(
        &mut self,
        tag: Tag,
        user: User,
        at: Option<usize>,
    ) -> Result<(), Memory>
        requires { at ≡ user_place (users_in self.old tag) user }
        ensures err { OnErr result (self.new ≡ self.old) }
        ensures ok { OnOk result (kept_in self.new ≡ with_user (kept_in self.old) tag user) }
    {
        let block = Arc::make_mut(&mut self.block)?;
        block.add_tag_user(tag, user, at)
    }
}

/// A clone shares the block. O(1).
impl Clone for Shelf {
    ghost is_clone = { λ shelf result. result ≡ shelf };

    fn clone(&self) -> Result<Shelf, AllocError> {
        Ok(Shelf {
            block: self.block.clone()?,
        })
    }
}
