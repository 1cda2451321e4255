//! What an epoch changed in one partition.

ghost use Rattle.std.specs.Prelude.{◌≡◌, [], IfOk};
ghost use Rattle.std.specs.Bool.{OnTrue};
ghost use Rattle.kin_graph.specs.Deltas.{no_change};

use kin_ids::{ListOf, Memory, Use, User};
use kin_store::{Pair, TagUser};
use std::alloc::Global;
use std::marker::Model;
use std::sync::Arc;

/// By how much the number of items that mention a user grew.
#[derive(Clone, Copy, Debug, PartialEq, Eq)]
pub struct SaidRow {
    /// Who was mentioned.
    pub user: User,
    /// How many items more, at least 1.
    pub number: u64,
}

/// A new first use of a tag.
#[derive(Clone, Copy, Debug, PartialEq, Eq)]
pub struct UseRow {
    /// Who used the tag.
    pub user: User,
    /// The tag, and the place of the first use.
    pub entry: Use,
}

/// Pairs.
pub(crate) type Pairs = ListOf<Pair>;

/// What changed of the halves on one side: those added for the first time, those present now and not before, and those
/// present before and not now.
#[derive(Drop)]
pub(crate) struct HalfChanges {
    pub(crate) added: Pairs,
    pub(crate) present: Pairs,
    pub(crate) gone: Pairs,
}

/// What differs between two versions of one partition's part.
#[derive(Drop)]
pub(crate) struct Lists {
    pub(crate) out: HalfChanges,
    pub(crate) inn: HalfChanges,
    pub(crate) mention_out: Pairs,
    pub(crate) mention_in: Pairs,
    pub(crate) said: ListOf<SaidRow>,
    pub(crate) uses: ListOf<UseRow>,
    pub(crate) tag_users: ListOf<TagUser>,
}

impl Model for Lists {
    ghost use Rattle.kin_graph.specs.Deltas.{DeltaLists};

    ghost Value = { DeltaLists };

    ghost view = { λ a. record {
      new_out = a.out.added;
      new_in = a.inn.added;
      now_out = a.out.present;
      now_in = a.inn.present;
      gone_out = a.out.gone;
      gone_in = a.inn.gone;
      mention_out = a.mention_out;
      mention_in = a.mention_in;
      said = a.said;
      uses = a.uses;
      tag_users = a.tag_users;
    } };
}

/// What differs between two versions of one partition's part, as lists without a stated order, each member once. Equal
/// ones share their lists; one that tells nothing has none.
#[derive(Drop)]
pub struct Delta {
    lists: Option<Arc<Lists, Global>>,
}

impl Model for Delta {
    ghost use Rattle.kin_graph.specs.Deltas.{DeltaLists, lists_of};

    ghost Value = { DeltaLists };

    ghost view = { λ a. lists_of a.lists };
}

impl Delta {
    /// Nothing changed. It takes no memory.
    pub fn new() -> Delta
        ensures { result ≡ no_change }
    {
        Delta { lists: None }
    }

    // What these lists tell. Where they tell nothing it takes no memory.
    pub(crate) fn of(alloc: Global, lists: Lists) -> Result<Delta, Memory>
        ensures { IfOk result (λ d. d ≡ lists) }
    {
        if lists.is_empty() {
            return Ok(Delta::new());
        }
        let lists = Some(Arc::new(alloc, lists)?);
        Ok(Delta { lists })
    }

    /// An equal one. O(1).
    pub fn share(&self) -> Result<Delta, Memory>
        ensures { IfOk result (λ d. d ≡ self.now) }
    {
        let lists = match &self.lists {
            Some(lists) => Some(lists.clone()?),
            None => None,
        };
        Ok(Delta { lists })
    }

    /// The follow halves out of users that were added for the first time.
    pub fn new_out(&self) -> &[Pair]
        ensures { result.now ≡ self.now.new_out }
    {
        match &self.lists {
            Some(lists) => lists.out.added.as_slice(),
            None => &[],
        }
    }

    /// The follow halves into users that were added for the first time.
    pub fn new_in(&self) -> &[Pair]
        ensures { result.now ≡ self.now.new_in }
    {
        match &self.lists {
            Some(lists) => lists.inn.added.as_slice(),
            None => &[],
        }
    }

    /// The follow halves out of users that are present at the end and weren't at the beginning.
    pub fn now_out(&self) -> &[Pair]
        ensures { result.now ≡ self.now.now_out }
    {
        match &self.lists {
            Some(lists) => lists.out.present.as_slice(),
            None => &[],
        }
    }

    /// The follow halves into users that are present at the end and weren't at the beginning.
    pub fn now_in(&self) -> &[Pair]
        ensures { result.now ≡ self.now.now_in }
    {
        match &self.lists {
            Some(lists) => lists.inn.present.as_slice(),
            None => &[],
        }
    }

    /// The follow halves out of users that were present at the beginning and aren't at the end.
    pub fn gone_out(&self) -> &[Pair]
        ensures { result.now ≡ self.now.gone_out }
    {
        match &self.lists {
            Some(lists) => lists.out.gone.as_slice(),
            None => &[],
        }
    }

    /// The follow halves into users that were present at the beginning and aren't at the end.
    pub fn gone_in(&self) -> &[Pair]
        ensures { result.now ≡ self.now.gone_in }
    {
        match &self.lists {
            Some(lists) => lists.inn.gone.as_slice(),
            None => &[],
        }
    }

    /// Users with those whom they mention for the first time.
    pub fn mention_out(&self) -> &[Pair]
        ensures { result.now ≡ self.now.mention_out }
    {
        match &self.lists {
            Some(lists) => lists.mention_out.as_slice(),
            None => &[],
        }
    }

    /// Users with those who mention them for the first time.
    pub fn mention_in(&self) -> &[Pair]
        ensures { result.now ≡ self.now.mention_in }
    {
        match &self.lists {
            Some(lists) => lists.mention_in.as_slice(),
            None => &[],
        }
    }

    /// By how much the numbers of items that mention users grew; a user whose number didn't grow has no row.
    pub fn said(&self) -> &[SaidRow]
        ensures { result.now ≡ self.now.said }
    {
        match &self.lists {
            Some(lists) => lists.said.as_slice(),
            None => &[],
        }
    }

    /// The new first uses of tags.
    pub fn uses(&self) -> &[UseRow]
        ensures { result.now ≡ self.now.uses }
    {
        match &self.lists {
            Some(lists) => lists.uses.as_slice(),
            None => &[],
        }
    }

    /// The new users of tags.
    pub fn tag_users(&self) -> &[TagUser]
        ensures { result.now ≡ self.now.tag_users }
    {
        match &self.lists {
            Some(lists) => lists.tag_users.as_slice(),
            None => &[],
        }
    }
}

impl HalfChanges {
    // Nothing changed.
    pub(crate) fn none(alloc: Global) -> HalfChanges
        ensures { (result.added ≡ []) × (result.present ≡ []) × (result.gone ≡ []) }
    {
        HalfChanges {
            added: ListOf::new(alloc),
            present: ListOf::new(alloc),
            gone: ListOf::new(alloc),
        }
    }

    fn is_empty(&self) -> bool
        ensures { OnTrue result ((self.now.added ≡ []) × (self.now.present ≡ []) × (self.now.gone ≡ [])) }
    {
        self.added.as_slice().is_empty()
            && self.present.as_slice().is_empty()
            && self.gone.as_slice().is_empty()
    }
}

impl Lists {
    // Whether they tell nothing.
    fn is_empty(&self) -> bool
        ensures { OnTrue result (self.now ≡ no_change) }
    {
        self.out.is_empty()
            && self.inn.is_empty()
            && self.mention_out.as_slice().is_empty()
            && self.mention_in.as_slice().is_empty()
            && self.said.as_slice().is_empty()
            && self.uses.as_slice().is_empty()
            && self.tag_users.as_slice().is_empty()
    }
}
