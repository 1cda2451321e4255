//! What an epoch begins with.

ghost use Rattle.std.specs.Prelude.{◌≡◌, true, IfOk};
ghost use Rattle.std.specs.List.Sorted.{IsStrictlySortedBy};
ghost use Rattle.kin_ids.specs.declared.ids.User.{User};
ghost use Rattle.kin_ids.specs.Users.{has_user, tag_cmp, user_cmp};
ghost use Rattle.kin_rules.specs.declared.pull_rules.Side.{Side};
ghost use Rattle.kin_pull.specs.Begins.{is_rewired, is_touched};
ghost use Rattle.kin_scores.specs.Plans.{HasBegun, IsPlanOf};
ghost use Rattle.kin_scores.specs.Scores.{AreKept};

use crate::entries::entries_of;
use crate::scores::Scores;
use kin_graph::Delta;
use kin_ids::{ListOf, Memory, Tag, User};
use kin_pull::Kept;
use kin_rules::exposure_rules::Exposure;
use kin_rules::rank_rules::Rank;
use kin_rules::{KCount, UseKs, tally};

/// All memory that the beginning of an epoch takes: what is kept then, and the exposures that its entries make.
#[derive(Drop)]
pub struct ScorePlan {
    pub(crate) ranks: Kept<u64>,
    pub(crate) expos: Kept<UseKs>,
    pub(crate) lists: Vec<ListOf<KCount>>,
}

impl Scores {
    /// What is kept where the epoch of these deltas begins, over the users and the tags that it has then, where these
    /// users are those of the epoch before. It changes nothing. It costs a look-up and a copy of each user's facts,
    /// layers and entries.
    pub fn plan(
        &self,
        users: &[User],
        more: &[User],
        tags: &[Tag],
        deltas: &[Delta],
    ) -> Result<ScorePlan, Memory>
        requires kept { AreKept users.now self.now }
        requires ascend { IsStrictlySortedBy user_cmp more.now }
        requires tags { IsStrictlySortedBy tag_cmp tags.now }
        requires all { (u : User) → has_user users.now u ≡ true → has_user more.now u ≡ true }
        requires touched { (u : User) → is_touched deltas.now u ≡ true → has_user more.now u ≡ true }
        requires rewired { (s : Side) (u : User) → is_rewired s deltas.now u ≡ true → has_user more.now u ≡ true }
        ensures plan { IfOk result (IsPlanOf more.now tags.now) }
        ensures begun { IfOk result (HasBegun deltas.now users.now self.now more.now) }
    {
        let ranks = kin_pull::plan(self.alloc, &Rank, users, &self.ranks, more, deltas)?;
        let expos = kin_pull::plan(self.alloc, &Exposure, users, &self.expos, more, deltas)?;
        let entries = entries_of(self.alloc, expos.row(1))?;
        Ok(ScorePlan {
            ranks,
            expos,
            lists: tally(self.alloc, tags, entries.as_slice())?,
        })
    }
}
