//! What a miner begins an epoch with: all memory that it takes.

use crate::walkers::Walkers;
use kin_counts::CountPlan;
use kin_ids::User;
use kin_scores::ScorePlan;

/// The counts' part; marks and room for as many users as the next epoch has, where users are new; the starts of new
/// edges for hops and for closeness; and the part of ranks and exposures.
#[derive(Drop)]
pub(crate) struct Plan {
    pub(crate) counts: CountPlan,
    pub(crate) fresh: Option<Walkers>,
    pub(crate) hop_starts: Vec<User>,
    pub(crate) close_starts: Vec<User>,
    pub(crate) scores: ScorePlan,
}
