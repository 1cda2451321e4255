//! Laws of histories, each the contract of a function that does nothing. They hold for every list of events in range, over
//! any feeds and one partition or more.

ghost use Rattle.kin_history.specs.Laws.{WholeLineLaw, BaseLaw, AgreedLaw, AckLaw, WholeLaw, KeptLaw, LastingLaw, CutBackLaw, LossLaw, BasesStayLaw};
ghost use Rattle.kin_history.specs.CutLaws.{VectorLaw, KeepLaw, KeepLaterLaw, SealedLaw, NeverWithinLaw};
ghost use Rattle.kin_history.specs.OrderLaws.{OfLinesLaw, SettledLaw};
ghost use Rattle.kin_history.specs.MiningLaws.{MiningLaw, DrainLaw, DrainedLaw};
ghost use Rattle.kin_history.specs.RefusalLaws.{RefusedLaw};
ghost use Rattle.kin_history.specs.AnswerLaws.{StampLaw, NotSentLaw, DeliverLaw, ReportLaw, RaiseLaw, CutLaw, CommitLaw, BeginLaw, MineLaw, TurnLaw, CrashLaw, RestartLaw};
ghost use Rattle.kin_history.specs.FrameLaws.{OtherNodesLaw, OtherPartsLaw, RaisesOneLaw, TopLaw};

/// What is agreed of a node: where it lies, that every partition has acknowledged, received and reported all up to it, and
/// that it never falls, nor what it covers changes.
pub fn agreement_laws()
    ensures placed { AgreedLaw }
    ensures acknowledged { AckLaw }
    ensures delivered { WholeLaw }
    ensures kept { KeptLaw }
    ensures lasting { LastingLaw }
{}

/// What stays of a node's line over crashes and restarts.
pub fn restart_laws()
    ensures lines { WholeLineLaw }
    ensures bases { BaseLaw }
    ensures cut_back { CutBackLaw }
    ensures lost { LossLaw }
    ensures bases_stay { BasesStayLaw }
{}

/// The vectors of the cuts: they never fall, and neither they nor what lies within them ever change. Nothing past the seal
/// of an ended incarnation lies within one.
pub fn vector_laws()
    ensures rising { VectorLaw }
    ensures kept { KeepLaw }
    ensures kept_later { KeepLaterLaw }
    ensures sealed { SealedLaw }
    ensures never_within { NeverWithinLaw }
{}

/// The agreed order of the cut epochs has exactly the records of the surviving transactions within the vectors, each once,
/// and no later event changes it.
pub fn order_laws()
    ensures of_lines { OfLinesLaw }
    ensures settled { SettledLaw }
{}

/// Commits and mining: no epoch is mined that isn't cut and committed by every partition. What is left when a schedule has
/// ended, event by event, commits and mines every cut epoch.
pub fn mining_laws()
    ensures in_order { MiningLaw }
    ensures drain { DrainLaw }
    ensures drained { DrainedLaw }
{}

/// A refused event changes nothing.
pub fn refusal_laws()
    ensures { RefusedLaw }
{}

/// What nodes' events answer: each answer, and each refusal, exactly where its cause holds.
pub fn node_answers()
    ensures stamp { StampLaw }
    ensures raise { RaiseLaw }
    ensures crash { CrashLaw }
    ensures restart { RestartLaw }
{}

/// What the events of partitions answer.
pub fn part_answers()
    ensures not_sent { NotSentLaw }
    ensures deliver { DeliverLaw }
    ensures report { ReportLaw }
    ensures commit { CommitLaw }
{}

/// What cuts and mining answer.
pub fn epoch_answers()
    ensures cut { CutLaw }
    ensures begin { BeginLaw }
    ensures turn { TurnLaw }
    ensures mine { MineLaw }
{}

/// An event leaves what other nodes and other partitions have, and a raise raises one node. Tops are what arrived.
pub fn frame_laws()
    ensures nodes { OtherNodesLaw }
    ensures parts { OtherPartsLaw }
    ensures raise { RaisesOneLaw }
    ensures top { TopLaw }
{}
