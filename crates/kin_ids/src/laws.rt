//! Laws of the definitions, each the contract of a function that does nothing.

ghost use Rattle.kin_ids.specs.Fair as fair;
ghost use Rattle.kin_ids.specs.Rounds.{RowsLaw};
ghost use Rattle.kin_ids.specs.Follows as follows;
ghost use Rattle.kin_ids.specs.Records as records;
ghost use Rattle.kin_ids.specs.Tweets.{TweetLaw};
ghost use Rattle.kin_ids.specs.Vertices as vertices;
ghost use Rattle.kin_ids.specs.PartLaws as parts;
ghost use Rattle.kin_ids.specs.Texts as texts;

/// Reading undoes writing.
pub fn text_laws()
    ensures numbers { texts.NumberLaw }
    ensures users { texts.UserLaw }
{}

/// In turn stand exactly the pending transactions of all nodes, by number and then by node, and row by row is that order.
/// A cut with a number takes the shortest front that has enough records: at most 15 more, and of two nodes as many, but
/// for one, unless it takes all of the lesser.
pub fn fair_laws()
    ensures in_turn { fair.InTurnLaw }
    ensures only { fair.OnlyInTurnLaw }
    ensures rows { RowsLaw }
    ensures shortest { fair.ShortestLaw }
    ensures few { fair.FewLaw }
    ensures even { fair.EvenLaw }
{}

/// The last follow or unfollow of an edge decides whether it is present, and the first follow where it was added.
/// Each edge, mention and first use stands once in a graph and in the lists of its users, edges by ascending place.
pub fn edge_laws()
    ensures edges { follows.EdgeLaw }
    ensures later { follows.ContinueLaw }
    ensures sound { follows.SoundLaw }
    ensures ascend { follows.AscendLaw }
    ensures lists { follows.ListsLaw }
    ensures halves { follows.HalvesLaw }
{}

/// Items of tweets make the mention edges, the numbers of mentions and the first uses of tags.
pub fn tweet_laws()
    ensures tweets { TweetLaw }
{}

/// The lists of vertices and of tags in use have exactly those, each once, and few records make few vertices.
pub fn vertex_laws()
    ensures vertices { vertices.VertexLaw }
    ensures tags { vertices.TagLaw }
    ensures few { vertices.FewVerticesLaw }
{}

/// The agreed order has each record once, in the epoch that brings it, by ascending place. The transactions of a line have
/// the records between its ends, and those within a vector are its front up to the position.
pub fn order_laws()
    ensures order { records.OrderLaw }
    ensures line { records.BetweenEndsLaw }
    ensures within { records.WithinLaw }
{}

/// The operations of a partition take its part of any graph to its part of the graph after their records. So all pieces
/// of a transaction, applied to the parts of a graph, give the parts of the graph after it.
pub fn part_laws()
    ensures empty { parts.EmptyLaw }
    ensures one_record { parts.RecordLaw }
    ensures part { parts.PartLaw }
    ensures pieces { parts.PiecesLaw }
{}
