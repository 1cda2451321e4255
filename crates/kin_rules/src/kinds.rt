//! Kinds of edges.

/// A kind of edge: a follow edge that was ever added, or a mention edge.
#[derive(Clone, Copy, Debug, PartialEq, Eq)]
pub enum EdgeKind {
    Follow,
    Mention,
}
