//! Pieces that follow each other, lent by whoever holds them.

ghost use Rattle.std.specs.Prelude.{◌≡◌};

use kin_ids::Piece;
use std::marker::Model;

/// Pieces that follow each other, in a node's chain for one.
#[derive(Drop)]
pub struct Run<'a> {
    pieces: &'a [Piece],
}

impl<'a> Model for Run<'a> {
    ghost use Rattle.std.specs.Prelude.{List};
    ghost use Rattle.kin_ids.specs.declared.ops.Piece.{Piece};

    ghost Value = { List Piece };

    ghost view = { λ r. r.pieces.now };
}

impl<'a> Run<'a> {
    /// These pieces.
    pub fn of(pieces: &'a [Piece]) -> Run<'a>
        ensures { result ≡ pieces.now }
    {
        Run { pieces }
    }

    /// The pieces.
    pub fn pieces(&self) -> &'a [Piece]
        ensures { result.now ≡ self.now }
    {
        self.pieces
    }
}
