//! Pieces of one record each, delivered to one chain.

ghost use Rattle.std.specs.Prelude.{◌≡◌, ◌<◌, length, OnOk};

use kin_held::Held;
use kin_ids::{Inc, IngestId, Memory, Ops, PartId, Piece, Stamp};
use std::alloc::Global;

fn deliver(alloc: Global, held: &mut Held, from: u64) -> Result<(), Memory>
    requires nodes { length held.old ≡ 1 }
    requires fits { from < u64.MAX }
    ensures { OnOk result (length held.new ≡ 1) }
{
    let stamp = Stamp {
        ingest: IngestId(0),
        inc: Inc(0),
        from,
        to: from + 1,
    };
    held.take(Piece {
        stamp,
        base: 0,
        part: PartId(0),
        ops: Ops::new(alloc),
    })?;
    Ok(())
}

/// As many pieces in order.
pub fn forward(alloc: Global, n: u64) -> Result<(), Memory> {
    let mut held = Held::new(alloc, 1)?;
    for from in 0..n {
        deliver(alloc, &mut held, from)?;
    }
    Ok(())
}

/// As many pieces, the last one first.
pub fn reverse(alloc: Global, n: u64) -> Result<(), Memory> {
    let mut held = Held::new(alloc, 1)?;
    for left in 0..n {
        deliver(alloc, &mut held, n - 1 - left)?;
    }
    Ok(())
}
