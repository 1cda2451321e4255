//! The entries of all users, in one list.

ghost use Rattle.std.specs.Prelude.{◌≡◌, IfOk};
ghost use Rattle.std.specs.List.{flat_map};

use kin_ids::Memory;
use kin_rules::{UseK, UseKs};
use std::alloc::Global;

/// The entries of these rows, one row after the other.
pub(crate) fn entries_of(alloc: Global, rows: &[UseKs]) -> Result<Vec<UseK>, Memory>
    ensures { IfOk result (λ entries. entries.items ≡ flat_map (λ row. row) rows.now) }
{
    let mut entries = Vec::new(alloc);
    for row in rows {
        entries.extend_from_slice(row.as_slice())?;
    }
    Ok(entries)
}
