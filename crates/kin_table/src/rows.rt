//! A partition's row.

ghost use Rattle.std.specs.Prelude.{◌≡◌, ◌<◌, IfOk, true, length};

use kin_ids::{Inc, IngestId, Memory};
use std::alloc::Global;
use std::marker::Model;

/// What a partition reported last: the incarnation and the top of each node.
#[derive(Debug, Drop)]
pub(crate) struct Row {
    reported: bool,
    incs: Vec<Inc>,
    tops: Vec<u64>,
}

impl Model for Row {
    ghost use Rattle.kin_table.specs.Tables.{RowView};

    ghost Value = { RowView };

    ghost view = { λ r. record { reported = r.reported; incs = r.incs.items; tops = r.tops.items } };
}

impl Row {
    ghost use Rattle.kin_table.specs.Tables.{no_report, top_in};

    /// The row of a partition that didn't report yet.
    pub fn new(alloc: Global, nodes: u16) -> Result<Row, Memory>
        ensures { IfOk result (λ row. row ≡ no_report nodes) }
    {
        let count = usize::from(nodes);
        Ok(Row {
            reported: false,
            incs: vec![in alloc; Inc(0); count]?,
            tops: vec![in alloc; 0; count]?,
        })
    }

    /// Whether the partition reported.
    pub fn is_reported(&self) -> bool
        ensures { result ≡ self.now.reported }
    {
        self.reported
    }

    /// The top of a node under this incarnation, where the partition reported that one.
    pub fn top(&self, i: IngestId, inc: Inc) -> Option<u64>
        requires incs { i.0 < length self.now.incs }
        requires tops { i.0 < length self.now.tops }
        ensures { result ≡ top_in self.now i.0 inc.0 }
    {
        let at = usize::from(i.0);
        if self.reported && self.incs[at] == inc {
            Some(self.tops[at])
        } else {
            None
        }
    }

    /// Writes the row anew.
    pub fn report(&mut self, incs: &[Inc], tops: &[u64])
        requires incs { length incs.now ≡ length self.old.incs }
        requires tops { length tops.now ≡ length self.old.tops }
        ensures { self.new ≡ record { reported = true; incs = incs.now; tops = tops.now } }
    {
        self.incs.as_mut_slice().copy_from_slice(incs);
        self.tops.as_mut_slice().copy_from_slice(tops);
        self.reported = true;
    }
}
