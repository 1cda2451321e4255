//! The progress table.

ghost use Rattle.std.specs.Prelude.{◌≡◌, ◌≤◌, ◌<◌, ◌⊎◌, ◌↔◌, ◌++◌, ◌∷◌, [], ℕ, true, Some, None, IfOk, IfSome, IsErr, IsErrOf, IsNone, MatchOption, OnErr, OnOk, length, not, position};

use crate::answers::{CutRefused, IncarnationsSpent, Raised};
use crate::cuts::Cut;
use crate::ends::{ends_of, positions};
use crate::rounds::fair;
use crate::rows::Row;
use crate::vectors::Vectors;
use kin_ids::{End, Epoch, Inc, IngestId, Memory, PartId, StampList};
use std::alloc::Global;
use std::marker::Model;

/// Each partition's last report, each node's incarnation and agreed position, and the cuts.
#[derive(Debug, Drop)]
pub struct Table {
    alloc: Global,
    rows: Vec<Row>,
    incs: Vec<Inc>,
    agreed: Vec<u64>,
    vectors: Vectors,
}

impl Model for Table {
    ghost use Rattle.kin_table.specs.Tables.{TableView, IsTable};

    ghost Value = { TableView };

    ghost view = { λ t. record { rows = t.rows.items; incs = t.incs.items; agreed = t.agreed.items; vectors = t.vectors } };

    ghost invariant = { λ t. IsTable (record { rows = t.rows.items; incs = t.incs.items; agreed = t.agreed.items; vectors = t.vectors }) };
}

impl Table {
    ghost use Rattle.kin_table.specs.Tables.{IsTable, first_table, reach_of, agreed_of, inc_of, missing_of, cuts_of, last_of, with_row, with_agreed, with_vector, raised_of, base_of, sealed_of};
    ghost use Rattle.kin_table.specs.Vectors.{vector_at};
    ghost use Rattle.kin_table.specs.Lists.{IsVector};
    ghost use Rattle.kin_table.specs.Cuts.{IsNextCut, next_position};

    /// Nothing reported, nothing agreed, no cut.
    pub fn new(alloc: Global, nodes: u16, parts: u16) -> Result<Table, Memory>
        requires nodes { 0 < nodes }
        requires parts { 0 < parts }
        ensures value { IfOk result (λ t. t ≡ first_table nodes parts) }
        ensures table { IfOk result IsTable }
    {
        let mut rows = Vec::with_capacity(alloc, usize::from(parts))?;
        for _part in 0..parts {
            rows.push(Row::new(alloc, nodes)?)?;
        }
        let count = usize::from(nodes);
        Ok(Table {
            alloc,
            rows,
            incs: vec![in alloc; Inc(0); count]?,
            agreed: vec![in alloc; 0; count]?,
            vectors: Vectors::new(alloc, nodes)?,
        })
    }

    /// Writes a partition's row anew: of each node the incarnation that it keeps, and its top. It costs O(n) in the nodes.
    pub fn report(&mut self, p: PartId, incs: &[Inc], tops: &[u64])
        requires part { p.0 < length self.old.rows }
        requires incs { length incs.now ≡ length self.old.agreed }
        requires tops { length tops.now ≡ length self.old.agreed }
        ensures row { self.new
            ≡ with_row self.old p.0 (record { reported = true; incs = incs.now; tops = tops.now }) }
        ensures table { IsTable self.new }
    {
        let row = &mut self.rows[usize::from(p.0)];
        row.report(incs, tops);
    }

    /// Up to where partition `p` has node `i`, as far as the table knows. It costs O(1).
    pub fn reach(&self, p: PartId, i: IngestId) -> u64
        requires part { p.0 < length self.now.rows }
        requires node { i.0 < length self.now.agreed }
        ensures { result ≡ reach_of self.now p.0 i.0 }
    {
        let at = usize::from(i.0);
        let row = &self.rows[usize::from(p.0)];
        row.top(i, self.incs[at]).unwrap_or(self.agreed[at])
    }

    /// Up to where every partition has node `i`, as last raised. It costs O(1).
    pub fn agreed(&self, i: IngestId) -> u64
        requires { i.0 < length self.now.agreed }
        ensures { result ≡ agreed_of self.now i.0 }
    {
        self.agreed[usize::from(i.0)]
    }

    /// The incarnation of node `i`. It costs O(1).
    pub fn inc(&self, i: IngestId) -> Inc
        requires { i.0 < length self.now.agreed }
        ensures { result.0 ≡ inc_of self.now i.0 }
    {
        self.incs[usize::from(i.0)]
    }

    /// Raises the agreed position of node `i`. It costs O(1).
    pub fn raise(&mut self, i: IngestId, ready: u64) -> Raised
        requires node { i.0 < length self.old.agreed }
        requires at_least { agreed_of self.old i.0 ≤ ready }
        requires at_most { (p : ℕ) → p < length self.old.rows
            → ready ≤ reach_of self.old p i.0 }
        ensures answer { result ≡ raised_of (agreed_of self.old i.0) ready }
        ensures agreed { self.new ≡ with_agreed self.old i.0 ready }
        ensures table { IsTable self.new }
    {
        let at = usize::from(i.0);
        let was = self.agreed[at];
        self.agreed[at] = ready;
        if was < ready {
            Raised::Raised(ready)
        } else {
            Raised::Level(was)
        }
    }

    /// Ends the incarnation of node `i` at the agreed position, where the next one begins. It costs O(1).
    pub fn seal(&mut self, i: IngestId) -> Result<End, IncarnationsSpent>
        requires { i.0 < length self.old.agreed }
        ensures spent { IsErr result ↔ (inc_of self.old i.0 ≡ u16.MAX) }
        ensures err { OnErr result (self.new ≡ self.old) }
        ensures base { IfOk result (λ end. end ≡ base_of self.old i.0) }
        ensures sealed { OnOk result (self.new ≡ sealed_of self.old i.0) }
        ensures table { IsTable self.new }
    {
        let at = usize::from(i.0);
        let inc = self.incs[at];
        if inc.0 == u16::MAX {
            return Err(IncarnationsSpent);
        }
        let end = End {
            inc: Inc(inc.0 + 1),
            to: self.agreed[at],
        };
        self.incs[at] = end.inc;
        Ok(end)
    }

    /// The least partition that never reported. It costs O(p) in the partitions.
    pub fn missing(&self) -> Option<PartId>
        ensures missing { MatchOption result (missing_of self.now ≡ None)
            (λ p. missing_of self.now ≡ Some p.0) }
        ensures table { IsTable self.now }
    {
        let at = self.unreported()?;
        Some(PartId(at as u16))
    }

    fn unreported(&self) -> Option<usize>
        ensures place { result ≡ position (λ row. not row.reported) self.now.rows }
        ensures table { IsTable self.now }
    {
        self.rows.iter().position(|row| !row.is_reported())
    }

    /// Cuts the next epoch: at the agreed positions, or with a number by the fair cut from the last vector on. `lists` has of
    /// each node the agreed stamps past the last vector. It costs O(m) in the partitions, the nodes and the stamps that it
    /// takes.
    pub fn cut(&mut self, n: Option<u64>, lists: &[StampList]) -> Result<Cut, CutRefused>
        requires lists { length lists.now ≡ length self.old.agreed }
        requires room { cuts_of self.old < u32.MAX }
        ensures not_reported { (p : PartId)
            → IsErrOf result (CutRefused.NotReported p) ↔ (missing_of self.old ≡ Some p.0) }
        ensures err { OnErr result (self.new ≡ self.old) }
        ensures cut { IfOk result (IsNextCut self.old n lists.now) }
        ensures appended { IfOk result (λ cut. self.new ≡ with_vector self.old cut.ends) }
        ensures table { IsTable self.new }
    {
        if let Some(part) = self.missing() {
            return Err(CutRefused::NotReported(part));
        }
        Ok(self.append(n, lists)?)
    }

    // Cuts the next epoch.
    fn append(&mut self, n: Option<u64>, lists: &[StampList]) -> Result<Cut, Memory>
        requires lists { length lists.now ≡ length self.old.agreed }
        requires room { cuts_of self.old < u32.MAX }
        ensures err { OnErr result (self.new ≡ self.old) }
        ensures cut { IfOk result (IsNextCut self.old n lists.now) }
        ensures appended { IfOk result (λ cut. self.new ≡ with_vector self.old cut.ends) }
        ensures table { IsTable self.new }
    {
        let cut = self.next_cut(n, lists)?;
        self.vectors.push(cut.copy(self.alloc)?)?;
        Ok(cut)
    }

    fn next_cut(&self, n: Option<u64>, lists: &[StampList]) -> Result<Cut, Memory>
        requires lists { length lists.now ≡ length self.now.agreed }
        requires room { cuts_of self.now < u32.MAX }
        ensures { IfOk result (IsNextCut self.now n lists.now) }
    {
        let last = self.vectors.last();
        let vector = self.next_vector(n, lists)?;
        Ok(Cut {
            epoch: Epoch(self.vectors.count() as u32),
            ends: ends_of(self.alloc, last, lists, &vector)?,
        })
    }

    fn next_vector(&self, n: Option<u64>, lists: &[StampList]) -> Result<Vec<u64>, Memory>
        requires { length lists.now ≡ length self.now.agreed }
        ensures { IfOk result (λ v. IsVector (length self.now.agreed)
            (next_position self.now n lists.now) v.items) }
    {
        match n {
            None => Ok(Vec::from_slice(self.alloc, &self.agreed)?),
            Some(n) => {
                let prev = positions(self.alloc, self.vectors.last())?;
                fair(self.alloc, &prev, lists, n)
            }
        }
    }

    /// How many epochs are cut. It costs O(1).
    pub fn cuts(&self) -> u64
        ensures { result ≡ cuts_of self.now }
    {
        self.vectors.count() as u64 - 1
    }

    /// The cut of an epoch, from epoch 1 on. It costs O(1).
    pub fn cut_of(&self, k: Epoch) -> Option<&Cut>
        ensures none { IsNone result ↔ ((k.0 ≡ 0) ⊎ (cuts_of self.now < k.0)) }
        ensures cut { IfSome result (λ cut. cut.now
            ≡ record { epoch = k; ends = vector_at self.now.vectors k.0 }) }
    {
        if k.0 == 0 {
            return None;
        }
        self.vectors.get(k)
    }

    /// The position of node `i` in the last vector, 0 at first. It costs O(1).
    pub fn last(&self, i: IngestId) -> u64
        requires { i.0 < length self.now.agreed }
        ensures { result ≡ (last_of self.now i.0).to }
    {
        self.vectors.last()[usize::from(i.0)].to
    }
}
