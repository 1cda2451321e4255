//! What is kept of users at their places.

ghost use Rattle.std.specs.Prelude.{◌≡◌, ◌<◌, ◌≤◌, ◌+◌, ◌^◌, ◌==◌, ◌&&◌, ◌||◌, All, slice_set, if◌then◌else◌, ℕ, List};
ghost use Rattle.std.specs.Prelude.{[], Option, Some};
ghost use Rattle.std.specs.Prelude.{None, true, false, is_some, unwrap_or, length, map, slice_index_or, IfOk, IfSome};
ghost use Rattle.kin_rules.specs.declared.pull_rules.Facts.{Facts};
ghost use Rattle.kin_pull.specs.Passes.{IsTaken};
ghost use Rattle.kin_rules.specs.Going.{has_place};
ghost use Rattle.kin_pull.specs.States.{IsKept, IsQuiet, busy_at, is_from, row_in, row_of};
ghost use Rattle.kin_pull.specs.TurnSteps.{IsTurnedOver};

use kin_ids::Memory;
use kin_rules::Facts;
use std::alloc::Global;
use std::marker::Model;
use std::mem::swap;

/// For each user at its place its value in each layer above layer 0, the facts of now, the facts that it told last
/// where it has yet to tell those of now, and the least layer at which it is active.
#[derive(Drop)]
pub struct Kept<V: Drop> {
    rows: Vec<Vec<V>>,
    facts: Vec<Facts>,
    told: Vec<Option<Facts>>,
    low: Vec<Option<u32>>,
    mixed: bool,
}

impl<V: Drop> Model for Kept<V> {
    ghost use Rattle.std.specs.Prelude.{map};
    ghost use Rattle.kin_pull.specs.States.{KeptView};

    ghost Value = { KeptView V };

    ghost view = { λ a. record {
      rows = map (λ r. r.items) a.rows.items;
      facts = a.facts.items;
      told = a.told.items;
      low = a.low.items;
      mixed = a.mixed;
    } };
}

impl<V: Drop> Kept<V> {
    /// These rows and lists, where no turn was made.
    pub(crate) fn of(
        rows: Vec<Vec<V>>,
        facts: Vec<Facts>,
        told: Vec<Option<Facts>>,
        low: Vec<Option<u32>>,
    ) -> Kept<V>
        ensures { result ≡ record {
          rows = map
              (λ r. r.items) rows.items;
          facts = facts.items;
          told = told.items;
          low = low.items;
          mixed = false;
        } }
    {
        Kept {
            rows,
            facts,
            told,
            low,
            mixed: false,
        }
    }

    /// What is kept of nobody, with so many layers above layer 0.
    pub fn nobody(alloc: Global, layers: u32) -> Result<Kept<V>, Memory>
        ensures kept { IfOk result (λ k. IsKept layers [] k) }
        ensures quiet { IfOk result (λ k. IsQuiet [] k) }
    {
        Ok(Kept {
            rows: no_rows(alloc, layers)?,
            facts: Vec::new(alloc),
            told: Vec::new(alloc),
            low: Vec::new(alloc),
            mixed: false,
        })
    }

    /// The values of the users in a layer above layer 0, with nothing where there is no such layer. O(1).
    pub fn row(&self, layer: u32) -> &[V]
        ensures { result.now ≡ row_in self.now layer }
    {
        row_of(self.rows.as_slice(), layer)
    }

    /// The facts of now. O(1).
    pub(crate) fn facts(&self) -> &[Facts]
        ensures { result.now ≡ self.now.facts }
    {
        self.facts.as_slice()
    }

    /// The facts that were told last, of those who have yet to tell those of now. O(1).
    pub(crate) fn told(&self) -> &[Option<Facts>]
        ensures { result.now ≡ self.now.told }
    {
        self.told.as_slice()
    }

    /// The least layers at which users are active. O(1).
    pub(crate) fn low(&self) -> &[Option<u32>]
        ensures { result.now ≡ self.now.low }
    {
        self.low.as_slice()
    }

    /// Whether turns were made since the epoch began. O(1).
    pub(crate) fn is_mixed(&self) -> bool
        ensures { result ≡ self.now.mixed }
    {
        self.mixed
    }

    /// The facts that the user at a place told last. O(1).
    pub(crate) fn told_facts(&self, i: usize) -> &Facts
        requires told { i < length self.now.told }
        requires facts { i < length self.now.facts }
        ensures { (df : Facts) → result.now
            ≡ unwrap_or (slice_index_or self.now.told i None) (slice_index_or self.now.facts i df) }
    {
        match &self.told[i] {
            Some(facts) => facts,
            None => &self.facts[i],
        }
    }

    /// The value of the user at a place in a layer. O(1).
    pub(crate) fn value<'a>(&'a self, first: &'a V, layer: u32, i: usize) -> &'a V
        ensures { result.now ≡ slice_index_or (row_in self.now layer) i first.now }
    {
        match self.row(layer).get(i) {
            Some(value) => value,
            None => first,
        }
    }

    /// The first place of somebody who is active. O(n).
    pub(crate) fn first_active(&self) -> Option<usize>
        requires { length self.now.low ≡ length self.now.told }
        ensures some { IfSome result (λ i. (i < length self.now.low) × (busy_at self.now i ≡ true) × ((j : ℕ) → j < i
            → busy_at self.now j ≡ false)) }
        ensures none { result ≡ None → (j : ℕ) → busy_at self.now j ≡ false }
    {
        first_busy(self.low.as_slice(), self.told.as_slice())
    }

    /// Takes a draft over: its values stand over the kept ones, everybody has told, and nobody is active. It takes no
    /// memory. O(n) for each layer.
    pub(crate) fn take_over(&mut self, mut draft: Vec<Vec<Option<V>>>)
        requires layers { length draft.items ≤ length self.old.rows }
        requires long { (j : ℕ) → length (slice_index_or (map (λ r. r.items) draft.items) j []) ≤ length
            (slice_index_or self.old.rows j []) }
        ensures { IsTaken (map (λ r. r.items) draft.items) self.old self.new }
    {
        pour_all(&mut self.rows, &mut draft);
        wipe(&mut self.told);
        wipe(&mut self.low);
        self.mixed = false;
    }
}

impl<V: Drop> Kept<V> {
    /// The user at a place made a turn: it has this column, is active no longer and has told its facts, and those at
    /// these places are active from a layer on. It takes no memory.
    pub(crate) fn turn_over(
        &mut self,
        i: usize,
        mut column: Vec<V>,
        from: Option<u32>,
        readers: &[usize],
    )
        requires rows { length self.old.rows ≡ length column.items }
        requires within { (j : ℕ) → j < length self.old.rows → i < length (slice_index_or self.old.rows j []) }
        requires told { i < length self.old.told }
        requires low { i < length self.old.low }
        requires readers { All (λ p. p < length self.old.low) readers.now }
        ensures { IsTurnedOver i column.items from readers.now self.old self.new }
    {
        put_column(&mut self.rows, &mut column, i);
        lower_all(&mut self.low, from, readers);
        self.told[i] = None;
        self.low[i] = None;
        self.mixed = true;
    }
}

// Puts a value to a place.
fn swap_at<V: Drop>(row: &mut Vec<V>, value: &mut V, i: usize)
    requires { i < length row.old.items }
    ensures { row.new.items ≡ slice_set row.old.items i value.old }
{
    swap(&mut row[i], value);
}

// Puts the values of a column to a place of each row.
fn put_column<V: Drop>(rows: &mut Vec<Vec<V>>, column: &mut Vec<V>, i: usize)
    requires long { length rows.old.items ≡ length column.old.items }
    requires within { (j : ℕ) → j < length rows.old.items
        → i < length (slice_index_or (map (λ r. r.items) rows.old.items) j []) }
    ensures rows { length rows.new.items ≡ length rows.old.items }
    ensures longs { (j : ℕ) → length (slice_index_or (map (λ r. r.items) rows.new.items) j [])
        ≡ length (slice_index_or (map (λ r. r.items) rows.old.items) j []) }
    ensures each { (j p : ℕ) (d : V) → j < length rows.old.items
        → p < length (slice_index_or (map (λ r. r.items) rows.old.items) j []) →
        slice_index_or (slice_index_or (map (λ r. r.items) rows.new.items) j []) p d
        ≡ (if p == i then slice_index_or column.old.items j d else slice_index_or (slice_index_or (map
        (λ r. r.items) rows.old.items) j []) p d) }
{
    for j in 0..rows.len() {
        swap_at(&mut rows[j], &mut column[j], i);
    }
}

// The lesser of a layer and the one from which on somebody is active.
fn least(low: Option<u32>, from: u32) -> u32
    ensures { (j : ℕ) → is_from (Some result) j ≡ (is_from low j || is_from (Some from) j) }
{
    match low {
        Some(low) => low.min(from),
        None => from,
    }
}

// Whoever stands at a place is active from a layer on.
fn lower(low: &mut Vec<Option<u32>>, from: u32, p: usize)
    requires { p < length low.old.items }
    ensures long { length low.new.items ≡ length low.old.items }
    ensures low { (q j : ℕ) → is_from (slice_index_or low.new.items q None) j
        ≡ (is_from (slice_index_or low.old.items q None) j ||
        (q == p && is_from (Some from) j)) }
{
    low[p] = Some(least(low[p], from));
}

// Those who stand at these places are active from a layer on.
fn lower_each(low: &mut Vec<Option<u32>>, from: u32, places: &[usize])
    requires { All (λ p. p < length low.old.items) places.now }
    ensures long { length low.new.items ≡ length low.old.items }
    ensures low { (q j : ℕ) → is_from (slice_index_or low.new.items q None) j
        ≡ (is_from (slice_index_or low.old.items q None) j ||
        (has_place places.now q && is_from (Some from) j)) }
{
    for p in places {
        lower(low, from, *p);
    }
}

// The same, where there is such a layer.
fn lower_all(low: &mut Vec<Option<u32>>, from: Option<u32>, places: &[usize])
    requires { All (λ p. p < length low.old.items) places.now }
    ensures long { length low.new.items ≡ length low.old.items }
    ensures low { (q j : ℕ) → is_from (slice_index_or low.new.items q None) j
        ≡ (is_from (slice_index_or low.old.items q None) j ||
        (has_place places.now q && is_from from j)) }
{
    if let Some(from) = from {
        lower_each(low, from, places);
    }
}

/// The row of a layer, with nothing in it where there is none. O(1).
pub(crate) fn row_of<X: Drop>(rows: &[Vec<X>], layer: u32) -> &[X]
    ensures { result.now ≡ row_of (map (λ r. r.items) rows.now) layer }
{
    if layer == 0 {
        return &[];
    }
    let i = layer as usize - 1;
    if i >= rows.len() {
        return &[];
    }
    rows[i].as_slice()
}

/// Whether such a least layer is this one or below.
pub(crate) fn is_from(low: Option<u32>, layer: u32) -> bool
    ensures { result ≡ is_from low layer }
{
    match low {
        Some(low) => low <= layer,
        None => false,
    }
}

// The first place at which one of these stands.
fn first_busy(low: &[Option<u32>], told: &[Option<Facts>]) -> Option<usize>
    requires { length low.now ≡ length told.now }
    ensures some { IfSome result (λ i. (i < length low.now) × ((is_some (slice_index_or low.now i None) || is_some
        (slice_index_or told.now i None)) ≡ true)
        × ((j : ℕ) → j < i → (is_some (slice_index_or low.now j None) || is_some (slice_index_or told.now j None))
        ≡ false)) }
    ensures none { result ≡ None → (j : ℕ)
        → (is_some (slice_index_or low.now j None) || is_some (slice_index_or told.now j None)) ≡ false }
{
    for i in 0..low.len() {
        if low[i].is_some() || told[i].is_some() {
            return Some(i);
        }
    }
    None
}

// So many rows of nobody.
fn no_rows<V: Drop>(alloc: Global, n: u32) -> Result<Vec<Vec<V>>, Memory>
    ensures long { IfOk result (λ rows. length rows.items ≡ n) }
    ensures none { IfOk result (λ rows. (j : ℕ) → slice_index_or (map (λ r. r.items) rows.items) j [] ≡ []) }
{
    let mut rows = Vec::new(alloc);
    for row in 0..n {
        let _ = row;
        rows.push(Vec::new(alloc))?;
    }
    Ok(rows)
}

// Takes what stands at each place away.
fn wipe<X: Drop>(cells: &mut Vec<Option<X>>)
    ensures long { length cells.new.items ≡ length cells.old.items }
    ensures none { (i : ℕ) → slice_index_or cells.new.items i None ≡ None }
{
    for i in 0..cells.len() {
        cells[i] = None;
    }
}

// The value at a place, where there is one, over the one that stands there.
fn put_over<V: Drop>(row: &mut Vec<V>, value: Option<V>, i: usize)
    requires { i < length row.old.items }
    ensures long { length row.new.items ≡ length row.old.items }
    ensures here { (d : V) → slice_index_or row.new.items i d ≡ unwrap_or value (slice_index_or row.old.items i d) }
    ensures others { (j : ℕ) (d : V) → (j ≡ i → ⊥) → slice_index_or row.new.items j d
        ≡ slice_index_or row.old.items j d }
{
    if let Some(value) = value {
        row[i] = value;
    }
}

// Values at their places over those of a row.
fn pour<V: Drop>(row: &mut Vec<V>, drawn: &mut Vec<Option<V>>)
    requires { length drawn.old.items ≤ length row.old.items }
    ensures long { length row.new.items ≡ length row.old.items }
    ensures each { (i : ℕ) (d : V) → slice_index_or row.new.items i d
        ≡ unwrap_or (slice_index_or drawn.old.items i None) (slice_index_or row.old.items i d) }
{
    for i in 0..drawn.len() {
        put_over(row, drawn[i].take(), i);
    }
}

// Values at their places over those of rows.
fn pour_all<V: Drop>(rows: &mut Vec<Vec<V>>, draft: &mut Vec<Vec<Option<V>>>)
    requires layers { length draft.old.items ≤ length rows.old.items }
    requires long { (j : ℕ) → length (slice_index_or (map (λ r. r.items) draft.old.items) j []) ≤ length
        (slice_index_or (map (λ r. r.items) rows.old.items) j []) }
    ensures rows { length rows.new.items ≡ length rows.old.items }
    ensures longs { (j : ℕ) → length (slice_index_or (map (λ r. r.items) rows.new.items) j [])
        ≡ length (slice_index_or (map (λ r. r.items) rows.old.items) j []) }
    ensures each { (j i : ℕ) (d : V) → slice_index_or (slice_index_or (map (λ r. r.items) rows.new.items) j []) i d
        ≡ unwrap_or (slice_index_or (slice_index_or (map (λ r. r.items) draft.old.items) j []) i None)
        (slice_index_or (slice_index_or
        (map (λ r. r.items) rows.old.items) j []) i d) }
{
    for j in 0..draft.len() {
        pour(&mut rows[j], &mut draft[j]);
    }
}
