//! Rank and exposure of the vertices of a view, for an evaluation that numbers them once.

ghost use Rattle.std.specs.Prelude.{◌≡◌, ◌<◌, ◌≤◌, ◌++◌, if◌then◌else◌, IfOk, OnOk, All, List, ℕ, length, map};
ghost use Rattle.std.specs.List.{count_by};
ghost use Rattle.kin_ids.specs.Graph.{Graph};
ghost use Rattle.kin_ids.specs.Wholes.{IsViewOf};
ghost use Rattle.kin_graph.specs.Views.{AreVertices};
ghost use Rattle.kin_rules.specs.declared.pull_rules.Facts.{Facts};
ghost use Rattle.kin_rules.specs.Exposure.{exposure};
ghost use Rattle.kin_rules.specs.ExposureEntries.{entry_among, uses_at};
ghost use Rattle.kin_rules.specs.ExposureRule as rule;
ghost use Rattle.kin_rules.specs.LayerTables.{facts_seen};
ghost use Rattle.kin_rules.specs.Ranks.{rank};

use crate::Index;
use crate::exposure_rules::{UseK, is_earlier};
use crate::layers::top_row;
use crate::neighbours::neighbours;
use crate::pull_rules::{Facts, Side};
use crate::rank_rules::Rank;
use kin_graph::{Steps, View};
use kin_ids::{Memory, Use};
use std::alloc::Global;
use std::sync::ledger::Ledger;

/// The rank of each vertex, by its place. It reads the halves into each once, and then takes time linear in vertices
/// and edges for each layer.
pub(crate) fn ranks<V: View, L: Ledger>(
    alloc: Global,
    view: &V,
    index: &Index,
    facts: &[Facts],
    steps: &mut Steps<L>,
) -> Result<Vec<u64>, Memory>
    requires vertices { AreVertices (V.seen view.now) index.now }
    requires facts { facts.now ≡ map (facts_seen (V.seen view.now)) index.now }
    ensures long { IfOk result (λ ranks. length ranks.items ≡ length index.now) }
    ensures ranks { IfOk result (λ ranks. (g : Graph) → IsViewOf g (V.seen view.now)
        → ranks.items ≡ map (rank g) index.now) }
{
    let ends = neighbours(alloc, view, Side::In, index, steps)?;
    top_row(alloc, &Rank, facts, &ends)
}

fn one_if(test: bool) -> u64
    ensures value { result ≡ (if test then 1 else 0) }
    ensures small { result ≤ 1 }
{
    u64::from(test)
}

// How many of those who stand at these places used the tag before.
fn earlier_at(facts: &[Facts], ends: &[usize], item: &Use) -> u64
    requires { All (λ i. i < length facts.now) ends.now }
    ensures { (df : Facts) → result ≡ count_by (rule.is_earlier item.now) (uses_at df facts.now ends.now) }
{
    let mut k: u64 = 0;
    for end in ends {
        k += one_if(is_earlier(item, facts[*end].uses.as_slice()));
    }
    k
}

// An entry for each of these uses of a user whose neighbours stand at these places.
fn put_entries(
    entries: &mut Vec<UseK>,
    uses: &[Use],
    facts: &[Facts],
    ends: &[usize],
) -> Result<(), Memory>
    requires { All (λ i. i < length facts.now) ends.now }
    ensures { OnOk result ((df : Facts) → entries.new.items
        ≡ entries.old.items ++ map (entry_among (uses_at df facts.now ends.now)) uses.now) }
{
    for item in uses {
        entries.push(UseK {
            tag: item.tag,
            k: earlier_at(facts, ends, item),
        })?;
    }
    Ok(())
}

/// An entry for each use of each vertex, with its tag and how many of those whom the user follows used the tag before.
/// It reads the halves out of each vertex once; a use of a user then looks at each use of those whom the user follows.
pub(crate) fn exposures<V: View, L: Ledger>(
    alloc: Global,
    view: &V,
    index: &Index,
    facts: &[Facts],
    steps: &mut Steps<L>,
) -> Result<Vec<UseK>, Memory>
    requires vertices { AreVertices (V.seen view.now) index.now }
    requires facts { facts.now ≡ map (facts_seen (V.seen view.now)) index.now }
    ensures { IfOk result (λ entries. (g : Graph) → IsViewOf g (V.seen view.now)
        → (t : List ℕ) (k : ℕ) → count_by (rule.is_entry t k) entries.items ≡ exposure g t k) }
{
    let ends = neighbours(alloc, view, Side::Out, index, steps)?;
    let mut entries = Vec::new(alloc);
    for place in 0..facts.len() {
        put_entries(
            &mut entries,
            facts[place].uses.as_slice(),
            facts,
            ends.row(place),
        )?;
    }
    Ok(entries)
}
