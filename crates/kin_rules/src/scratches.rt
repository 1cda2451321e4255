//! All values of an epoch, evaluated on one snapshot alone.

ghost use Rattle.std.specs.Prelude.{◌≡◌, ◌≤◌, ◌<◌, ◌^◌, ℕ, List, IfOk, length, map};
ghost use Rattle.std.specs.List.Sorted.{IsStrictlySortedBy};
ghost use Rattle.kin_ids.specs.Users.{tag_cmp};
ghost use Rattle.kin_ids.specs.Graph.{Graph};
ghost use Rattle.kin_ids.specs.Wholes.{IsViewOf};
ghost use Rattle.kin_graph.specs.Views.{AreVertices, IsSmall, is_in_use};
ghost use Rattle.kin_rules.specs.Columns.{AreOf, columns_of};
ghost use Rattle.kin_rules.specs.Edges.{AreEdgesOf};
ghost use Rattle.kin_rules.specs.Exposure.{exposures as exposures_of};
ghost use Rattle.kin_rules.specs.Instances.{distance_rule};
ghost use Rattle.kin_rules.specs.LayerTables.{facts_seen};
ghost use Rattle.kin_rules.specs.Nets.{close_of, hops_of, least_of};
ghost use Rattle.kin_rules.specs.Ranks.{rank};
ghost use Rattle.kin_rules.specs.Results.{IsResult, has_tag};
ghost use Rattle.kin_rules.specs.Scratches.{AreLists, column_by, in_seen, out_seen, users_seen};

use crate::Index;
use crate::columns::{Column, Walks};
use crate::edges::Edges;
use crate::evaluations::{exposures, ranks};
use crate::exposure_lists::exposure_lists;
use crate::neighbours::{all_facts, count_present};
use crate::numbers::KCount;
use crate::pull_rules::Facts;
use crate::push_rules::{Distance, DistanceFrom};
use crate::results::EpochResult;
use crate::walks::walk_values;
use kin_graph::{Steps, View};
use kin_ids::{Epoch, ListOf, Memory, Tag, User};
use std::alloc::Global;
use std::collections::BTreeMap;
use std::marker::Brand;
use std::sync::ledger::{Blank, Ledger};

// How many follow each of these users now.
fn in_counts<V: View, L: Ledger>(
    alloc: Global,
    view: &V,
    users: &[User],
    steps: &mut Steps<L>,
) -> Result<Vec<u64>, Memory>
    ensures { IfOk result (λ counts. counts.items ≡ map (in_seen (V.seen view.now)) users.now) }
{
    let mut counts = Vec::with_capacity(alloc, users.len())?;
    for user in users {
        counts.push(count_present(view.inn(*user, steps)))?;
    }
    Ok(counts)
}

// How many those with these facts follow now.
fn out_counts(alloc: Global, facts: &[Facts]) -> Result<Vec<u64>, Memory>
    ensures { IfOk result (λ counts. counts.items ≡ map (λ f. f.following) facts.now) }
{
    Ok(facts.iter().map(|own| own.following).collect(alloc)?)
}

// How many items of tweets mention each of these users.
fn said_counts<V: View>(alloc: Global, view: &V, users: &[User]) -> Result<Vec<u64>, Memory>
    ensures { IfOk result (λ counts. counts.items ≡ map (V.seen view.now).said users.now) }
{
    let mut counts = Vec::with_capacity(alloc, users.len())?;
    for user in users {
        counts.push(view.said(*user))?;
    }
    Ok(counts)
}

// How many users each of these tags has.
fn tag_counts<V: View>(alloc: Global, view: &V, tags: &[Tag]) -> Result<Vec<u64>, Memory>
    ensures { IfOk result (λ counts. counts.items ≡ map (users_seen (V.seen view.now)) tags.now) }
{
    let mut counts = Vec::with_capacity(alloc, tags.len())?;
    for tag in tags {
        counts.push(view.tag_users(*tag))?;
    }
    Ok(counts)
}

// A column of the distances from each landmark.
fn walk_columns(
    alloc: Global,
    index: &Index,
    follows: &Edges,
    mentions: &Edges,
    distance: Distance,
    landmarks: &[User],
) -> Result<Vec<Column>, Memory>
    requires small { length index.now ≤ 2 ^ 27 }
    ensures users { IfOk result (λ columns. AreOf (length index.now) (columns_of columns.items)) }
    ensures count { IfOk result (λ columns. length columns.items ≡ length landmarks.now) }
    ensures values { IfOk result (λ columns. (g : Graph) → AreEdgesOf g index.now follows.now mentions.now
        → columns_of columns.items
        ≡ map (λ l. column_by (least_of (distance_rule distance l) g) index.now) landmarks.now) }
{
    let mut columns = Vec::with_capacity(alloc, landmarks.len())?;
    for landmark in landmarks {
        let rule = DistanceFrom {
            landmark: *landmark,
            distance,
        };
        let values = walk_values(alloc, index, follows, mentions, &rule)?;
        columns.push(Column {
            values,
            others: BTreeMap::new(alloc),
        })?;
    }
    Ok(columns)
}

// The numbers of the vertices, in their order.
#[derive(Drop)]
struct Numbers {
    ins: Vec<u64>,
    outs: Vec<u64>,
    said: Vec<u64>,
    ranks: Vec<u64>,
}

fn numbers_of<V: View, L: Ledger>(
    alloc: Global,
    view: &V,
    index: &Index,
    facts: &[Facts],
    steps: &mut Steps<L>,
) -> Result<Numbers, Memory>
    requires vertices { AreVertices (V.seen view.now) index.now }
    requires facts { facts.now ≡ map (facts_seen (V.seen view.now)) index.now }
    ensures ins { IfOk result (λ n. n.ins.items ≡ map (in_seen (V.seen view.now)) index.now) }
    ensures outs { IfOk result (λ n. n.outs.items ≡ map (out_seen (V.seen view.now)) index.now) }
    ensures said { IfOk result (λ n. n.said.items ≡ map (V.seen view.now).said index.now) }
    ensures long { IfOk result (λ n. length n.ranks.items ≡ length index.now) }
    ensures ranks { IfOk result (λ n. (g : Graph) → IsViewOf g (V.seen view.now)
        → n.ranks.items ≡ map (rank g) index.now) }
{
    Ok(Numbers {
        ins: in_counts(alloc, view, index.as_slice(), steps)?,
        outs: out_counts(alloc, facts)?,
        said: said_counts(alloc, view, index.as_slice())?,
        ranks: ranks(alloc, view, index, facts, steps)?,
    })
}

// The tags in use, ascending, and in that order how many users each has, and how many of them have which exposure.
#[derive(Drop)]
struct TagRows {
    tags: Vec<Tag>,
    tag_users: Vec<u64>,
    expos: Vec<ListOf<KCount>>,
}

fn tag_rows<V: View, L: Ledger>(
    alloc: Global,
    view: &V,
    index: &Index,
    facts: &[Facts],
    steps: &mut Steps<L>,
) -> Result<TagRows, Memory>
    requires vertices { AreVertices (V.seen view.now) index.now }
    requires facts { facts.now ≡ map (facts_seen (V.seen view.now)) index.now }
    ensures ascend { IfOk result (λ r. IsStrictlySortedBy tag_cmp r.tags.items) }
    ensures in_use { IfOk result (λ r. (t : List ℕ) → has_tag r.tags.items t ≡ is_in_use (V.seen view.now) t) }
    ensures users { IfOk result (λ r. r.tag_users.items ≡ map (users_seen (V.seen view.now)) r.tags.items) }
    ensures lists { IfOk result (λ r. AreLists r.tags.items r.expos.items) }
    ensures expos { IfOk result (λ r. (g : Graph) → IsViewOf g (V.seen view.now)
        → r.expos.items ≡ map (exposures_of g) r.tags.items) }
{
    let tags = view.tags()?;
    let tag_users = tag_counts(alloc, view, tags.as_slice())?;
    let entries = exposures(alloc, view, index, facts, steps)?;
    let expos = exposure_lists(
        alloc,
        tags.as_slice(),
        tag_users.as_slice(),
        entries.as_slice(),
    )?;
    Ok(TagRows {
        tags,
        tag_users,
        expos,
    })
}

// A column of hops and one of closeness from each landmark. Where there is none, no edge is read.
fn walks_of<V: View, L: Ledger>(
    alloc: Global,
    view: &V,
    index: &Index,
    landmarks: &[User],
    steps: &mut Steps<L>,
) -> Result<Walks, Memory>
    requires vertices { AreVertices (V.seen view.now) index.now }
    requires small { length index.now ≤ 2 ^ 27 }
    ensures hops_users { IfOk result (λ w. AreOf (length index.now) (columns_of w.hops.items)) }
    ensures close_users { IfOk result (λ w. AreOf (length index.now) (columns_of w.close.items)) }
    ensures count { IfOk result (λ w. length w.close.items ≡ length w.hops.items) }
    ensures hops { IfOk result (λ w. (g : Graph) → IsViewOf g (V.seen view.now)
        → columns_of w.hops.items ≡ map (λ l. column_by (hops_of g l) index.now) landmarks.now) }
    ensures close { IfOk result (λ w. (g : Graph) → IsViewOf g (V.seen view.now)
        → columns_of w.close.items ≡ map (λ l. column_by (close_of g l) index.now) landmarks.now) }
{
    if landmarks.is_empty() {
        return Ok(Walks {
            hops: Vec::new(alloc),
            close: Vec::new(alloc),
        });
    }
    let follows = Edges::follows(alloc, view, index, steps)?;
    let mentions = Edges::mentions(alloc, view, index, steps)?;
    let hops = walk_columns(alloc, index, &follows, &mentions, Distance::Hops, landmarks)?;
    let close = walk_columns(
        alloc,
        index,
        &follows,
        &mentions,
        Distance::Close,
        landmarks,
    )?;
    Ok(Walks { hops, close })
}

fn scratch_by<V: View, L: Ledger>(
    alloc: Global,
    view: &V,
    epoch: Epoch,
    landmarks: &[User],
    blank: Blank,
) -> Result<EpochResult, Memory>
    requires name { blank.name ≡ L.name }
    requires parts { (blank.parts ≡ L.parts) × (0 < L.parts) }
    requires small { IsSmall (V.seen view.now) }
    ensures epoch { IfOk result (λ r. r.epoch ≡ epoch.0) }
    ensures values { IfOk result (λ r. (g : Graph) → IsViewOf g (V.seen view.now) → IsResult g landmarks.now r) }
{
    let mut steps = Steps::<L>::new(blank);
    let users = view.users()?;
    let index = Index::of(alloc, users.as_slice())?;
    let facts = all_facts(alloc, view, index.as_slice(), &mut steps)?;
    let numbers = numbers_of(alloc, view, &index, facts.as_slice(), &mut steps)?;
    let rows = tag_rows(alloc, view, &index, facts.as_slice(), &mut steps)?;
    let walks = walks_of(alloc, view, &index, landmarks, &mut steps)?;
    Ok(EpochResult {
        alloc,
        epoch,
        users,
        ins: numbers.ins,
        outs: numbers.outs,
        said: numbers.said,
        ranks: numbers.ranks,
        tags: rows.tags,
        tag_users: rows.tag_users,
        expos: rows.expos,
        hops: walks.hops,
        close: walks.close,
    })
}

/// Evaluates all rules on a view that hands out a whole graph. The vertices are numbered once, and each list of edges
/// is read into places once for walks, once for rank and once for exposure. Linear in the vertices and edges for each
/// landmark and each layer of rank, with a look-up by hash an edge, O(log t) a use of a tag for t tags, and a sort of
/// the vertices and tags.
pub fn scratch<V: View>(
    alloc: Global,
    view: &V,
    epoch: Epoch,
    landmarks: &[User],
) -> Result<EpochResult, Memory>
    requires { IsSmall (V.seen view.now) }
    ensures epoch { IfOk result (λ r. r.epoch ≡ epoch.0) }
    ensures values { IfOk result (λ r. (g : Graph) → IsViewOf g (V.seen view.now) → IsResult g landmarks.now r) }
{
    scratch_by::<V, Brand>(alloc, view, epoch, landmarks, Blank::new(1))
}
