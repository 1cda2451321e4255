//! What an epoch changed as text.

use crate::faults::Fault;
use crate::stores::{At, TagText};
use kin_graph::{Pair, SaidRow, TagUser, UseRow};
use kin_hub::Delta;
use std::alloc::Global;
use std::fmt;

// Lists, whose items each stand after a space.
#[derive(Clone, Copy, Debug)]
struct Pairs<'a>(&'a [Pair]);

#[derive(Clone, Copy, Debug)]
struct Said<'a>(&'a [SaidRow]);

#[derive(Clone, Copy, Debug)]
struct Uses<'a>(&'a [UseRow]);

#[derive(Clone, Copy, Debug)]
struct TagUsers<'a>(&'a [TagUser]);

impl fmt::Display for Pairs<'_> {
    fn fmt<W: fmt::Write>(&self, f: &mut fmt::Formatter<W>) -> fmt::Result {
        for pair in self.0 {
            write!(f, " {}-{}", pair.user.0, pair.other.0)?;
        }
        Ok(())
    }
}

impl fmt::Display for Said<'_> {
    fn fmt<W: fmt::Write>(&self, f: &mut fmt::Formatter<W>) -> fmt::Result {
        for row in self.0 {
            write!(f, " {}:{}", row.user.0, row.number)?;
        }
        Ok(())
    }
}

impl fmt::Display for Uses<'_> {
    fn fmt<W: fmt::Write>(&self, f: &mut fmt::Formatter<W>) -> fmt::Result {
        for row in self.0 {
            let entry = row.entry;
            write!(
                f,
                " {}-{}@{}",
                row.user.0,
                TagText(entry.tag),
                At(entry.first)
            )?;
        }
        Ok(())
    }
}

impl fmt::Display for TagUsers<'_> {
    fn fmt<W: fmt::Write>(&self, f: &mut fmt::Formatter<W>) -> fmt::Result {
        for row in self.0 {
            write!(f, " {}-{}", TagText(row.tag), row.user.0)?;
        }
        Ok(())
    }
}

// Prints pairs under their name, ascending.
fn print_pairs<R: Print + Alloc<A = Global>>(
    rt: &R,
    name: &str,
    pairs: &[Pair],
) -> Result<(), Fault> {
    let mut pairs = Vec::from_slice(rt.alloc(), pairs)?;
    pairs.sort_unstable();
    print!(rt; " {name}{}", Pairs(&pairs))?;
    Ok(())
}

// Prints the lists of a delta that aren't pairs, each ascending.
fn print_rest<R: Print + Alloc<A = Global>>(rt: &R, delta: &Delta) -> Result<(), Fault> {
    let mut said = Vec::from_slice(rt.alloc(), delta.said())?;
    said.sort_by_key(|row| row.user)?;
    let mut uses = Vec::from_slice(rt.alloc(), delta.uses())?;
    uses.sort_by_key(|row| (row.user, row.entry.tag))?;
    let mut tag_users = Vec::from_slice(rt.alloc(), delta.tag_users())?;
    tag_users.sort_unstable();
    print!(rt; " said{}", Said(&said))?;
    println!(rt; " uses{} tag_users{}", Uses(&uses), TagUsers(&tag_users))?;
    Ok(())
}

fn print_delta<R: Print + Alloc<A = Global>>(rt: &R, delta: &Delta) -> Result<(), Fault> {
    print_pairs(rt, "new_out", delta.new_out())?;
    print_pairs(rt, "new_in", delta.new_in())?;
    print_pairs(rt, "now_out", delta.now_out())?;
    print_pairs(rt, "now_in", delta.now_in())?;
    print_pairs(rt, "gone_out", delta.gone_out())?;
    print_pairs(rt, "gone_in", delta.gone_in())?;
    print_pairs(rt, "mention_out", delta.mention_out())?;
    print_pairs(rt, "mention_in", delta.mention_in())?;
    print_rest(rt, delta)
}

/// Prints a line for each partition: every list of its delta, ascending.
pub(crate) fn print_deltas<R: Print + Alloc<A = Global>>(
    rt: &R,
    deltas: &[Delta],
) -> Result<(), Fault> {
    for (p, delta) in deltas.iter().enumerate() {
        print!(rt; "part {p}")?;
        print_delta(rt, delta)?;
    }
    Ok(())
}
