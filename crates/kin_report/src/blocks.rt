//! The block that is printed for an epoch.

ghost use Rattle.std.specs.Prelude.{◌≡◌, ◌++◌, map, IfOk, OnOk};
ghost use Rattle.kin_ids.specs.Graph.{Graph};
ghost use Rattle.kin_rules.specs.Results.{IsResult};
ghost use Rattle.kin_report.specs.Text.{line_of, text_of};
ghost use Rattle.kin_report.specs.Block.{block_text, end_word, epoch_line};
ghost use Rattle.kin_report.specs.Written.{result_lines, spaced_on};

use crate::numbers::push_numbers;
use crate::tags::{push_expo, push_tags};
use crate::walks::{Walk, push_walks};
use crate::words::{Word, push_number, push_words};
use kin_ids::{End, Memory, OptionWords};
use kin_rules::{EpochResult, Num};
use kin_table::Cut;
use std::alloc::Global;

fn push_end(text: &mut Vec<u8>, end: End) -> Result<(), Memory>
    ensures { OnOk result (text.new.items ≡ text.old.items ++ end_word end) }
{
    if end.to == 0 {
        text.push(b'-')?;
    } else {
        push_number(text, u64::from(end.inc.0))?;
        text.push(b'@')?;
        push_number(text, end.to)?;
    }
    Ok(())
}

// Appends the ends, each behind a space.
fn push_ends(text: &mut Vec<u8>, ends: &[End]) -> Result<(), Memory>
    ensures { OnOk result (text.new.items ≡ text.old.items ++ spaced_on (map end_word ends.now)) }
{
    for end in ends {
        text.push(b' ')?;
        push_end(text, *end)?;
    }
    Ok(())
}

// Appends the epoch's line.
#[tactic(auto, using(crate::proofs::Lines::epoch_written))]
fn push_epoch(text: &mut Vec<u8>, cut: &Cut, records: u64, bad: u64) -> Result<(), Memory>
    ensures { OnOk result (text.new.items ≡ text.old.items ++ line_of (epoch_line cut.now.epoch.0 cut.now.ends records bad)) }
{
    text.extend_from_slice(b"epoch")?;
    push_words(text, [Word::Number(u64::from(cut.epoch.0))].as_slice())?;
    push_ends(text, cut.ends.as_slice())?;
    let counts = [
        Word::Text(b"records"),
        Word::Number(records),
        Word::Text(b"bad"),
        Word::Number(bad),
    ];
    push_words(text, counts.as_slice())?;
    text.push(b'\n')?;
    Ok(())
}

// Appends the lines of the chosen rules, in their order.
#[tactic(auto, using(crate::proofs::Lines::rules_written))]
fn push_rules(
    alloc: Global,
    text: &mut Vec<u8>,
    values: &EpochResult,
    options: &OptionWords,
) -> Result<(), Memory>
    ensures { OnOk result (text.new.items ≡ text.old.items ++ text_of (result_lines options.now values.now)) }
{
    let rules = options.rules;
    let top = options.top;
    let landmarks = options.landmarks.as_slice();
    push_numbers(alloc, text, values, top, rules.ins, b"in", Num::In)?;
    push_numbers(alloc, text, values, top, rules.outs, b"out", Num::Out)?;
    push_numbers(alloc, text, values, top, rules.said, b"said", Num::Said)?;
    push_tags(alloc, text, values, top, rules.tags)?;
    push_numbers(alloc, text, values, top, rules.rank, b"rank", Num::Rank)?;
    push_expo(alloc, text, values, top, rules.expo)?;
    push_walks(alloc, text, values, top, rules.hops, Walk::Hops, landmarks)?;
    push_walks(
        alloc,
        text,
        values,
        top,
        rules.close,
        Walk::Close,
        landmarks,
    )?;
    Ok(())
}

/// The block of an epoch: where its cut ends, how many records are new in it and how many of these are Bad, and the chosen rules by
/// the epoch's values. It costs O(n log n) in the users and tags for each rule, and is linear in what it prints.
#[tactic(auto, using(crate::proofs::Results::block_written))]
pub fn block(
    alloc: Global,
    cut: &Cut,
    records: u64,
    bad: u64,
    values: &EpochResult,
    options: &OptionWords,
) -> Result<Vec<u8>, Memory>
    ensures { IfOk result (λ text. (g : Graph) → IsResult g options.now.landmarks values.now → text.items ≡ block_text cut.now.epoch.0 cut.now.ends records bad options.now g) }
{
    let mut text = Vec::new(alloc);
    push_epoch(&mut text, cut, records, bad)?;
    push_rules(alloc, &mut text, values, options)?;
    Ok(text)
}
