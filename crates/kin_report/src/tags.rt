//! The lines of tags and of exposure.

ghost use Rattle.std.specs.Prelude.{◌≡◌, ◌++◌, ◌∷◌, codes, map, IfOk, OnOk};
ghost use Rattle.kin_rules.specs.Results.{expo_in, tag_users_in};
ghost use Rattle.kin_report.specs.Text.{line_of, text_of};
ghost use Rattle.kin_report.specs.Block.{chosen, expo_lines, pair_word, tag_lines};
ghost use Rattle.kin_rules.specs.Top.{numbered_tags};
ghost use Rattle.kin_report.specs.Written.{result_tags, spaced_on};

use crate::words::{Word, push_line, push_number, push_words};
use kin_ids::{Memory, Tag};
use kin_rules::{EpochResult, KCount, TagNumber, top_tags};
use std::alloc::Global;

fn numbered(alloc: Global, values: &EpochResult) -> Result<Vec<TagNumber>, Memory>
    ensures { IfOk result (λ list. list.items ≡ numbered_tags (tag_users_in values.now) values.now.tags) }
{
    let tags = values.tags();
    let mut list = Vec::with_capacity(alloc, tags.len())?;
    for tag in tags {
        let number = values.users_of(*tag);
        list.push(TagNumber { tag: *tag, number })?;
    }
    Ok(list)
}

// The tags in use with the greatest numbers of users.
fn tag_list(alloc: Global, values: &EpochResult, top: u64) -> Result<Vec<TagNumber>, Memory>
    ensures { IfOk result (λ tags. tags.items ≡ result_tags values.now top) }
{
    let all = numbered(alloc, values)?;
    top_tags(alloc, all.as_slice(), top)
}

// Appends a line for each tag, with its number.
fn push_numbers(text: &mut Vec<u8>, tags: &[TagNumber]) -> Result<(), Memory>
    ensures { OnOk result (text.new.items ≡ text.old.items ++ text_of (tag_lines tags.now)) }
{
    for entry in tags {
        let words = [Word::Text(entry.tag.bytes()), Word::Number(entry.number)];
        push_line(text, b"tag", words.as_slice())?;
    }
    Ok(())
}

// Appends pairs, each behind a space.
fn push_pairs(text: &mut Vec<u8>, pairs: &[KCount]) -> Result<(), Memory>
    ensures { OnOk result (text.new.items ≡ text.old.items ++ spaced_on (map pair_word pairs.now)) }
{
    for pair in pairs {
        text.push(b' ')?;
        push_number(text, pair.k)?;
        text.push(b':')?;
        push_number(text, pair.users)?;
    }
    Ok(())
}

// Appends the line of a tag with its exposures.
#[tactic(auto, using(crate::proofs::Lines::expo_written))]
fn push_exposure(text: &mut Vec<u8>, tag: Tag, pairs: &[KCount]) -> Result<(), Memory>
    ensures { OnOk result (text.new.items ≡ text.old.items ++ line_of (codes "expo" ∷ tag ∷ map pair_word pairs.now)) }
{
    text.extend_from_slice(b"expo")?;
    push_words(text, [Word::Text(tag.bytes())].as_slice())?;
    push_pairs(text, pairs)?;
    text.push(b'\n')?;
    Ok(())
}

// Appends a line for each tag, with its exposures.
fn push_exposures(
    text: &mut Vec<u8>,
    values: &EpochResult,
    tags: &[TagNumber],
) -> Result<(), Memory>
    ensures { OnOk result (text.new.items ≡ text.old.items ++ text_of (expo_lines (expo_in values.now) tags.now)) }
{
    for entry in tags {
        push_exposure(text, entry.tag, values.expo_of(entry.tag))?;
    }
    Ok(())
}

/// Appends the tags in use with the greatest numbers of users, where they are wanted. It costs O(n log n) in the tags.
pub(crate) fn push_tags(
    alloc: Global,
    text: &mut Vec<u8>,
    values: &EpochResult,
    top: u64,
    wanted: bool,
) -> Result<(), Memory>
    ensures { OnOk result (text.new.items ≡ text.old.items ++ text_of (chosen wanted (tag_lines (result_tags values.now top)))) }
{
    if !wanted {
        return Ok(());
    }
    push_numbers(text, tag_list(alloc, values, top)?.as_slice())
}

/// Appends the exposures of the tags that `push_tags` lists, where they are wanted. It costs O(n log n) in the tags.
pub(crate) fn push_expo(
    alloc: Global,
    text: &mut Vec<u8>,
    values: &EpochResult,
    top: u64,
    wanted: bool,
) -> Result<(), Memory>
    ensures { OnOk result (text.new.items ≡ text.old.items ++ text_of (chosen wanted (expo_lines (expo_in values.now) (result_tags values.now top)))) }
{
    if !wanted {
        return Ok(());
    }
    push_exposures(text, values, tag_list(alloc, values, top)?.as_slice())
}
