//! The values of options.

ghost use Rattle.std.specs.Prelude.{◌≡◌, [], option_and_then, IfOk};
ghost use Rattle.clap.specs.Walk.{texts};
ghost use Rattle.kin_words.specs.Items.{has, are_distinct};
ghost use Rattle.kin_words.specs.Reads.{Reads, text_of};
ghost use Rattle.kin_words.specs.Values as values;

use crate::faults::WordsFault;
use kin_ids::{Landmarks, Memory, Name, Names, RuleSet, User, read_decimal};
use std::alloc::{AllocError, Global};

// Every rule.
const ALL: RuleSet = RuleSet {
    ins: true,
    outs: true,
    said: true,
    tags: true,
    rank: true,
    expo: true,
    hops: true,
    close: true,
};

/// A file name, which has to be there.
pub(crate) fn read_name(alloc: Global, value: Option<&str>) -> Result<Name, WordsFault>
    ensures { Reads (text_of value.entry) result }
{
    let Some(text) = value else {
        return Err(WordsFault::Usage);
    };
    match String::from_str(alloc, text) {
        Ok(name) => Ok(Name::of(name)),
        Err(_) => Err(WordsFault::Memory),
    }
}

// A number in its range.
fn number_from(least: u64, most: u64, text: &str) -> Option<u64>
    ensures { result ≡ values.number_from least most text.now }
{
    let number = read_decimal(text.as_bytes())?;
    if least <= number && number <= most {
        Some(number)
    } else {
        None
    }
}

/// A number from the least to the most, and a default where there is no value.
pub(crate) fn read_number(
    least: u64,
    most: u64,
    default: u64,
    value: Option<&str>,
) -> Result<u64, WordsFault>
    ensures { Reads (values.or_default default (values.number_from least most) (text_of value.entry)) result }
{
    let Some(text) = value else {
        return Ok(default);
    };
    match number_from(least, most, text) {
        Some(number) => Ok(number),
        None => Err(WordsFault::Usage),
    }
}

/// A number from the least to the most, which has to be there.
pub(crate) fn read_needed(least: u64, most: u64, value: Option<&str>) -> Result<u64, WordsFault>
    ensures { Reads (option_and_then (values.number_from least most) (text_of value.entry)) result }
{
    let Some(text) = value else {
        return Err(WordsFault::Usage);
    };
    match number_from(least, most, text) {
        Some(number) => Ok(number),
        None => Err(WordsFault::Usage),
    }
}

fn split_parts<'a>(alloc: Global, text: &'a str) -> Result<Vec<&'a str>, AllocError>
    ensures { IfOk result (λ parts. texts parts.items ≡ values.parts_of text.entry.now) }
{
    text.split(',').collect(alloc)
}

// At most 16 parts, none of which is empty.
fn are_files(parts: &[&str]) -> bool
    ensures { result ≡ values.are_files (texts parts.now) }
{
    for part in parts {
        if part.is_empty() {
            return false;
        }
    }
    parts.len() <= 16
}

fn has(parts: &[&str], name: &str) -> bool
    ensures { result ≡ has name.now (texts parts.now) }
{
    for part in parts {
        if *part == name {
            return true;
        }
    }
    false
}

fn are_distinct(parts: &[&str]) -> bool
    ensures { result ≡ are_distinct (texts parts.now) }
{
    for index in 0..parts.len() {
        if has(&parts[index + 1..], parts[index]) {
            return false;
        }
    }
    true
}

fn is_rule(name: &str) -> bool
    ensures { result ≡ has name.now values.rule_names }
{
    "in" == name
        || "out" == name
        || "said" == name
        || "tags" == name
        || "rank" == name
        || "expo" == name
        || "hops" == name
        || "close" == name
}

fn are_rules(parts: &[&str]) -> bool
    ensures { result ≡ values.are_rules (texts parts.now) }
{
    for part in parts {
        if !is_rule(part) {
            return false;
        }
    }
    true
}

fn chosen(parts: &[&str]) -> RuleSet
    ensures { result ≡ values.chosen (texts parts.now) }
{
    RuleSet {
        ins: has(parts, "in"),
        outs: has(parts, "out"),
        said: has(parts, "said"),
        tags: has(parts, "tags"),
        rank: has(parts, "rank"),
        expo: has(parts, "expo"),
        hops: has(parts, "hops"),
        close: has(parts, "close"),
    }
}

fn name_list(alloc: Global, parts: &[&str]) -> Result<Names, Memory>
    ensures { IfOk result (λ names. names ≡ texts parts.now) }
{
    let mut names = Names::new(alloc);
    for part in parts {
        names.push(Name::of(String::from_str(alloc, part)?))?;
    }
    Ok(names)
}

// None where a part is no user.
fn user_list(alloc: Global, parts: &[&str]) -> Result<Option<Landmarks>, Memory>
    ensures { IfOk result (λ users. users ≡ values.users_of (texts parts.now)) }
{
    let mut users = Landmarks::new(alloc);
    for part in parts {
        let Some(user) = User::read(part.as_bytes()) else {
            return Ok(None);
        };
        users.push(user)?;
    }
    Ok(Some(users))
}

fn names_in(alloc: Global, text: &str) -> Result<Names, WordsFault>
    ensures { Reads (values.names_of text.now) result }
{
    let Ok(parts) = split_parts(alloc, text) else {
        return Err(WordsFault::Memory);
    };
    if !are_files(parts.as_slice()) {
        return Err(WordsFault::Usage);
    }
    match name_list(alloc, parts.as_slice()) {
        Ok(names) => Ok(names),
        Err(_) => Err(WordsFault::Memory),
    }
}

fn rules_in(alloc: Global, text: &str) -> Result<RuleSet, WordsFault>
    ensures { Reads (values.rules_of text.now) result }
{
    let Ok(parts) = split_parts(alloc, text) else {
        return Err(WordsFault::Memory);
    };
    if are_rules(parts.as_slice()) && are_distinct(parts.as_slice()) {
        Ok(chosen(parts.as_slice()))
    } else {
        Err(WordsFault::Usage)
    }
}

fn landmarks_in(alloc: Global, text: &str) -> Result<Landmarks, WordsFault>
    ensures { Reads (values.landmarks_of text.now) result }
{
    let Ok(parts) = split_parts(alloc, text) else {
        return Err(WordsFault::Memory);
    };
    if parts.len() > 16 || !are_distinct(parts.as_slice()) {
        return Err(WordsFault::Usage);
    }
    match user_list(alloc, parts.as_slice()) {
        Ok(Some(users)) => Ok(users),
        Ok(None) => Err(WordsFault::Usage),
        Err(_) => Err(WordsFault::Memory),
    }
}

/// 1 to 16 file names, which have to be there.
pub(crate) fn read_names(alloc: Global, value: Option<&str>) -> Result<Names, WordsFault>
    ensures { Reads (option_and_then values.names_of (text_of value.entry)) result }
{
    match value {
        Some(text) => names_in(alloc, text),
        None => Err(WordsFault::Usage),
    }
}

/// Distinct rules; all of them where there is no value.
pub(crate) fn read_rules(alloc: Global, value: Option<&str>) -> Result<RuleSet, WordsFault>
    ensures { Reads (values.or_default (values.chosen values.rule_names) values.rules_of (text_of value.entry)) result }
{
    match value {
        Some(text) => rules_in(alloc, text),
        None => Ok(ALL),
    }
}

/// 1 to 16 distinct users; none where there is no value.
pub(crate) fn read_landmarks(alloc: Global, value: Option<&str>) -> Result<Landmarks, WordsFault>
    ensures { Reads (values.or_default [] values.landmarks_of (text_of value.entry)) result }
{
    match value {
        Some(text) => landmarks_in(alloc, text),
        None => Ok(Landmarks::new(alloc)),
    }
}
