//! Command lines, read with clap.

ghost use Rattle.std.specs.Prelude.{◌≡◌, true, false, map, string_bytes};
ghost use Rattle.std.specs.List.{list_all};
ghost use Rattle.clap.specs.Words.{app_of, rule_of, is_simple_and_free};
ghost use Rattle.kin_words.specs.Rules.{option_rule, flag_rule};
ghost use Rattle.kin_words.specs.Formed.{is_formed, is_formed_name};
ghost use Rattle.kin_words.specs.Items.{is_value};
ghost use Rattle.kin_words.specs.Reads.{Parses};

use crate::faults::WordsFault;
use clap::error::ErrorKind;
use clap::{Arg, ArgAction, ArgMatches, Command};
use std::alloc::Global;

/// An option that takes one value.
pub(crate) fn option<'a>(alloc: Global, name: &'a str) -> Arg<'a>
    ensures rule { rule_of result ≡ option_rule name.entry.now }
    ensures local { result.global ≡ false }
{
    Arg::new(alloc, name).long(name).action(ArgAction::Set)
}

/// A flag.
pub(crate) fn flag<'a>(alloc: Global, name: &'a str) -> Arg<'a>
    ensures rule { rule_of result ≡ flag_rule name.entry.now }
    ensures local { result.global ≡ false }
{
    Arg::new(alloc, name).long(name).action(ArgAction::SetTrue)
}

fn is_value(text: &[u8]) -> bool
    ensures { result ≡ is_value text.now }
{
    match text {
        [] => false,
        [first, ..] => *first != b'-',
    }
}

// A name with a value, or alone.
fn is_formed_name(name: &[u8]) -> bool
    ensures { result ≡ is_formed_name name.now }
{
    for at in 0..name.len() {
        if name[at] == b'=' {
            return is_value(&name[at + 1..]);
        }
    }
    !name.is_empty()
}

// The word is a value, `--name`, or `--name=value`. What is none of these is refused before clap sees it.
fn is_formed(word: &[u8]) -> bool
    ensures { result ≡ is_formed word.now }
{
    match word {
        [b'-', b'-', name @ ..] => is_formed_name(name),
        _ => is_value(word),
    }
}

fn are_formed(words: &[String]) -> bool
    ensures { result ≡ list_all (λ w. is_formed (string_bytes w)) words.now }
{
    for word in words {
        if !is_formed(word.as_bytes()) {
            return false;
        }
    }
    true
}

/// What clap makes of these words, where the product takes each of them.
pub(crate) fn parsed<'a>(
    command: Command<'a>,
    words: &'a [String],
) -> Result<ArgMatches<'a>, WordsFault>
    requires simple { is_simple_and_free (app_of command) ≡ true }
    ensures { Parses (app_of command.entry) (map string_bytes words.entry.now) result }
{
    if !are_formed(words) {
        return Err(WordsFault::Usage);
    }
    match command.try_get_matches_from(words) {
        Ok(matches) => Ok(matches),
        Err(error) => {
            if error.kind() == ErrorKind::OutOfMemory {
                Err(WordsFault::Memory)
            } else {
                Err(WordsFault::Usage)
            }
        }
    }
}
