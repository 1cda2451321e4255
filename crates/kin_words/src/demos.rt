//! The words of `demo`.

ghost use Rattle.std.specs.Prelude.{◌≡◌, map, string_bytes, codes, List, ℕ, IfOk, IsErrOf};
ghost use Rattle.clap.specs.Words.{app_of, first_value, found_of};
ghost use Rattle.kin_ids.specs.declared.options.DemoWords.{DemoWords};
ghost use Rattle.kin_words.specs.Commands.{AsksDemo, IsDemo, demo_names};
ghost use Rattle.kin_words.specs.Reads.{Matches};
ghost use Rattle.kin_words.specs.Rules.{app_for};

use crate::faults::WordsFault;
use crate::parses::{option, parsed};
use crate::values::read_needed;
use clap::{ArgMatches, Command};
use kin_ids::DemoWords;
use std::alloc::{AllocError, Global};

fn demo_command<'a>(alloc: Global) -> Result<Command<'a>, AllocError>
    ensures { IfOk result (λ c. app_of c ≡ app_for (codes "demo") demo_names.options demo_names.flags) }
{
    Command::new(alloc, "demo")
        .no_binary_name(true)
        .disable_help_flag(true)
        .arg(option(alloc, "seed"))?
        .arg(option(alloc, "records"))
}

fn demo_matches<'a>(alloc: Global, words: &'a [String]) -> Result<ArgMatches<'a>, WordsFault>
    ensures { Matches demo_names (map string_bytes words.entry.now) result }
{
    match demo_command(alloc) {
        Ok(command) => parsed(command, words),
        Err(_) => Err(WordsFault::Memory),
    }
}

// What the values ask for.
fn chosen(matches: &ArgMatches<'_>) -> Result<DemoWords, WordsFault>
    ensures ok { IfOk result (IsDemo (first_value (found_of matches.now))) }
    ensures usage { IsErrOf result WordsFault.Usage → (w : DemoWords) → IsDemo (first_value (found_of matches.now)) w → ⊥ }
{
    Ok(DemoWords {
        seed: read_needed(0, u64::MAX, matches.get_str("seed"))?,
        records: read_needed(1, 500000, matches.get_str("records"))?,
    })
}

/// Reads the words that follow `demo`. Usage comes exactly where they ask for nothing that `demo` does. Its cost is linear in their bytes.
pub fn read_demo(alloc: Global, words: &[String]) -> Result<DemoWords, WordsFault>
    ensures ok { IfOk result (AsksDemo (map string_bytes words.now)) }
    ensures usage { IsErrOf result WordsFault.Usage → (w : DemoWords) → AsksDemo (map string_bytes words.now) w → ⊥ }
{
    let matches = demo_matches(alloc, words)?;
    chosen(&matches)
}
