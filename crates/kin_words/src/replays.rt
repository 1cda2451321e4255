//! The words of `replay`.

ghost use Rattle.std.specs.Prelude.{◌≡◌, map, string_bytes, codes, Bool, Some, true, false, if◌then◌else◌, IfOk, IsErrOf};
ghost use Rattle.clap.specs.Words.{app_of, first_value, one_text, found_of};
ghost use Rattle.kin_ids.specs.declared.options.ReplayWords.{ReplayWords};
ghost use Rattle.kin_words.specs.Commands.{AsksReplay, IsReplay, replay_names};
ghost use Rattle.kin_words.specs.Reads.{Matches};
ghost use Rattle.kin_words.specs.Rules.{app_for};

use crate::faults::WordsFault;
use crate::parses::{flag, option, parsed};
use crate::values::{read_landmarks, read_name, read_names, read_number, read_rules};
use clap::{ArgMatches, Command};
use kin_ids::{OptionWords, ReplayWords};
use std::alloc::{AllocError, Global};

fn replay_command<'a>(alloc: Global) -> Result<Command<'a>, AllocError>
    ensures { IfOk result (λ c. app_of c ≡ app_for (codes "replay") replay_names.options replay_names.flags) }
{
    Command::new(alloc, "replay")
        .no_binary_name(true)
        .disable_help_flag(true)
        .arg(option(alloc, "script"))?
        .arg(option(alloc, "feeds"))?
        .arg(option(alloc, "parts"))?
        .arg(option(alloc, "rules"))?
        .arg(option(alloc, "landmarks"))?
        .arg(option(alloc, "top"))?
        .arg(flag(alloc, "trace"))
}

fn replay_matches<'a>(alloc: Global, words: &'a [String]) -> Result<ArgMatches<'a>, WordsFault>
    ensures { Matches replay_names (map string_bytes words.entry.now) result }
{
    match replay_command(alloc) {
        Ok(command) => parsed(command, words),
        Err(_) => Err(WordsFault::Memory),
    }
}

// What the values and the flag ask for.
fn chosen(alloc: Global, matches: &ArgMatches<'_>, trace: bool) -> Result<ReplayWords, WordsFault>
    ensures ok { IfOk result (IsReplay (first_value (found_of matches.now)) trace) }
    ensures usage { IsErrOf result WordsFault.Usage → (w : ReplayWords) → IsReplay (first_value (found_of matches.now)) trace w → ⊥ }
{
    let script = read_name(alloc, matches.get_str("script"))?;
    let feeds = read_names(alloc, matches.get_str("feeds"))?;
    let parts = read_number(1, 64, 1, matches.get_str("parts"))?;
    let rules = read_rules(alloc, matches.get_str("rules"))?;
    let landmarks = read_landmarks(alloc, matches.get_str("landmarks"))?;
    let top = read_number(0, 1000, 10, matches.get_str("top"))?;
    Ok(ReplayWords {
        script,
        feeds,
        parts: parts as u16,
        options: OptionWords {
            rules,
            landmarks,
            top,
        },
        trace,
    })
}

/// Reads the words that follow `replay`. Usage comes exactly where they ask for nothing that `replay` does. Its cost is linear in their bytes.
pub fn read_replay(alloc: Global, words: &[String]) -> Result<ReplayWords, WordsFault>
    ensures ok { IfOk result (AsksReplay (map string_bytes words.now)) }
    ensures usage { IsErrOf result WordsFault.Usage → (w : ReplayWords) → AsksReplay (map string_bytes words.now) w → ⊥ }
{
    let matches = replay_matches(alloc, words)?;
    let trace = matches.get_flag("trace");
    chosen(alloc, &matches, trace)
}
