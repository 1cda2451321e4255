//! The line that the trace writes of an outcome.

ghost use Rattle.std.specs.Prelude.{◌≡◌, ◌++◌, ◌∷◌, [], IfOk, OnOk};
ghost use Rattle.std.specs.Fmt.{decimal};
ghost use Rattle.kin_script.specs.declared.outcomes.Outcome.TheVariants as Outcome;
ghost use Rattle.kin_report.specs.Trace.{outcome_words, refusal_words, trace_text};
ghost use Rattle.kin_report.specs.Written.{spaced_on};

use crate::words::{Word, push_words};
use kin_ids::{Memory, Stamp};
use kin_script::{Outcome, Refusal};
use std::alloc::Global;

fn push_name(text: &mut Vec<u8>, name: &[u8]) -> Result<(), Memory>
    ensures { OnOk result (text.new.items ≡ text.old.items ++ spaced_on (name.now ∷ [])) }
{
    push_words(text, [Word::Text(name)].as_slice())
}

fn push_named(text: &mut Vec<u8>, name: &[u8], n: u64) -> Result<(), Memory>
    ensures { OnOk result (text.new.items ≡ text.old.items ++ spaced_on (name.now ∷ decimal n ∷ [])) }
{
    push_words(text, [Word::Text(name), Word::Number(n)].as_slice())
}

fn push_stamp(text: &mut Vec<u8>, stamp: Stamp) -> Result<(), Memory>
    ensures { OnOk result (text.new.items ≡ text.old.items ++ spaced_on (outcome_words (Outcome.Stamped stamp))) }
{
    let words = [
        Word::Text(b"stamped"),
        Word::Number(u64::from(stamp.inc.0)),
        Word::Number(stamp.from),
        Word::Number(stamp.to),
    ];
    push_words(text, words.as_slice())
}

fn push_refusal(text: &mut Vec<u8>, why: Refusal) -> Result<(), Memory>
    ensures { OnOk result (text.new.items ≡ text.old.items ++ spaced_on (refusal_words why)) }
{
    match why {
        Refusal::Down => push_name(text, b"down"),
        Refusal::Up => push_name(text, b"up"),
        Refusal::Exhausted => push_name(text, b"exhausted"),
        Refusal::NotSent => push_name(text, b"not-sent"),
        Refusal::NotReported(part) => push_named(text, b"not-reported", u64::from(part.0)),
        Refusal::NothingCut => push_name(text, b"nothing-cut"),
        Refusal::NotCommitted(part) => push_named(text, b"not-committed", u64::from(part.0)),
        Refusal::NotBegun => push_name(text, b"not-begun"),
        Refusal::Busy(epoch) => push_named(text, b"busy", u64::from(epoch.0)),
        Refusal::IncarnationsSpent => push_name(text, b"spent"),
    }
}

fn push_outcome(text: &mut Vec<u8>, outcome: Outcome) -> Result<(), Memory>
    ensures { OnOk result (text.new.items ≡ text.old.items ++ spaced_on (outcome_words outcome)) }
{
    match outcome {
        Outcome::Stamped(stamp) => push_stamp(text, stamp),
        Outcome::Held(top) => push_named(text, b"held", top),
        Outcome::Early(top) => push_named(text, b"early", top),
        Outcome::Repeat => push_name(text, b"repeat"),
        Outcome::Stale(inc) => push_named(text, b"stale", u64::from(inc.0)),
        Outcome::Reported => push_name(text, b"reported"),
        Outcome::Raised(to) => push_named(text, b"raised", to),
        Outcome::Level(at) => push_named(text, b"level", at),
        Outcome::CutMade(epoch) => push_named(text, b"epoch", u64::from(epoch.0)),
        Outcome::Committed(epoch) => push_named(text, b"committed", u64::from(epoch.0)),
        Outcome::Begun(epoch) => push_named(text, b"begun", u64::from(epoch.0)),
        Outcome::Turned => push_name(text, b"turned"),
        Outcome::Mined(epoch) => push_named(text, b"mined", u64::from(epoch.0)),
        Outcome::Crashed => push_name(text, b"crashed"),
        Outcome::Restarted { inc, base } => {
            push_named(text, b"restarted", u64::from(inc.0))?;
            push_words(text, [Word::Number(base)].as_slice())
        }
        Outcome::Refused(why) => push_refusal(text, why),
    }
}

/// The line of an outcome, where an event of the schedule has this number. It costs as much as the line is long.
pub fn trace_line(alloc: Global, number: u64, outcome: &Outcome) -> Result<Vec<u8>, Memory>
    ensures { IfOk result (λ text. text.items ≡ trace_text number outcome.now) }
{
    let mut text = Vec::from_slice(alloc, b"#")?;
    push_words(&mut text, [Word::Number(number)].as_slice())?;
    push_outcome(&mut text, *outcome)?;
    text.push(b'\n')?;
    Ok(text)
}
