//! The text of a schedule.

ghost use Rattle.std.specs.Prelude.{◌≡◌, ◌<◌, ◌≤◌, map, length, All, IfOk, IfErr, OnOk};
ghost use Rattle.kin_line.specs.Lines.{lines, text_at, IsWithin};
ghost use Rattle.kin_script.specs.Schedules.{is_silent, IsScript, IsFirstOutside, OneTextLaw};
ghost use Rattle.kin_script.specs.Ends.{IfLine, IsNotTooLong, IsWithinLimit, TakesLine, FailsAt};

use crate::events::Line;
use crate::readers::event_of;
use kin_line::{Span, lines};
use std::alloc::Global;
use thiserror::Error;

/// Why a schedule could not be read.
#[derive(Clone, Copy, Debug, PartialEq, Eq, Error)]
pub enum ScriptFault {
    /// It has more than 1048576 lines.
    #[error("too many lines")]
    TooLong,
    /// This line, counted from 1, is the first that gives no event and isn't silent.
    #[error("line {0} is none of a schedule")]
    Line(u64),
    /// There was not enough memory.
    #[error("out of memory")]
    Memory,
}

// The most lines of a schedule.
const LINES: usize = 1048576;

fn is_silent(line: &[u8]) -> bool
    ensures { result ≡ is_silent line.now }
{
    line.is_empty() || line[0] == b'#'
}

// Appends the event of a line, where it gives one.
fn push_line(
    script: &mut Vec<Line>,
    line: &[u8],
    number: u64,
    nodes: u16,
    parts: u16,
) -> Result<(), ScriptFault>
    ensures ok { OnOk result (TakesLine nodes parts number line.now script.old.items script.new.items) }
    ensures line { IfErr result (FailsAt nodes parts number line.now) }
{
    if is_silent(line) {
        return Ok(());
    }
    let Some(event) = event_of(line, nodes, parts) else {
        return Err(ScriptFault::Line(number));
    };
    let Ok(()) = script.push(Line { number, event }) else {
        return Err(ScriptFault::Memory);
    };
    Ok(())
}

// The events of the lines in these spans.
fn read_lines(
    alloc: Global,
    bytes: &[u8],
    spans: &[Span],
    nodes: u16,
    parts: u16,
) -> Result<Vec<Line>, ScriptFault>
    requires spans { map (text_at bytes.now) spans.now ≡ lines bytes.now }
    requires within { All (IsWithin bytes.now) spans.now }
    ensures ok { IfOk result (λ script. IsScript nodes parts bytes.now script.items) }
    ensures line { IfErr result (IfLine (IsFirstOutside nodes parts bytes.now)) }
    ensures few { IfErr result IsNotTooLong }
{
    let mut script = Vec::new(alloc);
    for index in 0..spans.len() {
        let span = spans[index];
        let line = &bytes[span.from..span.to];
        push_line(&mut script, line, index as u64 + 1, nodes, parts)?;
    }
    Ok(script)
}

/// The events of a schedule with the numbers of their lines, over so many nodes and partitions. Its cost is linear in the bytes.
pub fn read_script(
    alloc: Global,
    bytes: &[u8],
    nodes: u16,
    parts: u16,
) -> Result<Vec<Line>, ScriptFault>
    ensures ok { IfOk result (λ script. IsScript nodes parts bytes.now script.items) }
    ensures line { IfErr result (IfLine (IsFirstOutside nodes parts bytes.now)) }
    ensures few { IsWithinLimit (length (lines bytes.now)) result }
{
    let Ok(spans) = lines(alloc, bytes) else {
        return Err(ScriptFault::Memory);
    };
    if spans.len() > LINES {
        return Err(ScriptFault::TooLong);
    }
    read_lines(alloc, bytes, spans.as_slice(), nodes, parts)
}

/// No two events in range have one text.
pub fn text_laws()
    ensures { OneTextLaw }
{}
