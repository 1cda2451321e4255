//! The lines of a text.

ghost use Rattle.std.specs.Prelude.{◌≡◌, ◌-◌, ◌<◌, ◌≤◌, map, take, drop, length, All, IfOk, OnOk};
ghost use Rattle.std.specs.Str.Lines.{strip_carriage_return};
ghost use Rattle.kin_line.specs.Lines.{lines, text_at, IsWithin};

use kin_ids::Memory;
use std::alloc::Global;

/// A part of a text, from one place up to another.
#[derive(Clone, Copy, Debug, PartialEq, Eq)]
pub struct Span {
    /// The index of its first byte.
    pub from: usize,
    /// The index after its last byte.
    pub to: usize,
}

// The line from one place up to its LF. A CR before the LF isn't part of it.
fn line_before(bytes: &[u8], from: usize, end: usize) -> Span
    requires ordered { from ≤ end }
    requires within { end ≤ length bytes.now }
    ensures text { text_at bytes.now result ≡ strip_carriage_return (take (end - from) (drop from bytes.now)) }
    ensures within { IsWithin bytes.now result }
{
    let has_return = from < end && bytes[end - 1] == b'\r';
    let to = if has_return { end - 1 } else { end };
    Span { from, to }
}

/// The lines of a text: they end at LF, a CR before it isn't part of the line, the last one may lack its LF, and no empty line
/// follows a final LF. Its cost is the text's length.
pub fn lines(alloc: Global, bytes: &[u8]) -> Result<Vec<Span>, Memory>
    ensures lines { IfOk result (λ spans. map (text_at bytes.now) spans.items ≡ lines bytes.now) }
    ensures within { IfOk result (λ spans. All (IsWithin bytes.now) spans.items) }
{
    let mut spans = Vec::new(alloc);
    let mut from = 0;
    for end in 0..bytes.len() {
        if bytes[end] == b'\n' {
            spans.push(line_before(bytes, from, end))?;
            from = end + 1;
        }
    }
    if from < bytes.len() {
        spans.push(Span {
            from,
            to: bytes.len(),
        })?;
    }
    Ok(spans)
}
