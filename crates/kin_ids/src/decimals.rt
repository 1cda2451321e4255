//! Numbers as decimal texts.

ghost use Rattle.std.specs.Prelude.{◌≡◌, ◌^◌};
ghost use Rattle.kin_ids.specs.Texts as texts;

/// The number below 2^64 whose decimal text this is: no sign, no leading zero. Its cost is the text's length.
pub fn read_decimal(bytes: &[u8]) -> Option<u64>
    ensures { result ≡ texts.number_of (2 ^ 64) bytes.now }
{
    if has_needless_front(bytes) {
        return None;
    }
    let text = std::str::from_utf8(bytes).ok()?;
    text.parse().ok()
}

// Whether a plus, or a zero before more, stands in front.
fn has_needless_front(text: &[u8]) -> bool
    ensures { result ≡ texts.has_needless_front text.now }
{
    text.starts_with(b"+") || (text.starts_with(b"0") && text.len() > 1)
}
