//! Words and lines of words, appended to a text.

ghost use Rattle.std.specs.Prelude.{◌≡◌, ◌++◌, ◌∷◌, map, OnOk};
ghost use Rattle.std.specs.Fmt.{decimal};
ghost use Rattle.kin_report.specs.Text.{line_of};
ghost use Rattle.kin_report.specs.Written.{spaced_on, word_text};

use itoa::Buffer;
use kin_ids::Memory;

/// A word of a line.
#[derive(Clone, Copy, Debug)]
pub(crate) enum Word<'a> {
    Text(&'a [u8]),
    Number(u64),
}

pub(crate) fn push_number(text: &mut Vec<u8>, n: u64) -> Result<(), Memory>
    ensures { OnOk result (text.new.items ≡ text.old.items ++ decimal n) }
{
    text.extend_from_slice(Buffer::new().format(n).as_bytes())?;
    Ok(())
}

fn push_word(text: &mut Vec<u8>, word: Word<'_>) -> Result<(), Memory>
    ensures { OnOk result (text.new.items ≡ text.old.items ++ word_text word.entry) }
{
    match word {
        Word::Text(bytes) => text.extend_from_slice(bytes)?,
        Word::Number(n) => push_number(text, n)?,
    }
    Ok(())
}

/// Appends words, each behind a space.
pub(crate) fn push_words(text: &mut Vec<u8>, words: &[Word<'_>]) -> Result<(), Memory>
    ensures { OnOk result (text.new.items ≡ text.old.items ++ spaced_on (map word_text words.now)) }
{
    for word in words {
        text.push(b' ')?;
        push_word(text, *word)?;
    }
    Ok(())
}

/// Appends the line of a name and of words. It is the one writer of lines that are known beforehand.
#[tactic(auto, using(crate::proofs::Lines::written))]
pub(crate) fn push_line(text: &mut Vec<u8>, name: &[u8], words: &[Word<'_>]) -> Result<(), Memory>
    ensures { OnOk result (text.new.items ≡ text.old.items ++ line_of (name.now ∷ map word_text words.now)) }
{
    text.extend_from_slice(name)?;
    push_words(text, words)?;
    text.push(b'\n')?;
    Ok(())
}
