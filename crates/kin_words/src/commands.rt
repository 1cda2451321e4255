//! The commands.

ghost use Rattle.std.specs.Prelude.{◌≡◌, map, string_bytes};
ghost use Rattle.kin_words.specs.Commands.{command_of, picked};

/// A command of the program.
#[derive(Clone, Copy, Debug, PartialEq, Eq)]
pub enum Command {
    /// Runs a schedule over feeds.
    Replay,
    /// Runs a job that is made from a number.
    Demo,
}

fn command_of(word: &str) -> Option<Command>
    ensures { result ≡ command_of word.now }
{
    if word == "replay" {
        Some(Command::Replay)
    } else if word == "demo" {
        Some(Command::Demo)
    } else {
        None
    }
}

/// The command that the first word names. None where there is no word, or none of a command. It takes no memory.
pub fn pick(words: &[String]) -> Option<Command>
    ensures { result ≡ picked (map string_bytes words.now) }
{
    command_of(words.first()?.as_str())
}
