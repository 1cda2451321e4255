//! The program `kineo`: a graph engine over feeds of follow, unfollow and tweet records.
#![tactic(auto)]

use kin_ids::{Status, Which};
use kin_io::{FileShelf, StdSink};
use kin_replay::{demo, replay};
use kin_words::{Command, pick};
use std::alloc::Global;
use std::process::ExitCode;
use std::rt::{Env, Files};
use std::{env, io};

// The words of the command line after the program's name. They are UTF-8, or no words of a command.
fn words_of<R: Env + Alloc<A = Global>>(rt: &R) -> Result<Vec<String>, Status> {
    match env::args(rt) {
        Ok(args) => args.skip(1).collect(rt.alloc()).map_err(|_| Status::Memory),
        Err(error) if error.kind() == io::ErrorKind::InvalidData => Err(Status::Usage),
        Err(_) => Err(Status::Memory),
    }
}

// Runs the command that the first word picks.
fn run<R: Files + Print + Alloc<A = Global>>(rt: &R, words: &[String]) -> Status {
    match (pick(words), words) {
        (Some(Command::Replay), [_, rest @ ..]) => replay(
            rt.alloc(),
            rest,
            &mut FileShelf::new(rt),
            &mut StdSink::new(rt),
        )
        .status,
        (Some(Command::Demo), [_, rest @ ..]) => {
            demo(rt.alloc(), rest, &mut StdSink::new(rt)).status
        }
        _ => Status::Usage,
    }
}

// How standard error names a quantity that is past its limit.
fn name_of(which: Which) -> &'static str {
    match which {
        Which::FeedBytes => "feed-bytes",
        Which::Records => "records",
        Which::ScriptBytes => "script-bytes",
        Which::ScriptLines => "script-lines",
    }
}

// What standard error shows of a status.
fn complain<R: Eprint>(rt: &R, status: Status) -> io::Result<()> {
    match status {
        Status::Done => Ok(()),
        Status::Usage => eprintln!(rt; "kineo: usage"),
        Status::Script { line } => eprintln!(rt; "kineo: script line {line}"),
        Status::Read => eprintln!(rt; "kineo: cannot read"),
        Status::Write => eprintln!(rt; "kineo: cannot write"),
        Status::Limit { which } => eprintln!(rt; "kineo: limit {}", name_of(which)),
        Status::Memory => eprintln!(rt; "kineo: no memory"),
    }
}

fn main(rt: HostRuntime) -> ExitCode {
    let status = match words_of(&rt) {
        Ok(words) => run(&rt, words.as_slice()),
        Err(status) => status,
    };
    // Where standard error fails as well, the exit status still tells.
    let _ = complain(&rt, status);
    ExitCode::from(status.exit())
}
