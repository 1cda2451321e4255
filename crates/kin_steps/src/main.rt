//! Reads cases from standard input, and prints what the world answers to each line. It is a tool for tests: tests/model.py says what
//! the lines are, and computes the same answers from the definitions.
#![tactic(auto)]

mod answers;
mod deltas;
mod faults;
mod lines;
mod opens;
mod results;
mod stores;
mod texts;

use crate::answers::answer;
use crate::faults::Fault;
use kin_world::World;
use std::alloc::Global;
use std::io;
use std::process::ExitCode;

fn read_fault(error: io::Error) -> Fault {
    if error.kind() == io::ErrorKind::OutOfMemory {
        Fault::Memory
    } else {
        Fault::Read
    }
}

// Answers each line that isn't empty and doesn't begin with `#`.
fn run<R: Input + Print + Alloc<A = Global>>(rt: &R) -> Result<(), Fault> {
    let mut world: Option<World> = None;
    for line in rt.lines(rt.alloc()) {
        let line = line.map_err(read_fault)?;
        if !line.is_empty() && !line.starts_with('#') {
            answer(rt, &mut world, line.as_str())?;
        }
    }
    Ok(())
}

fn main(rt: HostRuntime) -> ExitCode {
    match run(&rt) {
        Ok(()) => ExitCode::from(0),
        Err(Fault::Read) => ExitCode::from(4),
        Err(Fault::Write) => ExitCode::from(5),
        Err(Fault::Memory) => ExitCode::from(7),
    }
}
