//! Standard output: a trusted edge.

ghost use Rattle.std.specs.Prelude.{◌≡◌, ◌<◌, ◌≤◌, ◌⊎◌, ℕ, List, length, Ok, IfOk, OnOk, OnErr, is_ok, is_err, true};
ghost use Rattle.kin_io.specs.Outside.{HasCause};
ghost use Rattle.kin_io.specs.Plans.{one_more};

use crate::sinks::Sink;
use kin_ids::Failed;
use std::io;
use std::io::Write;

/// Standard output. It tells nothing of the bytes, and a write that takes nothing is a fault.
#[derive(Drop)]
pub struct StdSink<'a, R> {
    rt: &'a R,
    faults: u64,
}

impl<'a, R: Print> StdSink<'a, R> {
    ghost use Rattle.kin_io.specs.Edges.{output_faults};

    /// No write has failed yet. It takes no memory.
    pub fn new(rt: &'a R) -> StdSink<'a, R>
        ensures { output_faults result ≡ 0 }
    {
        StdSink { rt, faults: 0 }
    }

    // Counts a fault.
    fn fail(&mut self) -> Failed
        ensures faults { output_faults self.new ≡ one_more (output_faults self.old) }
        ensures later { output_faults self.old ≤ output_faults self.new }
    {
        self.faults = self.faults.saturating_add(1);
        Failed
    }

    // What a write of so many bytes answers: as many as the system took. An error is a fault, and so is it where the system took none of some.
    fn wrote(&mut self, given: io::Result<usize>, len: usize) -> Result<usize, Failed>
        ensures given { IfOk given (λ n. (0 < n ⊎ (len ≡ 0)) → result ≡ Ok n) }
        ensures none { IfOk given (λ n. n ≡ 0 → 0 < len → is_err result ≡ true) }
        ensures error { OnErr given (is_err result ≡ true) }
        ensures cause { HasCause (output_faults self.old) (output_faults self.new) result }
    {
        match given {
            Ok(count) if count > 0 || len == 0 => Ok(count),
            _ => Err(self.fail()),
        }
    }

    // What a flush answers: an error is a fault.
    fn flushed(&mut self, given: io::Result<()>) -> Result<(), Failed>
        ensures given { OnOk given (is_ok result ≡ true) }
        ensures error { OnErr given (is_err result ≡ true) }
        ensures cause { HasCause (output_faults self.old) (output_faults self.new) result }
    {
        match given {
            Ok(()) => Ok(()),
            Err(_) => Err(self.fail()),
        }
    }
}

// Writes some of the bytes.
fn write_some<R: Print>(rt: &R, bytes: &[u8]) -> io::Result<usize>
    ensures { IfOk result (λ n. n ≤ length bytes.now) }
{
    io::writer(rt).write(bytes)
}

// Brings the bytes out.
fn flush_out<R: Print>(rt: &R) -> io::Result<()> {
    io::writer(rt).flush()
}

impl<'a, R: Print> Sink for StdSink<'a, R> {
    ghost use Rattle.std.specs.Prelude.{None};
    ghost use Rattle.kin_io.specs.Edges.{output_faults};

    ghost taken = { λ s. None };

    ghost flushed = { λ s. None };

    ghost faults = { λ s. output_faults s };

    fn put(&mut self, bytes: &[u8]) -> Result<usize, Failed> {
        let given = write_some(self.rt, bytes);
        self.wrote(given, bytes.len())
    }

    fn flush(&mut self) -> Result<(), Failed> {
        let given = flush_out(self.rt);
        self.flushed(given)
    }
}
