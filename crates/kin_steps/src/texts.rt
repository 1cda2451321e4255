//! Answers as texts.

use kin_hub::{Cut, End};
use kin_script::{Outcome, Refusal};
use std::fmt;

/// An answer, printed as a trace prints it.
#[derive(Clone, Copy, Debug, PartialEq, Eq)]
pub(crate) struct Told(pub(crate) Outcome);

#[derive(Clone, Copy, Debug, PartialEq, Eq)]
struct Why(Refusal);

/// A cut, printed with its epoch and where each node ends.
#[derive(Clone, Copy, Debug)]
pub(crate) struct Vector<'a>(pub(crate) &'a Cut);

#[derive(Clone, Copy, Debug, PartialEq, Eq)]
struct Entry(End);

impl fmt::Display for Vector<'_> {
    fn fmt<W: fmt::Write>(&self, f: &mut fmt::Formatter<W>) -> fmt::Result {
        write!(f, "epoch {}", self.0.epoch.0)?;
        for end in self.0.ends.as_slice() {
            write!(f, " {}", Entry(*end))?;
        }
        Ok(())
    }
}

impl fmt::Display for Entry {
    fn fmt<W: fmt::Write>(&self, f: &mut fmt::Formatter<W>) -> fmt::Result {
        match self.0.to {
            0 => write!(f, "-"),
            to => write!(f, "{}@{to}", self.0.inc.0),
        }
    }
}

impl fmt::Display for Told {
    fn fmt<W: fmt::Write>(&self, f: &mut fmt::Formatter<W>) -> fmt::Result {
        match self.0 {
            Outcome::Stamped(stamp) => {
                write!(f, "stamped {} {} {}", stamp.inc.0, stamp.from, stamp.to)
            }
            Outcome::Held(top) => write!(f, "held {top}"),
            Outcome::Early(top) => write!(f, "early {top}"),
            Outcome::Repeat => write!(f, "repeat"),
            Outcome::Stale(inc) => write!(f, "stale {}", inc.0),
            Outcome::Reported => write!(f, "reported"),
            Outcome::Raised(to) => write!(f, "raised {to}"),
            Outcome::Level(at) => write!(f, "level {at}"),
            Outcome::CutMade(epoch) => write!(f, "epoch {}", epoch.0),
            Outcome::Committed(epoch) => write!(f, "committed {}", epoch.0),
            Outcome::Begun(epoch) => write!(f, "begun {}", epoch.0),
            Outcome::Turned => write!(f, "turned"),
            Outcome::Mined(epoch) => write!(f, "mined {}", epoch.0),
            Outcome::Crashed => write!(f, "crashed"),
            Outcome::Restarted { inc, base } => write!(f, "restarted {} {base}", inc.0),
            Outcome::Refused(refusal) => write!(f, "{}", Why(refusal)),
        }
    }
}

impl fmt::Display for Why {
    fn fmt<W: fmt::Write>(&self, f: &mut fmt::Formatter<W>) -> fmt::Result {
        match self.0 {
            Refusal::Down => write!(f, "down"),
            Refusal::Up => write!(f, "up"),
            Refusal::Exhausted => write!(f, "exhausted"),
            Refusal::NotSent => write!(f, "not-sent"),
            Refusal::NotReported(part) => write!(f, "not-reported {}", part.0),
            Refusal::NothingCut => write!(f, "nothing-cut"),
            Refusal::NotCommitted(part) => write!(f, "not-committed {}", part.0),
            Refusal::NotBegun => write!(f, "not-begun"),
            Refusal::Busy(epoch) => write!(f, "busy {}", epoch.0),
            Refusal::IncarnationsSpent => write!(f, "spent"),
        }
    }
}
