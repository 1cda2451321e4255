//! The run of a job.

ghost use Rattle.std.specs.Prelude.{◌≡◌, true, option_map};
ghost use Rattle.kin_io.specs.Outside.{Rose};
ghost use Rattle.kin_replay.specs.Jobs.{IsReady};
ghost use Rattle.kin_replay.specs.Ends.{JobEnds};
ghost use Rattle.kin_replay.specs.Loaded.{job_of};

use crate::blocks::Printing;
use crate::jobs::Job;
use crate::plays::{Stop, play_all};
use crate::replays::Run;
use kin_ids::Status;
use kin_io::Sink;
use kin_world::World;
use std::alloc::Global;

/// Runs the schedule and its drain, and writes what they print.
pub(crate) fn run_job<O: Sink>(alloc: Global, job: Job, out: &mut O) -> Run
    requires ready { IsReady (job_of job) }
    ensures ends { JobEnds (job_of job) (O.taken out.old) (O.taken out.new) result.status result.world }
    ensures flushed { result.status ≡ Status.Done → O.flushed out.new ≡ option_map (λ _. true) (O.flushed out.old) }
    ensures cause { result.status ≡ Status.Write → Rose (O.faults out.old) (O.faults out.new) }
    ensures calm { (result.status ≡ Status.Write → ⊥) → O.faults out.new ≡ O.faults out.old }
{
    let printing = Printing {
        options: job.options,
        trace: job.trace,
    };
    let landmarks = printing.options.landmarks.as_slice();
    let Ok(mut world) = World::open(alloc, job.feeds, job.parts, landmarks) else {
        return Run {
            status: Status::Memory,
            world: None,
        };
    };
    let status = match play_all(alloc, &mut world, &printing, job.lines.as_slice(), out) {
        Ok(()) => Status::Done,
        Err(Stop::Write) => Status::Write,
        Err(Stop::Memory) => Status::Memory,
    };
    Run {
        status,
        world: Some(world),
    }
}
