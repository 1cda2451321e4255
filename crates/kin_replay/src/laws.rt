//! A law of what words and files ask for, the contract of a function that does nothing.

ghost use Rattle.kin_replay.specs.Ends.{OneJobLaw};

use kin_script::text_laws;

/// The same words and files ask for the same job.
pub fn job_laws()
    ensures { OneJobLaw }
{
    text_laws();
}
