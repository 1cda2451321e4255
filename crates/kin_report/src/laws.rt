//! Laws of the texts, each the contract of a function that does nothing.

ghost use Rattle.kin_report.specs.TraceLaws.{TraceTexts};

/// The line of each outcome, whatever values it shows.
pub fn trace_laws()
    ensures { TraceTexts }
{}
