//! Worked rows of the rules, each the contract of a function that does nothing.

ghost use Rattle.kin_rules.specs.Rows.{ChainRow, DetourRow, LaunchRow, LimitsRow, RingRow, UsesRow};

/// Each rule on small graphs, as computed from the definitions.
pub fn worked_rows()
    ensures limits { LimitsRow }
    ensures chain { ChainRow }
    ensures uses { UsesRow }
    ensures ring { RingRow }
    ensures detour { DetourRow }
    ensures launch { LaunchRow }
{}
