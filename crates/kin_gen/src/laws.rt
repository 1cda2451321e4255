//! Laws of the generated job, each the contract of a function that does nothing.

ghost use Rattle.kin_gen.specs.Laws as laws;
ghost use Rattle.kin_gen.specs.Worked as worked;

/// The feeds: nobody follows or unfollows itself, each feed has the records that are dealt to it, a line each, and
/// together they are within the limit of bytes.
pub fn feed_laws()
    ensures others { laws.OtherLaw }
    ensures records { laws.RecordsLaw }
    ensures lines { laws.LinesLaw }
    ensures small { laws.SmallLaw }
{}

/// The events: they are in range over three feeds and four partitions, no more than a schedule has room for, and their
/// rounds go on until no node has records left.
pub fn event_laws()
    ensures range { laws.RangeLaw }
    ensures few { laws.FewLaw }
    ensures ended { laws.EndLaw }
{}

/// Rows by hand: records, stamps and rounds of given draws.
pub fn worked_rows()
    ensures records { worked.RecordRows }
    ensures dealt { worked.DealtRows }
    ensures stamps { worked.StampRows }
    ensures rounds { worked.RoundRows }
{}
