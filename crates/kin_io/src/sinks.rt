//! Where bytes go.

ghost use Rattle.std.specs.Prelude.{◌≡◌, ◌<◌, ◌≤◌, ℕ, Bool, true, List, length, take, Option, option_map, IfOk, OnOk, OnErr};
ghost use Rattle.kin_io.specs.Outside.{Grew, GrewBy, GrewBySome, flushed_after, FlushedAfterSome, HasCause};

use kin_ids::Failed;

/// Where bytes go. A new sink is flushed.
pub trait Sink {
    /// The bytes that were taken so far, where the sink tells them.
    ghost taken: { Self → Option (List ℕ) };

    /// Whether all of them are flushed, where the sink tells it.
    ghost flushed: { Self → Option Bool };

    /// How often a call failed. It never falls, and stands still at 2^64 - 1.
    ghost faults: { Self → ℕ };

    /// Takes a prefix of the bytes, at least one byte where there is one, and answers its length.
    fn put(&mut self, bytes: &[u8]) -> Result<usize, Failed>
        ensures some { IfOk result (λ n. 0 < length bytes.now → 0 < n) }
        ensures took { IfOk result (GrewBy (taken self.old) (taken self.new) bytes.now) }
        ensures unflushes { IfOk result (λ n. flushed self.new ≡ flushed_after n (flushed self.old)) }
        ensures failed { OnErr result (taken self.new ≡ taken self.old) }
        ensures failed_flushed { OnErr result (flushed self.new ≡ flushed self.old) }
        ensures cause { HasCause (faults self.old) (faults self.new) result };

    /// Brings out the bytes that were taken. It takes none.
    fn flush(&mut self) -> Result<(), Failed>
        ensures taken { taken self.new ≡ taken self.old }
        ensures ok { OnOk result (flushed self.new ≡ option_map (λ _. true) (flushed self.old)) }
        ensures failed { OnErr result (flushed self.new ≡ flushed self.old) }
        ensures cause { HasCause (faults self.old) (faults self.new) result };
}

/// Puts all bytes. It takes no memory, and each turn takes a byte or ends.
pub fn put_all<O: Sink>(sink: &mut O, bytes: &[u8]) -> Result<(), Failed>
    ensures ok { OnOk result (Grew (O.taken sink.old) (O.taken sink.new) bytes.now) }
    ensures ok_flushed { OnOk result
        (O.flushed sink.new ≡ flushed_after (length bytes.now) (O.flushed sink.old)) }
    ensures err { OnErr result (GrewBySome (O.taken sink.old) (O.taken sink.new) bytes.now) }
    ensures err_flushed { OnErr result
        (FlushedAfterSome (O.flushed sink.old) (O.flushed sink.new) bytes.now) }
    ensures cause { HasCause (O.faults sink.old) (O.faults sink.new) result }
{
    let mut at = 0;
    while at < bytes.len() {
        at += sink.put(&bytes[at..])?;
    }
    Ok(())
}
