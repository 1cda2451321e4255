//! Named files.

ghost use Rattle.std.specs.Prelude.{◌≡◌, ◌≤◌, IfOk, OnOk, List, ℕ, Option};
ghost use Rattle.kin_io.specs.Outside.{HasCause, ReadsAt};

use kin_ids::Failed;

/// Named files. No call changes the bytes of a name.
pub trait Shelf {
    /// The bytes of a name, where the shelf tells them.
    ghost content: { Self → List ℕ → Option (List ℕ) };

    /// How often a call on a name failed. It never falls, and stands still at 2^64 - 1.
    ghost faults: { Self → List ℕ → ℕ };

    /// Reads bytes of a name from a place on into the front of the buffer, and answers how many: 0
    /// only at the end of the file or with an empty buffer.
    fn read_at(&mut self, name: &str, at: u64, buf: &mut [u8]) -> Result<usize, Failed>
        ensures content { (n : List ℕ) → content self.new n ≡ content self.old n }
        ensures reads { IfOk result (λ n. ReadsAt (content self.old name.now) at n buf.old buf.new) }
        ensures counts { (n : List ℕ) → faults self.old n ≤ faults self.new n }
        ensures cause { HasCause (faults self.old name.now) (faults self.new name.now) result }
        ensures calm { OnOk result ((n : List ℕ) → faults self.new n ≡ faults self.old n) };
}
