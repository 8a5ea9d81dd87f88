ghost use Rattle.std.specs.Prelude.{◌≡◌, ◌≤◌, List, ℕ, Option, length, IfOk, OnErr};
ghost use Rattle.sj_io.specs.definitions.Causes.{Rose};
ghost use Rattle.sj_io.specs.definitions.Sinks.{Takes};

use crate::files::Failed;

/// What takes bytes, as standard output does.
pub trait Sink {
    /// The bytes taken so far, where they are told.
    ghost taken: { Self → Option (List ℕ) };

    /// How many calls have failed, up to 2^64 - 1.
    ghost faults: { Self → ℕ };

    /// Takes the first bytes of the buffer, at least one where it has one, and answers how many. A
    /// call that fails takes nothing.
    fn write(&mut self, buf: &[u8]) -> Result<usize, Failed>
        ensures bound { IfOk result (λ n. n ≤ length buf.now) }
        ensures moves { IfOk result (λ n. 1 ≤ length buf.now → 1 ≤ n) }
        ensures takes { Takes (taken self.old) (taken self.new) result buf.now }
        ensures later { faults self.old ≤ faults self.new }
        ensures cause { OnErr result (Rose (faults self.old) (faults self.new)) };
}
