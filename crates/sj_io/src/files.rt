ghost use Rattle.std.specs.Prelude.{◌≡◌, ◌≤◌, List, ℕ, Option, length, IfOk, IfSome, OnOk, OnErr};
ghost use Rattle.sj_io.specs.definitions.Causes.{Rose};
ghost use Rattle.sj_io.specs.definitions.Files.{ReadsAt, CountsApart, CountsStay};

/// A call of the outside failed. Its count of faults says so too.
#[derive(Clone, Copy, Debug, PartialEq, Eq)]
pub struct Failed;

/// Named files that can be read. A missing file is a fault.
pub trait Files {
    /// The known names. Each has a count of faults of its own.
    ghost known: { Self → List (List ℕ) };

    /// The bytes of the file of a name, where they are told.
    ghost told: { Self → List ℕ → Option (List ℕ) };

    /// How many calls of a name have failed, up to 2^64 - 1. All names that aren't known share one
    /// count.
    ghost faults: { Self → List ℕ → ℕ };

    /// Reads into the buffer from byte `at` of the file on, and answers how many bytes it read.
    /// 0 bytes into a buffer that isn't empty is the end of the file.
    fn read(&mut self, name: &str, at: u64, buf: &mut [u8]) -> Result<usize, Failed>
        ensures known { known self.new ≡ known self.old }
        ensures told { (other : List ℕ) → told self.new other ≡ told self.old other }
        ensures bound { IfOk result (λ n. n ≤ length buf.new) }
        ensures bytes { IfOk result (λ n. IfSome (told self.old name.now)
            (λ all. ReadsAt all at n buf.new)) }
        ensures later { (other : List ℕ) → faults self.old other ≤ faults self.new other }
        ensures apart { (other : List ℕ) → CountsApart (known self.old) name.now other →
            faults self.new other ≡ faults self.old other }
        ensures cause { OnErr result (Rose (faults self.old name.now) (faults self.new name.now)) }
        ensures counts_stay { OnOk result (CountsStay (faults self.old) (faults self.new)) };
}
