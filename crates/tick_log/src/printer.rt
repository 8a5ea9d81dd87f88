ghost use Rattle.std.specs.Prelude.{◌≡◌, true, decimal, [], OnOk, is_ok};
ghost use Rattle.std.specs.Fmt.{signed_decimal};
ghost use Rattle.sj_io.specs.definitions.Gathers.{waiting};
ghost use Rattle.tick_log.specs.Prints.{Prints};

use itoa::Buffer;
use sj_io::{Gathered, Sink, WriteError};

/// What of a text waits for the sink, and whether all went well so far. Once the sink has failed,
/// nothing more is put.
#[derive(Drop)]
pub struct Printer {
    gathered: Gathered,
    good: bool,
}

impl Printer {
    /// Nothing waits, and all is well.
    pub fn new() -> Printer
        ensures waits { waiting result.gathered ≡ [] }
        ensures good { result.good ≡ true }
    {
        Printer {
            gathered: Gathered::new(),
            good: true,
        }
    }

    /// Puts the bytes.
    pub fn put<K: Sink>(&mut self, out: &mut K, bytes: &[u8])
        ensures { Prints K.taken K.faults self.old self.new out.old out.new bytes.now }
    {
        if self.good {
            self.good = self.gathered.put(out, bytes).is_ok();
        }
    }

    /// Puts the number in decimal.
    pub fn put_number<K: Sink>(&mut self, out: &mut K, n: u64)
        ensures { Prints K.taken K.faults self.old self.new out.old out.new (decimal n) }
    {
        let mut buffer = Buffer::new();
        self.put(out, buffer.format(n).as_bytes());
    }

    /// Puts the number in decimal.
    pub fn put_signed<K: Sink>(&mut self, out: &mut K, n: i64)
        ensures { Prints K.taken K.faults self.old self.new out.old out.new (signed_decimal n) }
    {
        let mut buffer = Buffer::new();
        self.put(out, buffer.format(n).as_bytes());
    }

    /// Has the sink take what waits, unless it has failed.
    #[tactic(auto, using(crate::proofs::PrinterTexts::flush_steps))]
    pub fn finish<K: Sink>(&mut self, out: &mut K) -> Result<(), WriteError>
        ensures prints { Prints K.taken K.faults self.old self.new out.old out.new [] }
        ensures all { OnOk result (waiting self.new.gathered ≡ []) }
        ensures good { self.new.good ≡ is_ok result }
    {
        if !self.good {
            return Err(WriteError::Fault);
        }
        let flushed = self.gathered.flush(out);
        self.good = flushed.is_ok();
        flushed
    }
}
