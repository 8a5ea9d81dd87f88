// Bytes that are gathered for a sink.

ghost use Rattle.std.specs.Prelude.{◌≡◌, ◌+◌, ◌-◌, ◌<◌, ◌≤◌, ◌++◌, [], length, take, min, OnOk, OnErr};
ghost use Rattle.sj_io.specs.definitions.Causes.{Rose};

use crate::sink::Sink;
use crate::whole::WriteError;

const ROOM: usize = 4096;

/// Bytes that wait for a sink, up to 4,096 of them, so that many short texts make few calls.
#[derive(Drop)]
pub struct Gathered {
    buffer: [u8; 4096],
    from: usize,
    to: usize,
    ghost within: { from ≤ to },
    ghost fits: { to ≤ 4096 },
}

impl Gathered {
    ghost use Rattle.sj_io.specs.definitions.Gathers.{waiting, Gathers, GathersPrefix};

    /// No byte waits.
    pub fn new() -> Gathered
        ensures { waiting result ≡ [] }
    {
        Gathered {
            buffer: [0; 4096],
            from: 0,
            to: 0,
        }
    }

    // Keeps the first bytes, as many as there is room for, and answers how many.
    fn keep(&mut self, bytes: &[u8]) -> usize
        ensures count { result ≡ min (length bytes.now) (4096 - self.old.to) }
        ensures kept { waiting self.new ≡ waiting self.old ++ take result bytes.now }
    {
        let n = bytes.len().min(ROOM - self.to);
        let end = self.to + n;
        self.buffer[self.to..end].copy_from_slice(&bytes[..n]);
        self.to = end;
        n
    }

    // Has the sink take all that waits, where the room is used up.
    #[tactic(auto, using(crate::proofs::GatheringLemmas::gathers_nothing))]
    fn make_room<K: Sink>(&mut self, out: &mut K) -> Result<(), WriteError>
        ensures room { OnOk result (self.new.to < 4096) }
        ensures hands { Gathers (K.taken out.old) (K.taken out.new) (waiting self.old)
            (waiting self.new) [] }
        ensures cause { OnErr result (Rose (K.faults out.old) (K.faults out.new)) }
        ensures later { K.faults out.old ≤ K.faults out.new }
    {
        if self.to < ROOM {
            Ok(())
        } else {
            self.flush(out)
        }
    }

    /// Puts the bytes behind those that wait. Where the room is used up, the sink takes what waits.
    /// After a `Fault` a prefix of the bytes was put, and no byte is lost.
    #[tactic(auto, using(crate::proofs::GatheringLemmas::gathers_fitting))]
    pub fn put<K: Sink>(&mut self, out: &mut K, bytes: &[u8]) -> Result<(), WriteError>
        ensures ok { OnOk result (Gathers (K.taken out.old) (K.taken out.new) (waiting self.old)
            (waiting self.new) bytes.now) }
        ensures puts_prefix { OnErr result (GathersPrefix (K.taken out.old) (K.taken out.new)
            (waiting self.old) (waiting self.new) bytes.now) }
        ensures cause { OnErr result (Rose (K.faults out.old) (K.faults out.new)) }
        ensures later { K.faults out.old ≤ K.faults out.new }
    {
        if bytes.len() <= ROOM - self.to {
            self.keep(bytes);
            return Ok(());
        }
        self.put_parts(out, bytes)
    }

    // Puts the bytes, as many at a time as there is room for.
    #[tactic(auto, using(crate::proofs::GatheringLemmas::put_steps))]
    fn put_parts<K: Sink>(&mut self, out: &mut K, bytes: &[u8]) -> Result<(), WriteError>
        ensures ok { OnOk result (Gathers (K.taken out.old) (K.taken out.new) (waiting self.old)
            (waiting self.new) bytes.now) }
        ensures puts_prefix { OnErr result (GathersPrefix (K.taken out.old) (K.taken out.new)
            (waiting self.old) (waiting self.new) bytes.now) }
        ensures cause { OnErr result (Rose (K.faults out.old) (K.faults out.new)) }
        ensures later { K.faults out.old ≤ K.faults out.new }
    {
        let mut done = 0;
        while done < bytes.len() {
            if self.make_room(out).is_err() {
                return Err(WriteError::Fault);
            }
            done += self.keep(&bytes[done..]);
        }
        Ok(())
    }

    /// Has the sink take all that waits. After a `Fault` it has taken a prefix of it, and the rest waits.
    #[tactic(auto, using(crate::proofs::GatheringLemmas::flush_steps))]
    pub fn flush<K: Sink>(&mut self, out: &mut K) -> Result<(), WriteError>
        ensures room { OnOk result (self.new.to ≡ 0) }
        ensures empty { OnOk result (waiting self.new ≡ []) }
        ensures hands { Gathers (K.taken out.old) (K.taken out.new) (waiting self.old)
            (waiting self.new) [] }
        ensures cause { OnErr result (Rose (K.faults out.old) (K.faults out.new)) }
        ensures later { K.faults out.old ≤ K.faults out.new }
    {
        while self.from < self.to {
            match out.write(&self.buffer[self.from..self.to]) {
                Ok(n) => self.from += n,
                Err(_) => return Err(WriteError::Fault),
            }
        }
        self.from = 0;
        self.to = 0;
        Ok(())
    }
}
