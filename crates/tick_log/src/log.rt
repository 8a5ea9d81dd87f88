ghost use Rattle.std.specs.Prelude.{◌≡◌, ◌+◌, ◌-◌, ◌^◌, ◌<◌, ◌≤◌, [], ◌∷◌, ◌++◌, length, max, IfOk, IsOk, IsErr, IsTrue, cond, slice_index_or, Some, None, vec_len, vec_capacity};
ghost use Rattle.kernel_terms.specs.Marks.{Going, Ended, is_over};
ghost use Rattle.tick_log.specs.definitions.Runs.{statuses_of, entry_at};

use java_values::NoMemory;
use std::alloc::Global;
use std::marker::Model;

/// The ticks of a domain: their stamps, which interface signals were present in each and with which
/// values, and whether the domain has ended. Its memory is taken when it is opened and where more is
/// reserved.
#[derive(Drop)]
pub struct Log {
    stamps: Vec<u64>,
    statuses: Vec<Option<i64>>,
    signals: u32,
    room: u32,
    ended: bool,
}

impl Model for Log {
    ghost use Rattle.std.specs.Prelude.{cond};
    ghost use Rattle.kernel_terms.specs.Marks.{Going, Ended};
    ghost use Rattle.tick_log.specs.definitions.Containers.{LogState};
    ghost use Rattle.tick_log.specs.Logs.{entries_of, Keeps};

    ghost Value = { LogState };

    ghost view = { λ l. record {
      entries = entries_of l.signals l.stamps.items l.statuses.items;
      mark = cond l.ended Ended Going;
      signals = l.signals;
      room = l.room;
    } };

    ghost invariant = { λ l. Keeps l.stamps l.statuses l.signals l.room l.ended };
}

impl Log {
    /// An empty log over so many signals, with room for so many ticks. The memory of all of them is
    /// taken here: `NoMemory` says that it was refused.
    pub fn open(alloc: Global, signals: u32, ticks: u32) -> Result<Log, NoMemory>
        ensures log { IfOk result (λ log. log ≡
            record { entries = []; mark = Going; signals = signals; room = ticks }) }
        ensures empty { ticks ≡ 0 → IsOk result }
    {
        let stamps = Vec::with_capacity(alloc, ticks as usize)?;
        let statuses = Vec::with_capacity(alloc, signals as usize * ticks as usize)?;
        Ok(Log {
            stamps,
            statuses,
            signals,
            room: ticks,
            ended: false,
        })
    }

    /// Takes memory for at least so many ticks more: `NoMemory` says that it was refused.
    pub fn reserve(&mut self, ticks: u32) -> Result<(), NoMemory>
        requires { length self.old.entries + ticks < 2 ^ 32 }
        ensures reserved { IfOk result (λ _. self.new ≡
            record self.old { room = max self.old.room ticks }) }
        ensures unchanged { IsErr result → self.new ≡ self.old }
    {
        if ticks <= self.room {
            return Ok(());
        }
        self.stamps.reserve(ticks as usize)?;
        self.statuses
            .reserve(self.signals as usize * ticks as usize)?;
        self.room = ticks;
        Ok(())
    }

    /// Adds a tick: its stamp, for each signal whether it was present and its value, which counts only
    /// where it was, and whether the domain ended in it. It takes no memory.
    pub fn push(&mut self, stamp: u64, present: &[bool], values: &[i64], ended: bool)
        requires room { 1 ≤ self.old.room }
        requires present { length present.now ≡ self.old.signals }
        requires values { length values.now ≡ self.old.signals }
        ensures { self.new ≡ record {
          entries = self.old.entries ++
              record { stamp = stamp; statuses = statuses_of present.now values.now } ∷ [];
          mark = cond ended Ended Going;
          signals = self.old.signals;
          room = self.old.room - 1;
        } }
    {
        append(&mut self.statuses, present, values);
        self.stamps.push_reserved(stamp);
        self.ended = ended;
        self.room -= 1;
    }

    /// The number of ticks.
    pub fn len(&self) -> u32
        ensures { result ≡ length self.now.entries }
    {
        self.stamps.len() as u32
    }

    /// Whether the domain ended in its last tick.
    pub fn ended(&self) -> bool
        ensures mark { result ≡ is_over self.now.mark }
        ensures entry { IsTrue result → 1 ≤ length self.now.entries }
    {
        self.ended
    }

    /// The number of interface signals.
    pub fn signals(&self) -> u32
        ensures { result ≡ self.now.signals }
    {
        self.signals
    }

    /// The stamp of a tick. Ticks count from 1.
    pub fn stamp(&self, tick: u32) -> u64
        requires { (1 ≤ tick) × (tick ≤ length self.now.entries) }
        ensures { result ≡ (entry_at self.now.entries (tick - 1)).stamp }
    {
        self.stamps[tick as usize - 1]
    }

    /// The value of a signal in a tick, where it was present. Ticks count from 1, signals from 0.
    pub fn status(&self, tick: u32, signal: u32) -> Option<i64>
        requires tick { (1 ≤ tick) × (tick ≤ length self.now.entries) }
        requires signal { signal < self.now.signals }
        ensures { result ≡
            slice_index_or (entry_at self.now.entries (tick - 1)).statuses signal None }
    {
        let before = self.signals as usize * (tick as usize - 1);
        self.statuses[before + signal as usize]
    }
}

// Adds the statuses of one tick, into memory that is there already.
#[tactic(auto, using(crate::proofs::StatusLemmas::status_steps))]
fn append(statuses: &mut Vec<Option<i64>>, present: &[bool], values: &[i64])
    requires same { length present.now ≡ length values.now }
    requires room { vec_len statuses.old + length present.now ≤ vec_capacity statuses.old }
    ensures items { statuses.new.items ≡ statuses.old.items ++ statuses_of present.now values.now }
    ensures len { vec_len statuses.new ≡ vec_len statuses.old + length present.now }
    ensures capacity { vec_capacity statuses.old ≤ vec_capacity statuses.new }
{
    for (i, is_present) in present.iter().enumerate() {
        statuses.push_reserved(is_present.then_some(values[i]));
    }
}
