//! New numbers of wires.

ghost use Rattle.std.specs.Prelude.{◌≡◌, ◌≢◌, ℕ, Option, Some, None, IfOk, slice_index_or};
ghost use Rattle.tick_code.specs.Numbers.{number_of, renaming_of, HasPlace, HavePlaces, IsFresh};

use crate::wire_counts::WireCounts;
use java_values::NoMemory;
use std::alloc::Global;

const HIGH_START: u32 = 1 << 31;

/// The new numbers of wires, in one table for each of their two counters.
#[derive(Drop)]
pub struct Numbers {
    low: Vec<Option<u32>>,
    high: Vec<Option<u32>>,
}

fn entry(table: &[Option<u32>], place: u32) -> Option<u32>
    ensures { result ≡ slice_index_or table.now place None }
{
    match table.get(place as usize) {
        Some(number) => *number,
        None => None,
    }
}

impl Numbers {
    /// Tables for so many wires, of which none has a new number yet.
    pub(crate) fn new(alloc: Global, counts: WireCounts) -> Result<Numbers, NoMemory>
        ensures { IfOk result (λ n. IsFresh counts.low counts.high n) }
    {
        let low = vec![in alloc; None; counts.low as usize]?;
        let high = vec![in alloc; None; counts.high as usize]?;
        Ok(Numbers { low, high })
    }

    /// The new number of a wire, if it has one.
    pub fn get(&self, wire: u32) -> Option<u32>
        ensures { result ≡ number_of self.now wire }
    {
        if wire < HIGH_START {
            entry(&self.low, wire)
        } else {
            entry(&self.high, wire - HIGH_START)
        }
    }

    /// The new number of a wire that has one, and 0 for any other.
    pub fn renamed(&self, wire: u32) -> u32
        ensures { result ≡ renaming_of (number_of self.now) wire }
    {
        self.get(wire).unwrap_or(0)
    }

    /// Gives the wire this number.
    pub(crate) fn set(&mut self, wire: u32, number: u32)
        requires { HasPlace self.old wire }
        ensures own { number_of self.new wire ≡ Some number }
        ensures others { (k : ℕ) → k ≢ wire → number_of self.new k ≡ number_of self.old k }
        ensures places { HavePlaces self.old self.new }
    {
        if wire < HIGH_START {
            self.low[wire as usize] = Some(number);
        } else {
            self.high[(wire - HIGH_START) as usize] = Some(number);
        }
    }
}
