ghost use Rattle.std.specs.Prelude.{◌≡◌, [], None, IfOk, OnErr, MatchBool};
ghost use Rattle.signal_store.specs.definitions.Handed.{handed, IsAdded, IsRefused};

use java_values::NoMemory;
use std::alloc::Global;
use std::collections::BTreeMap;
use std::marker::Model;

/// A signal, and a tick of its domain.
#[derive(Clone, Copy, Debug, PartialEq, Eq, PartialOrd, Ord, Drop)]
struct Moment {
    signal: u32,
    tick: u32,
}

/// What is handed in from outside: for each signal, and each tick of its domain, a number or nothing.
#[derive(Drop)]
pub struct Inputs {
    numbers: BTreeMap<Moment, i64>,
}

impl Model for Inputs {
    ghost use Rattle.std.specs.Prelude.{List, ℤ};
    ghost use Rattle.signal_store.specs.declared.inputs.Moment.{Moment};

    ghost Value = { List (Moment × ℤ) };

    ghost view = { λ i. i.numbers.entries };
}

impl Inputs {
    /// Nothing is handed in.
    pub fn new(alloc: Global) -> Inputs
        ensures { result ≡ [] }
    {
        Inputs {
            numbers: BTreeMap::new(alloc),
        }
    }

    /// Hands in a number for the signal at the tick. The answer is false, and nothing changes, exactly
    /// where a number is there.
    pub fn add(&mut self, signal: u32, tick: u32, n: i64) -> Result<bool, NoMemory>
        ensures ok { IfOk result (λ added. MatchBool added (IsAdded self.old self.new signal tick n)
            (IsRefused self.old self.new signal tick)) }
        ensures err { OnErr result (self.new ≡ self.old) }
    {
        if self.at(signal, tick).is_some() {
            return Ok(false);
        }
        let moment = Moment { signal, tick };
        if self.numbers.insert(moment, n).is_err() {
            return Err(NoMemory);
        }
        Ok(true)
    }

    /// The number that is handed in for the signal at the tick.
    pub fn at(&self, signal: u32, tick: u32) -> Option<i64>
        ensures { result ≡ handed self.now signal tick }
    {
        self.numbers.get(&Moment { signal, tick }).copied()
    }
}
