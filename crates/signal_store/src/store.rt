ghost use Rattle.std.specs.Prelude.{◌≡◌, ◌<◌, ◌↔◌, IfOk, IsTrue, length, map, slice_set};
ghost use Rattle.java_values.specs.Kinds.{IsInRange};
ghost use Rattle.signal_store.specs.definitions.Registers.{kinds_of, numbers_of, zero_of, kind_at, number_at};

use java_values::{Kind, NoMemory, Value};
use std::alloc::Global;
use std::marker::Model;

/// One number for each register of a domain, in the register's kind.
#[derive(Drop)]
pub struct Store {
    registers: Vec<Value>,
}

impl Model for Store {
    ghost use Rattle.std.specs.Prelude.{List};
    ghost use Rattle.java_values.specs.Kinds.{TypedNumber};

    ghost Value = { List TypedNumber };

    ghost view = { λ s. s.registers.items };
}

// The value of a number that is in the kind's range.
fn value(kind: Kind, n: i64) -> Value
    requires { IsInRange kind n }
    ensures kind { result.kind ≡ kind }
    ensures number { result.number ≡ n }
{
    Value::new(kind, n).unwrap()
}

fn zero(kind: Kind) -> Value
    ensures { result ≡ zero_of kind }
{
    value(kind, 0)
}

impl Store {
    /// Registers of these kinds, each with the number 0. No other call takes memory.
    pub fn open(alloc: Global, kinds: &[Kind]) -> Result<Store, NoMemory>
        ensures { IfOk result (λ store. store ≡ map zero_of kinds.now) }
    {
        let mut registers = Vec::with_capacity(alloc, kinds.len())?;
        for &kind in kinds {
            registers.push(zero(kind))?;
        }
        Ok(Store { registers })
    }

    /// How many registers there are.
    pub fn len(&self) -> usize
        ensures { result ≡ length self.now }
    {
        self.registers.len()
    }

    /// Whether there is no register.
    pub fn is_empty(&self) -> bool
        ensures { IsTrue result ↔ (length self.now ≡ 0) }
    {
        self.registers.is_empty()
    }

    /// The kind of a register.
    pub fn kind(&self, at: usize) -> Kind
        requires { at < length self.now }
        ensures { result ≡ kind_at self.now at }
    {
        self.registers[at].kind()
    }

    /// The number of a register, which is in the register's kind.
    pub fn get(&self, at: usize) -> i64
        requires { at < length self.now }
        ensures number { result ≡ number_at self.now at }
        ensures range { IsInRange (kind_at self.now at) result }
    {
        self.registers[at].number()
    }

    /// Gives a register another number of its kind. All else stays.
    #[tactic(auto, using(crate::proofs::RegisterLemmas::setting))]
    pub fn set(&mut self, at: usize, n: i64)
        requires place { at < length self.old }
        requires range { IsInRange (kind_at self.old at) n }
        ensures numbers { numbers_of self.new ≡ slice_set (numbers_of self.old) at n }
        ensures kinds { kinds_of self.new ≡ kinds_of self.old }
    {
        self.registers[at] = value(self.registers[at].kind(), n);
    }
}
