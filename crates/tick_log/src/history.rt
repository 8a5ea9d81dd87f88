ghost use Rattle.std.specs.Prelude.{◌≡◌, ◌-◌, ◌≤◌, [], ◌∷◌, ◌++◌, length, IfOk, IsOk};
ghost use Rattle.tick_log.specs.definitions.Runs.{row_at};

use java_values::NoMemory;
use std::alloc::Global;
use std::marker::Model;

/// A join of a channel: the sender's value, the numbers of ticks that the sending and the receiving
/// domain had made, and its stamp.
#[derive(Clone, Copy, Debug, Drop, PartialEq, Eq)]
pub struct JoinRow {
    pub value: i64,
    pub sender_ticks: u32,
    pub receiver_ticks: u32,
    pub stamp: u64,
}

/// The joins of a channel, by rising number. All its memory is taken when it is opened.
#[derive(Drop)]
pub struct History {
    rows: Vec<JoinRow>,
    room: u32,
}

impl Model for History {
    ghost use Rattle.tick_log.specs.definitions.Containers.{HistoryState};
    ghost use Rattle.tick_log.specs.Logs.{KeepsRows};

    ghost Value = { HistoryState };

    ghost view = { λ h. record { rows = h.rows.items; room = h.room } };

    ghost invariant = { λ h. KeepsRows h.rows h.room };
}

impl History {
    /// An empty history with room for so many joins. The memory of all of them is taken here:
    /// `NoMemory` says that it was refused.
    pub fn open(alloc: Global, joins: u32) -> Result<History, NoMemory>
        ensures history { IfOk result (λ h. h ≡ record { rows = []; room = joins }) }
        ensures empty { joins ≡ 0 → IsOk result }
    {
        let rows = Vec::with_capacity(alloc, joins as usize)?;
        Ok(History { rows, room: joins })
    }

    /// Adds a join behind the others. It takes no memory.
    pub fn push(&mut self, row: JoinRow)
        requires { 1 ≤ self.old.room }
        ensures { self.new ≡ record {
          rows = self.old.rows ++ row ∷ [];
          room = self.old.room - 1;
        } }
    {
        self.rows.push_reserved(row);
        self.room -= 1;
    }

    /// The number of joins.
    pub fn len(&self) -> u32
        ensures { result ≡ length self.now.rows }
    {
        self.rows.len() as u32
    }

    /// A join. Joins count from 1.
    pub fn row(&self, join: u32) -> JoinRow
        requires { (1 ≤ join) × (join ≤ length self.now.rows) }
        ensures { result ≡ row_at self.now.rows (join - 1) }
    {
        self.rows[join as usize - 1]
    }
}
