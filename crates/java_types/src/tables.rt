ghost use Rattle.std.specs.Prelude.{◌≡◌};
ghost use Rattle.kernel_terms.specs.TableEntries.{signal_at, channel_at, variable_at};
ghost use Rattle.java_types.specs.definitions.Operands.{entry_expression};

use java_values::Kind;
use kernel_terms::{Expr, ExprForm, Tables};
use sj_names::TableEntry;

/// The kind of the signal of this number; none where it is pure.
#[tactic(auto, using(crate::proofs::EntryLemmas::entries))]
pub fn signal_kind(tables: &Tables, signal: u32) -> Option<Kind>
    ensures { result ≡ (signal_at tables.now signal).kind }
{
    match tables.signals.as_slice().get(signal as usize) {
        Some(info) => info.kind,
        None => None,
    }
}

/// The kind of the channel of this number.
#[tactic(auto, using(crate::proofs::EntryLemmas::entries))]
pub fn channel_kind(tables: &Tables, channel: u32) -> Kind
    ensures { result ≡ (channel_at tables.now channel).kind }
{
    match tables.channels.as_slice().get(channel as usize) {
        Some(info) => info.kind,
        None => Kind::Int,
    }
}

/// The kind of the variable of this number.
#[tactic(auto, using(crate::proofs::EntryLemmas::entries))]
pub fn variable_kind(tables: &Tables, variable: u32) -> Kind
    ensures { result ≡ (variable_at tables.now variable).kind }
{
    match tables.variables.as_slice().get(variable as usize) {
        Some(info) => info.kind,
        None => Kind::Int,
    }
}

/// The value of an entry; none for a pure signal.
pub fn entry_expression(tables: &Tables, entry: TableEntry) -> Option<Expr>
    ensures { result ≡ entry_expression tables.now entry }
{
    match entry {
        TableEntry::Signal(signal) => {
            let kind = signal_kind(tables, signal)?;
            Some(Expr {
                kind,
                form: ExprForm::Signal(signal),
            })
        }
        TableEntry::Channel(channel) => Some(Expr {
            kind: channel_kind(tables, channel),
            form: ExprForm::Channel(channel),
        }),
        TableEntry::Variable(variable) => Some(Expr {
            kind: variable_kind(tables, variable),
            form: ExprForm::Variable(variable),
        }),
    }
}
