// The text of a run.

ghost use Rattle.std.specs.Prelude.{◌≡◌, ◌-◌, ◌<◌, ◌≤◌, ◌++◌, ◌∷◌, [], length, map, take, decimal, OnOk, OnErr};
ghost use Rattle.std.specs.List.{All};
ghost use Rattle.std.specs.Fmt.{signed_decimal};
ghost use Rattle.kernel_terms.specs.Systems.{tables_of};
ghost use Rattle.kernel_terms.specs.TableEntries.{is_interface_of, interface_of, signal_at};
ghost use Rattle.sj_io.specs.definitions.Causes.{Rose};
ghost use Rattle.sj_io.specs.definitions.Sinks.{TakesMore, TakesPrefix};
ghost use Rattle.kernel_terms.specs.Limits.{most_signals};
ghost use Rattle.tick_log.specs.Prints.{Prints};
ghost use Rattle.kernel_terms.specs.Marks.{Mark, is_over};
ghost use Rattle.tick_log.specs.definitions.Runs.{entry_at};
ghost use Rattle.tick_log.specs.definitions.Containers.{logged};
ghost use Rattle.tick_log.specs.definitions.Holding.{run_state, HoldsRun};
ghost use Rattle.tick_log.specs.definitions.RunText.{truth_word, value_text, value_part, signal_text, signal_texts, interface_signals, tick_line, tick_lines, mark_word, domain_line, domain_lines, join_line, join_lines, channel_line, channel_lines, text_of_lines, run_text};

use crate::history::{History, JoinRow};
use crate::log::Log;
use crate::printer::Printer;
use crate::run::Run;
use java_values::Kind;
use kernel_terms::{ChannelInfo, MOST_SIGNALS, SignalInfo, System, Tables};
use sj_io::{Sink, WriteError};

/// Prints the text of a run. For each domain a line with its number, its ticks and whether it ended,
/// and then a line for each tick with its number, its stamp and the interface signals that were
/// present, with the values of the valued ones. For each channel a line with its name and its joins,
/// and then a line for each join with its number, its value, the ticks that the sender and the
/// receiver had made, and its stamp. `Fault` says that the sink failed; it has then taken a prefix of
/// the text.
#[tactic(auto, using(crate::proofs::PrinterTexts::print_steps))]
pub fn print<K: Sink>(run: &Run, system: &System, out: &mut K) -> Result<(), WriteError>
    requires { HoldsRun system.now run.now }
    ensures ok { OnOk result (TakesMore (K.taken out.old) (K.taken out.new)
        (run_text (tables_of system.now) (run_state run.now))) }
    ensures takes_prefix { OnErr result (TakesPrefix (K.taken out.old) (K.taken out.new)
        (run_text (tables_of system.now) (run_state run.now))) }
    ensures cause { OnErr result (Rose (K.faults out.old) (K.faults out.new)) }
    ensures later { K.faults out.old ≤ K.faults out.new }
{
    let mut printer = Printer::new();
    put_run(&mut printer, out, run, system);
    printer.finish(out)
}

fn put_run<K: Sink>(printer: &mut Printer, out: &mut K, run: &Run, system: &System)
    requires { HoldsRun system.now run.now }
    ensures { Prints K.taken K.faults printer.old printer.new out.old out.new
        (run_text (tables_of system.now) (run_state run.now)) }
{
    put_domains(printer, out, run, system);
    put_channels(printer, out, run, system);
}

#[tactic(auto, using(crate::proofs::LineTexts::domain_steps))]
fn put_domains<K: Sink>(printer: &mut Printer, out: &mut K, run: &Run, system: &System)
    requires { HoldsRun system.now run.now }
    ensures { Prints K.taken K.faults printer.old printer.new out.old out.new
        (text_of_lines (domain_lines (tables_of system.now) 0 (run_state run.now).logs)) }
{
    for (i, log) in run.domains.iter().enumerate() {
        put_domain(printer, out, system.tables(), i as u64, log);
    }
}

fn put_domain<K: Sink>(printer: &mut Printer, out: &mut K, tables: &Tables, domain: u64, log: &Log)
    requires signals { log.now.signals ≡ length (interface_of tables.now domain) }
    requires few { length (interface_of tables.now domain) ≤ most_signals }
    ensures { Prints K.taken K.faults printer.old printer.new out.old out.new
        (text_of_lines (domain_line domain (logged log.now) ∷
        tick_lines (interface_signals tables.now domain) 1 log.now.entries)) }
{
    put_head(printer, out, domain, log);
    let mut numbers = [0; MOST_SIGNALS];
    let many = list_interface(tables, domain, &mut numbers);
    put_ticks(printer, out, tables, &numbers[..many], log);
}

// Lists the numbers of the domain's interface signals, and answers how many there are.
#[tactic(auto, using(crate::proofs::InterfaceSignals::list_steps))]
fn list_interface(tables: &Tables, domain: u64, numbers: &mut [usize]) -> usize
    requires { length (interface_of tables.now domain) ≤ length numbers.old }
    ensures within { result ≤ length numbers.new }
    ensures size { length numbers.new ≡ length numbers.old }
    ensures numbers { take result numbers.new ≡ interface_of tables.now domain }
{
    let mut many = 0;
    for (i, signal) in tables.signals.as_slice().iter().enumerate() {
        if signal.is_of_interface(domain) {
            numbers[many] = i;
            many += 1;
        }
    }
    many
}

// `domain D ticks N` and how the domain stands.
fn put_head<K: Sink>(printer: &mut Printer, out: &mut K, domain: u64, log: &Log)
    ensures { Prints K.taken K.faults printer.old printer.new out.old out.new
        (domain_line domain (logged log.now) ++ 10 ∷ []) }
{
    printer.put(out, b"domain ");
    printer.put_number(out, domain);
    printer.put(out, b" ticks ");
    printer.put_number(out, u64::from(log.len()));
    put_word(printer, out, log.ended());
    printer.put(out, b"\n");
}

fn put_word<K: Sink>(printer: &mut Printer, out: &mut K, ended: bool)
    ensures { (mark : Mark) → ended ≡ is_over mark →
        Prints K.taken K.faults printer.old printer.new out.old out.new (mark_word mark) }
{
    if ended {
        printer.put(out, b" ended");
    } else {
        printer.put(out, b" paused");
    }
}

#[tactic(auto, using(crate::proofs::LineTexts::tick_steps))]
fn put_ticks<K: Sink>(printer: &mut Printer, out: &mut K, tables: &Tables, own: &[usize], log: &Log)
    requires signals { log.now.signals ≡ length own.now }
    requires known { All (λ n. n < length tables.now.signals) own.now }
    ensures { Prints K.taken K.faults printer.old printer.new out.old out.new
        (text_of_lines (tick_lines (map (signal_at tables.now) own.now) 1 log.now.entries)) }
{
    for i in 0..log.len() {
        put_tick(printer, out, tables, own, log, i + 1);
    }
}

// `T @STAMP` and the signals that were present.
fn put_tick<K: Sink>(
    printer: &mut Printer,
    out: &mut K,
    tables: &Tables,
    own: &[usize],
    log: &Log,
    tick: u32,
)
    requires signals { log.now.signals ≡ length own.now }
    requires known { All (λ n. n < length tables.now.signals) own.now }
    requires tick { (1 ≤ tick) × (tick ≤ length log.now.entries) }
    ensures { Prints K.taken K.faults printer.old printer.new out.old out.new
        (tick_line (map (signal_at tables.now) own.now) tick (entry_at log.now.entries (tick - 1))
        ++ 10 ∷ []) }
{
    printer.put_number(out, u64::from(tick));
    printer.put(out, b" @");
    printer.put_number(out, log.stamp(tick));
    put_signals(printer, out, tables, own, log, tick);
    printer.put(out, b"\n");
}

// The signals of these numbers that were present. The log has their statuses in this order.
#[tactic(auto, using(crate::proofs::LineTexts::signal_steps))]
fn put_signals<K: Sink>(
    printer: &mut Printer,
    out: &mut K,
    tables: &Tables,
    own: &[usize],
    log: &Log,
    tick: u32,
)
    requires signals { log.now.signals ≡ length own.now }
    requires known { All (λ n. n < length tables.now.signals) own.now }
    requires tick { (1 ≤ tick) × (tick ≤ length log.now.entries) }
    ensures { Prints K.taken K.faults printer.old printer.new out.old out.new
        (signal_texts (map (signal_at tables.now) own.now)
        (entry_at log.now.entries (tick - 1)).statuses) }
{
    let signals = tables.signals.as_slice();
    for i in 0..log.signals() {
        let number = own[i as usize];
        put_signal(printer, out, &signals[number], log.status(tick, i));
    }
}

#[tactic(auto, using(crate::proofs::PrinterTexts::put_steps))]
fn put_signal<K: Sink>(printer: &mut Printer, out: &mut K, signal: &SignalInfo, status: Option<i64>)
    ensures { Prints K.taken K.faults printer.old printer.new out.old out.new
        (signal_text signal.now status) }
{
    match status {
        Some(value) => put_present(printer, out, signal, value),
        None => {}
    }
}

// A space and `NAME`, or `NAME=VALUE`.
fn put_present<K: Sink>(printer: &mut Printer, out: &mut K, signal: &SignalInfo, value: i64)
    ensures { Prints K.taken K.faults printer.old printer.new out.old out.new
        (signal_text signal.now (Some value)) }
{
    printer.put(out, b" ");
    printer.put(out, signal.name.bytes());
    put_part(printer, out, signal.kind, value);
}

#[tactic(auto, using(crate::proofs::PrinterTexts::put_steps))]
fn put_part<K: Sink>(printer: &mut Printer, out: &mut K, kind: Option<Kind>, value: i64)
    ensures { Prints K.taken K.faults printer.old printer.new out.old out.new
        (value_part kind value) }
{
    match kind {
        Some(k) => put_valued(printer, out, k, value),
        None => {}
    }
}

fn put_valued<K: Sink>(printer: &mut Printer, out: &mut K, kind: Kind, value: i64)
    ensures { Prints K.taken K.faults printer.old printer.new out.old out.new
        (value_part (Some kind) value) }
{
    printer.put(out, b"=");
    put_value(printer, out, kind, value);
}

// `true` or `false` for the kind `boolean`, and else the number.
fn put_value<K: Sink>(printer: &mut Printer, out: &mut K, kind: Kind, value: i64)
    ensures { Prints K.taken K.faults printer.old printer.new out.old out.new
        (value_text kind value) }
{
    match kind {
        Kind::Boolean => put_truth(printer, out, value != 0),
        Kind::Byte | Kind::Short | Kind::Char | Kind::Int | Kind::Long => {
            printer.put_signed(out, value)
        }
    }
}

fn put_truth<K: Sink>(printer: &mut Printer, out: &mut K, truth: bool)
    ensures { Prints K.taken K.faults printer.old printer.new out.old out.new (truth_word truth) }
{
    if truth {
        printer.put(out, b"true");
    } else {
        printer.put(out, b"false");
    }
}

#[tactic(auto, using(crate::proofs::LineTexts::channel_steps))]
fn put_channels<K: Sink>(printer: &mut Printer, out: &mut K, run: &Run, system: &System)
    requires { HoldsRun system.now run.now }
    ensures { Prints K.taken K.faults printer.old printer.new out.old out.new
        (text_of_lines (channel_lines (tables_of system.now) 0 (run_state run.now).histories)) }
{
    let channels = system.tables().channels.as_slice();
    for (i, history) in run.channels.iter().enumerate() {
        put_channel(printer, out, &channels[i], history);
    }
}

fn put_channel<K: Sink>(
    printer: &mut Printer,
    out: &mut K,
    channel: &ChannelInfo,
    history: &History,
)
    ensures { Prints K.taken K.faults printer.old printer.new out.old out.new
        (text_of_lines (channel_line channel.now.name history.now.rows ∷
        join_lines channel.now.kind 1 history.now.rows)) }
{
    put_channel_head(printer, out, channel, history);
    put_joins(printer, out, channel.kind, history);
}

// `channel NAME K`
fn put_channel_head<K: Sink>(
    printer: &mut Printer,
    out: &mut K,
    channel: &ChannelInfo,
    history: &History,
)
    ensures { Prints K.taken K.faults printer.old printer.new out.old out.new
        (channel_line channel.now.name history.now.rows ++ 10 ∷ []) }
{
    printer.put(out, b"channel ");
    printer.put(out, channel.name.bytes());
    printer.put(out, b" ");
    printer.put_number(out, u64::from(history.len()));
    printer.put(out, b"\n");
}

#[tactic(auto, using(crate::proofs::LineTexts::join_steps))]
fn put_joins<K: Sink>(printer: &mut Printer, out: &mut K, kind: Kind, history: &History)
    ensures { Prints K.taken K.faults printer.old printer.new out.old out.new
        (text_of_lines (join_lines kind 1 history.now.rows)) }
{
    for i in 0..history.len() {
        put_join(printer, out, kind, i + 1, history.row(i + 1));
    }
}

// `J VALUE S R @STAMP`
fn put_join<K: Sink>(printer: &mut Printer, out: &mut K, kind: Kind, join: u32, row: JoinRow)
    ensures { Prints K.taken K.faults printer.old printer.new out.old out.new
        (join_line kind join row ++ 10 ∷ []) }
{
    printer.put_number(out, u64::from(join));
    printer.put(out, b" ");
    put_value(printer, out, kind, row.value);
    printer.put(out, b" ");
    printer.put_number(out, u64::from(row.sender_ticks));
    printer.put(out, b" ");
    printer.put_number(out, u64::from(row.receiver_ticks));
    printer.put(out, b" @");
    printer.put_number(out, row.stamp);
    printer.put(out, b"\n");
}
