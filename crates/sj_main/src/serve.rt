// The top call.

ghost use Rattle.std.specs.Prelude.{◌≡◌, ◌≢◌, ◌⊎◌, ◌≤◌, true, IfSome, codes};
ghost use Rattle.sj_io.specs.definitions.Causes.{Rose};
ghost use Rattle.sj_io.specs.definitions.Files.{CountsStay};
ghost use Rattle.sj_io.specs.definitions.Sinks.{TakesMore, TakesPrefix};
ghost use Rattle.tick_log.specs.Puts.{Puts};
ghost use Rattle.sj_main.specs.CommandWords.{AreFew};
ghost use Rattle.sj_main.specs.definitions.Answers.{PrintsRun, PrintsRefusal, PrintsUsage, PrintsMisfit, PrintsWeight, FailsToRead, BeginsAnswer};
ghost use Rattle.sj_main.specs.OrderSteps.{BeginsOrder, TellsWeight};
ghost use Rattle.sj_main.specs.definitions.Commands.{IsNoCommand, word_list, IsCommand};
ghost use Rattle.sj_main.specs.definitions.Verdicts.{fault_text, kind_place, kind_text, misfit_line, numbered_line, refusal_line, IsMisfit, OrdersSuch};

use crate::commands::{Turns, read_order};
use crate::order::{OrderError, order};
use itoa::Buffer;
use java_types::TypeFailure;
use java_values::NoMemory;
use sj_accept::Refusal;
use sj_io::{Files, Sink, write_all};
use sj_names::FailureKind;
use std::alloc::Global;
use tick_log::print;

const USAGE: &[u8] =
    b"usage: check FILE | order FILE TURNS INPUTS | run FILE TICKS INPUTS | verify FILE TICKS INPUTS RUN | gen NUMBER TICKS\n";

/// Writes one line, and answers its status, or 4 where the sink fails.
pub fn answer<K: Sink>(out: &mut K, line: &[u8], status: u8) -> u8
    requires { status ≢ 4 }
    ensures status { (result ≡ status) ⊎ (result ≡ 4) }
    ensures ok { result ≢ 4 → TakesMore (K.taken out.old) (K.taken out.new) line.now }
    ensures fault { result ≡ 4 → Rose (K.faults out.old) (K.faults out.new) }
    ensures takes_prefix { result ≡ 4 → TakesPrefix (K.taken out.old) (K.taken out.new) line.now }
{
    match write_all(out, line) {
        Ok(()) => status,
        Err(_) => 4,
    }
}

// Writes the bytes, unless a write before them failed.
fn put<K: Sink>(out: &mut K, ok: bool, bytes: &[u8]) -> bool
    ensures { Puts ok result (K.taken out.old) (K.taken out.new) (K.faults out.old)
        (K.faults out.new) bytes.now }
{
    if ok {
        write_all(out, bytes).is_ok()
    } else {
        false
    }
}

// Writes the line of a text and a number.
fn put_numbered<K: Sink>(out: &mut K, text: &[u8], number: u64) -> bool
    ensures { Puts true result (K.taken out.old) (K.taken out.new) (K.faults out.old)
        (K.faults out.new) (numbered_line text.now number) }
{
    let mut buffer = Buffer::new();
    let begun = put(out, true, text);
    let told = put(out, begun, buffer.format(number).as_bytes());
    put(out, told, b"\n")
}

// Writes the line of a text and a number, and answers its status, or 4 where the sink fails.
fn answer_numbered<K: Sink>(out: &mut K, text: &[u8], number: u64, status: u8) -> u8
    requires { status ≢ 4 }
    ensures status { (result ≡ status) ⊎ (result ≡ 4) }
    ensures ok { result ≢ 4 →
        TakesMore (K.taken out.old) (K.taken out.new) (numbered_line text.now number) }
    ensures fault { result ≡ 4 → Rose (K.faults out.old) (K.faults out.new) }
    ensures takes_prefix { result ≡ 4 →
        TakesPrefix (K.taken out.old) (K.taken out.new) (numbered_line text.now number) }
{
    if put_numbered(out, text, number) {
        status
    } else {
        4
    }
}

// What stands before the place of a failure of names.
fn fault_text(fault: FailureKind) -> &'static [u8]
    ensures { result.now ≡ fault_text fault }
{
    match fault {
        FailureKind::Unknown => b"refused Unknown at ",
        FailureKind::Twice => b"refused Twice at ",
        FailureKind::SignalShared => b"refused SignalShared at ",
        FailureKind::EmitInput => b"refused EmitInput at ",
        FailureKind::ChannelEnds => b"refused ChannelEnds at ",
        FailureKind::TooMany => b"refused TooMany at ",
    }
}

// What stands before the place of a failure of kinds.
fn kind_text(failure: TypeFailure) -> &'static [u8]
    ensures { result.now ≡ kind_text failure }
{
    match failure {
        TypeFailure::Mismatch(_) => b"refused Mismatch at ",
        TypeFailure::Divisor(_) => b"refused Divisor at ",
    }
}

fn kind_place(failure: TypeFailure) -> u32
    ensures { result ≡ kind_place failure }
{
    match failure {
        TypeFailure::Mismatch(at) => at,
        TypeFailure::Divisor(at) => at,
    }
}

// Writes the line of a refusal, and answers its status, or 4 where the sink fails.
fn answer_refusal<K: Sink>(out: &mut K, refusal: Refusal) -> u8
    ensures status { (result ≡ 1) ⊎ (result ≡ 4) }
    ensures ok { result ≢ 4 → TakesMore (K.taken out.old) (K.taken out.new) (refusal_line refusal) }
    ensures fault { result ≡ 4 → Rose (K.faults out.old) (K.faults out.new) }
    ensures takes_prefix { result ≡ 4 →
        TakesPrefix (K.taken out.old) (K.taken out.new) (refusal_line refusal) }
{
    match refusal {
        Refusal::BadByte(at) => answer_numbered(out, b"refused BadByte at ", u64::from(at), 1),
        Refusal::BadNumber(at) => answer_numbered(out, b"refused BadNumber at ", u64::from(at), 1),
        Refusal::OpenComment(at) => {
            answer_numbered(out, b"refused OpenComment at ", u64::from(at), 1)
        }
        Refusal::Syntax(at) => answer_numbered(out, b"refused Syntax at ", u64::from(at), 1),
        Refusal::TooDeep(at) => answer_numbered(out, b"refused TooDeep at ", u64::from(at), 1),
        Refusal::Names(failure) => {
            answer_numbered(out, fault_text(failure.fault), u64::from(failure.at), 1)
        }
        Refusal::Kinds(failure) => {
            answer_numbered(out, kind_text(failure), u64::from(kind_place(failure)), 1)
        }
        Refusal::Later => answer(out, b"refused Later\n", 1),
    }
}

// Runs the order of a file and turns.
fn serve_order<F: Files, K: Sink>(
    alloc: Global,
    file: &str,
    turns: &Turns,
    files: &mut F,
    out: &mut K,
) -> u8
    requires { AreFew turns.now }
    ensures statuses { (result ≤ 5) ⊎ (result ≡ 7) }
    ensures done { result ≡ 0 →
        IfSome (F.told files.old file.now)
        (λ bytes. PrintsRun bytes turns.now (K.taken out.old) (K.taken out.new)) }
    ensures refused { result ≡ 1 →
        IfSome (F.told files.old file.now)
        (λ bytes. PrintsRefusal bytes (K.taken out.old) (K.taken out.new)) }
    ensures misfit { result ≡ 2 →
        IfSome (F.told files.old file.now) (λ bytes. IsMisfit bytes turns.now) ×
        TakesMore (K.taken out.old) (K.taken out.new) misfit_line }
    ensures read_fault { result ≡ 3 →
        Rose (F.faults files.old file.now) (F.faults files.new file.now) ×
        TakesMore (K.taken out.old) (K.taken out.new) (codes "read fault\n") }
    ensures write_fault { result ≡ 4 →
        Rose (K.faults out.old) (K.faults out.new) ×
        BeginsOrder (F.told files.old file.now) turns.now file.now (F.faults files.old)
        (F.faults files.new) (K.taken out.old) (K.taken out.new) }
    ensures no_memory { result ≡ 5 →
        TakesMore (K.taken out.old) (K.taken out.new) (codes "no memory\n") }
    ensures counts_stay { result ≢ 3 → result ≢ 4 →
        CountsStay (F.faults files.old) (F.faults files.new) }
    ensures weight { result ≡ 7 →
        TellsWeight (F.told files.old file.now) turns.now (K.taken out.old) (K.taken out.new) }
{
    match order(alloc, file, turns, files) {
        Ok(made) => match print(&made.run, &made.system, out) {
            Ok(()) => 0,
            Err(_) => 4,
        },
        Err(OrderError::Fault) => answer(out, b"read fault\n", 3),
        Err(OrderError::Size) => answer(out, b"refused Size\n", 1),
        Err(OrderError::Refused(refusal)) => answer_refusal(out, refusal),
        Err(OrderError::DomainsDoNotFit) => answer(out, b"domains do not fit\n", 2),
        Err(OrderError::OverWeight(weight)) => answer_numbered(
            out,
            b"over the run weight ",
            weight,
            7,
        ),
        Err(OrderError::NoMemory) => answer(out, b"no memory\n", 5),
    }
}

/// Does the command of the words over the files and the sink, and answers the status:
///
/// - 0: the sink took the text of the run of the turns;
/// - 1: the source is refused, and the sink took the line of the refusal;
/// - 2: the words are no command, and the sink took the usage line; or a turn is one of no domain of
///   the source, and it took `domains do not fit`;
/// - 3: a read of the named file failed, and the sink took `read fault`;
/// - 4: a write failed, and the sink took a prefix of the text;
/// - 5: an allocation was refused, and the sink took `no memory`;
/// - 7: the run would weigh more than 4,000,000, and the sink took the line that tells its weight.
#[tactic(auto, using(crate::proofs::ReadTurns::orders_few))]
pub fn serve_plain<F: Files, K: Sink>(
    alloc: Global,
    words: &[String],
    files: &mut F,
    out: &mut K,
) -> u8
    ensures statuses { (result ≤ 5) ⊎ (result ≡ 7) }
    ensures done { result ≡ 0 →
        OrdersSuch (word_list words.now) (F.told files.old)
        (λ bytes turns. PrintsRun bytes turns (K.taken out.old) (K.taken out.new)) }
    ensures refused { result ≡ 1 →
        OrdersSuch (word_list words.now) (F.told files.old)
        (λ bytes turns. PrintsRefusal bytes (K.taken out.old) (K.taken out.new)) }
    ensures no_run { result ≡ 2 →
        PrintsUsage (word_list words.now) (K.taken out.old) (K.taken out.new)
        ⊎ PrintsMisfit (word_list words.now) (F.told files.old) (K.taken out.old) (K.taken out.new) }
    ensures usage { IsNoCommand (word_list words.now) → (result ≡ 2) ⊎ (result ≡ 4) }
    ensures read_fault { result ≡ 3 →
        FailsToRead (word_list words.now) (F.faults files.old) (F.faults files.new) ×
        TakesMore (K.taken out.old) (K.taken out.new) (codes "read fault\n") }
    ensures write_fault { result ≡ 4 →
        Rose (K.faults out.old) (K.faults out.new) ×
        BeginsAnswer (word_list words.now) (F.told files.old) (F.faults files.old)
        (F.faults files.new) (K.taken out.old) (K.taken out.new) }
    ensures no_memory { result ≡ 5 →
        IsCommand (word_list words.now) ×
        TakesMore (K.taken out.old) (K.taken out.new) (codes "no memory\n") }
    ensures counts_stay { result ≢ 3 → result ≢ 4 →
        CountsStay (F.faults files.old) (F.faults files.new) }
    ensures unread { IsNoCommand (word_list words.now) →
        CountsStay (F.faults files.old) (F.faults files.new) }
    ensures weight { result ≡ 7 →
        PrintsWeight (word_list words.now) (F.told files.old) (K.taken out.old) (K.taken out.new) }
{
    match read_order(alloc, words) {
        Ok(Some(order)) => serve_order(alloc, order.file, &order.turns, files, out),
        Ok(None) => answer(out, USAGE, 2),
        Err(NoMemory) => answer(out, b"no memory\n", 5),
    }
}
