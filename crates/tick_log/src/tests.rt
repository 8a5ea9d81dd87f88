ghost use Rattle.std.specs.Prelude.{◌≡◌, ◌≤◌, true, [], ◌∷◌, length, IfOk, codes};
ghost use Rattle.kernel_terms.specs.Systems.{tables_of, domains_of};
ghost use Rattle.kernel_terms.specs.WellFormed.{is_well_formed};
ghost use Rattle.kernel_terms.specs.TableEntries.{channel_at, interface_of};
ghost use Rattle.tick_log.specs.definitions.Containers.{logged};
ghost use Rattle.tick_log.specs.definitions.Fits.{IsLog, IsHistory};

use crate::{History, JoinRow, Log, Run, print};
use java_values::{Kind, NoMemory, Text};
use kernel_terms::{ChannelInfo, Combine, Form, SignalInfo, Sort, System, Tables, Term};
use sj_io::{Failed, MemSink, Sink, WriteError};
use sqlite_items::{Boxed, Items};
use std::alloc::Global;
use std::test::Fail;

fn signal(
    alloc: Global,
    name: &[u8],
    domain: u32,
    sort: Sort,
    kind: Option<Kind>,
    combine: Combine,
) -> Result<SignalInfo, NoMemory>
    ensures { IfOk result (λ s. s ≡
        record { name = name.now; domain = domain; sort = sort; kind = kind; combine = combine }) }
{
    let name = Text::new(alloc, name)?;
    Ok(SignalInfo {
        name,
        domain,
        sort,
        kind,
        combine,
    })
}

// A statement of this form.
fn term(form: Form) -> Term
    ensures { result ≡ record { at = 0; form = form } }
{
    Term { at: 0, form }
}

// The system of these signals and channels, whose domains are these statements.
fn system_of(
    alloc: Global,
    domains: Vec<Term>,
    signals: Vec<SignalInfo>,
    channels: Vec<ChannelInfo>,
) -> System
    requires well_formed { is_well_formed (record {
      signals = signals.items;
      channels = channels.items;
      variables = [];
    }) domains.items ≡ true }
    ensures tables { tables_of result ≡
        record { signals = signals.items; channels = channels.items; variables = [] } }
    ensures domains { domains_of result ≡ domains.items }
{
    let tables = Tables {
        signals: Items::from_vec(signals),
        channels: Items::from_vec(channels),
        variables: Items::new(alloc),
    };
    System::new(tables, Items::from_vec(domains))
}

// A sink of 128 bytes that takes 5 bytes a call. The calls of these numbers fail.
fn sink_of(alloc: Global, fail: &[u64]) -> Result<MemSink, NoMemory> {
    let fail = fail.to_vec(alloc)?;
    let space = [0u8; 128].to_vec(alloc)?;
    Ok(MemSink::new(5, fail, space))
}

#[test]
fn a_log_gives_back_what_was_pushed(rt: HostRuntime) -> Result<(), Fail> {
    let mut log = Log::open(rt.alloc(), 2, 3)?;
    log.push(1, &[true, false], &[7, 8], false);
    log.push(4, &[false, true], &[5, -2], true);
    assert_eq!(rt; log.len(), 2);
    assert_eq!(rt; log.signals(), 2);
    assert!(rt; log.ended());
    assert_eq!(rt; log.stamp(1), 1);
    assert_eq!(rt; log.stamp(2), 4);
    assert_eq!(rt; log.status(1, 0), Some(7));
    assert_eq!(rt; log.status(1, 1), None);
    assert_eq!(rt; log.status(2, 0), None);
    assert_eq!(rt; log.status(2, 1), Some(-2));
    Ok(())
}

#[test]
fn a_log_takes_ticks_that_were_reserved_later(rt: HostRuntime) -> Result<(), Fail> {
    let mut log = Log::open(rt.alloc(), 1, 1)?;
    log.push(1, &[true], &[7], false);
    log.reserve(2)?;
    log.push(3, &[false], &[0], false);
    log.push(4, &[true], &[8], true);
    assert_eq!(rt; log.len(), 3);
    assert_eq!(rt; log.stamp(1), 1);
    assert_eq!(rt; log.status(1, 0), Some(7));
    assert_eq!(rt; log.stamp(2), 3);
    assert_eq!(rt; log.status(2, 0), None);
    assert_eq!(rt; log.stamp(3), 4);
    assert_eq!(rt; log.status(3, 0), Some(8));
    Ok(())
}

#[test]
fn a_history_keeps_its_rows_in_order(rt: HostRuntime) -> Result<(), Fail> {
    let first = JoinRow {
        value: -3,
        sender_ticks: 1,
        receiver_ticks: 2,
        stamp: 4,
    };
    let second = JoinRow {
        value: 9,
        sender_ticks: 5,
        receiver_ticks: 3,
        stamp: 8,
    };
    let mut history = History::open(rt.alloc(), 3)?;
    history.push(first);
    history.push(second);
    assert_eq!(rt; history.len(), 2);
    assert_eq!(rt; history.row(1), first);
    assert_eq!(rt; history.row(2), second);
    Ok(())
}

// One domain, over the signal `A`.
fn one_signal(alloc: Global) -> Result<System, NoMemory>
    ensures tables { IfOk result (λ s. tables_of s ≡
        record {
          signals = record {
            name = codes "A";
            domain = 0;
            sort = Sort.Output;
            kind = None;
            combine = Combine.Max;
          } ∷ [];
          channels = [];
          variables = [];
        }) }
    ensures domains { IfOk result (λ s. length (domains_of s) ≡ 1) }
{
    let a = signal(alloc, b"A", 0, Sort::Output, None, Combine::Max)?;
    let signals = vec![in alloc; a]?;
    let domains = vec![in alloc; term(Form::Nothing)]?;
    Ok(system_of(alloc, domains, signals, Vec::new(alloc)))
}

// One domain, over the signals `A` and `B`.
fn two_signals(alloc: Global) -> Result<System, NoMemory>
    ensures tables { IfOk result (λ s. tables_of s ≡
        record {
          signals = record {
            name = codes "A";
            domain = 0;
            sort = Sort.Input;
            kind = None;
            combine = Combine.Max;
          } ∷
              record {
                name = codes "B";
                domain = 0;
                sort = Sort.Output;
                kind = None;
                combine = Combine.Max;
              } ∷ [];
          channels = [];
          variables = [];
        }) }
    ensures domains { IfOk result (λ s. length (domains_of s) ≡ 1) }
{
    let a = signal(alloc, b"A", 0, Sort::Input, None, Combine::Max)?;
    let b = signal(alloc, b"B", 0, Sort::Output, None, Combine::Max)?;
    let signals = vec![in alloc; a, b]?;
    let domains = vec![in alloc; term(Form::Nothing)]?;
    Ok(system_of(alloc, domains, signals, Vec::new(alloc)))
}

// One domain, over the valued signals `P`, `N` and `C`.
fn valued_signals(alloc: Global) -> Result<System, NoMemory>
    ensures tables { IfOk result (λ s. tables_of s ≡
        record {
          signals = record {
            name = codes "P";
            domain = 0;
            sort = Sort.Input;
            kind = Some Kind.Boolean;
            combine = Combine.Or;
          } ∷
              record {
                name = codes "N";
                domain = 0;
                sort = Sort.Output;
                kind = Some Kind.Int;
                combine = Combine.Max;
              } ∷
              record {
                name = codes "C";
                domain = 0;
                sort = Sort.Output;
                kind = Some Kind.Char;
                combine = Combine.Max;
              } ∷ [];
          channels = [];
          variables = [];
        }) }
    ensures domains { IfOk result (λ s. length (domains_of s) ≡ 1) }
{
    let p = signal(
        alloc,
        b"P",
        0,
        Sort::Input,
        Some(Kind::Boolean),
        Combine::Or,
    )?;
    let n = signal(alloc, b"N", 0, Sort::Output, Some(Kind::Int), Combine::Max)?;
    let c = signal(alloc, b"C", 0, Sort::Output, Some(Kind::Char), Combine::Max)?;
    let signals = vec![in alloc; p, n, c]?;
    let domains = vec![in alloc; term(Form::Nothing)]?;
    Ok(system_of(alloc, domains, signals, Vec::new(alloc)))
}

// Domain 0 sends on the channel `C` and has the signal `D` and a local signal; domain 1 receives and
// has the signal `B`.
fn two_domains(alloc: Global) -> Result<System, NoMemory>
    ensures tables { IfOk result (λ s. tables_of s ≡
        record {
          signals = record {
            name = codes "B";
            domain = 1;
            sort = Sort.Output;
            kind = Some Kind.Int;
            combine = Combine.Max;
          } ∷
              record {
                name = codes "D";
                domain = 0;
                sort = Sort.Output;
                kind = None;
                combine = Combine.Max;
              } ∷
              record {
                name = codes "L";
                domain = 0;
                sort = Sort.Local;
                kind = None;
                combine = Combine.Max;
              } ∷
              [];
          channels = record { name = codes "C"; kind = Kind.Int; sender = 0; receiver = 1 } ∷
              [];
          variables = [];
        }) }
    ensures domains { IfOk result (λ s. length (domains_of s) ≡ 2) }
{
    let b = signal(alloc, b"B", 1, Sort::Output, Some(Kind::Int), Combine::Max)?;
    let d = signal(alloc, b"D", 0, Sort::Output, None, Combine::Max)?;
    let l = signal(alloc, b"L", 0, Sort::Local, None, Combine::Max)?;
    let signals = vec![in alloc; b, d, l]?;
    let channel = ChannelInfo {
        name: Text::new(alloc, b"C")?,
        kind: Kind::Int,
        sender: 0,
        receiver: 1,
    };
    let channels = vec![in alloc; channel]?;
    let body = Boxed::new(alloc, term(Form::Nothing))?;
    let local = term(Form::Local { signal: 2, body });
    let domains = vec![in alloc; local, term(Form::Nothing)]?;
    Ok(system_of(alloc, domains, signals, channels))
}

// Prints the run of one log.
fn print_one<K: Sink>(
    alloc: Global,
    log: Log,
    system: &System,
    out: &mut K,
) -> Result<Result<(), WriteError>, NoMemory>
    requires domains { length (domains_of system.now) ≡ 1 }
    requires channels { (tables_of system.now).channels ≡ [] }
    requires log { IsLog (tables_of system.now) 0 (logged log) }
    requires signals { log.signals ≡ length (interface_of (tables_of system.now) 0) }
{
    let run = Run {
        domains: vec![in alloc; log]?,
        channels: Vec::new(alloc),
    };
    Ok(print(&run, system, out))
}

// Prints the run of two logs and one history.
fn print_two(
    alloc: Global,
    first: Log,
    second: Log,
    history: History,
    system: &System,
    out: &mut MemSink,
) -> Result<Result<(), WriteError>, NoMemory>
    requires domains { length (domains_of system.now) ≡ 2 }
    requires channels { length (tables_of system.now).channels ≡ 1 }
    requires first { IsLog (tables_of system.now) 0 (logged first) }
    requires second { IsLog (tables_of system.now) 1 (logged second) }
    requires first_signals { first.signals ≡ length (interface_of (tables_of system.now) 0) }
    requires second_signals { second.signals ≡ length (interface_of (tables_of system.now) 1) }
    requires history { IsHistory (channel_at (tables_of system.now) 0).kind history.rows }
{
    let run = Run {
        domains: vec![in alloc; first, second]?,
        channels: vec![in alloc; history]?,
    };
    Ok(print(&run, system, out))
}

#[test]
fn prints_a_run_that_has_ended(rt: HostRuntime) -> Result<(), Fail> {
    let system = one_signal(rt.alloc())?;
    let mut log = Log::open(rt.alloc(), 1, 2)?;
    log.push(1, &[true], &[0], false);
    log.push(2, &[true], &[0], true);
    let mut out = sink_of(rt.alloc(), &[])?;
    assert_eq!(rt; print_one(rt.alloc(), log, &system, &mut out)?, Ok(()));
    assert_eq!(rt;
        out.bytes(),
        b"domain 0 ticks 2 ended\n1 @1 A\n2 @2 A\n".as_slice()
    );
    Ok(())
}

#[test]
fn prints_only_the_signals_that_were_present(rt: HostRuntime) -> Result<(), Fail> {
    let system = two_signals(rt.alloc())?;
    let mut log = Log::open(rt.alloc(), 2, 5)?;
    log.push(5, &[true, true], &[0, 0], false);
    log.push(18, &[false, true], &[0, 0], false);
    log.push(19, &[false, false], &[0, 0], false);
    let mut out = sink_of(rt.alloc(), &[])?;
    assert_eq!(rt; print_one(rt.alloc(), log, &system, &mut out)?, Ok(()));
    assert_eq!(rt;
        out.bytes(),
        b"domain 0 ticks 3 paused\n1 @5 A B\n2 @18 B\n3 @19\n".as_slice()
    );
    Ok(())
}

#[test]
fn prints_values_by_their_kinds(rt: HostRuntime) -> Result<(), Fail> {
    let system = valued_signals(rt.alloc())?;
    let mut log = Log::open(rt.alloc(), 3, 2)?;
    log.push(1, &[true, true, true], &[1, -7, 65], false);
    log.push(4, &[true, true, false], &[0, -2147483648, 9], false);
    let mut out = sink_of(rt.alloc(), &[])?;
    assert_eq!(rt; print_one(rt.alloc(), log, &system, &mut out)?, Ok(()));
    assert_eq!(rt;
        out.bytes(),
        b"domain 0 ticks 2 paused\n1 @1 P=true N=-7 C=65\n2 @4 P=false N=-2147483648\n".as_slice()
    );
    Ok(())
}

#[test]
fn prints_an_empty_log_as_paused(rt: HostRuntime) -> Result<(), Fail> {
    let system = one_signal(rt.alloc())?;
    let log = Log::open(rt.alloc(), 1, 0)?;
    let mut out = sink_of(rt.alloc(), &[])?;
    assert_eq!(rt; print_one(rt.alloc(), log, &system, &mut out)?, Ok(()));
    assert_eq!(rt; out.bytes(), b"domain 0 ticks 0 paused\n".as_slice());
    Ok(())
}

#[test]
fn one_rendezvous(rt: HostRuntime) -> Result<(), Fail> {
    let system = two_domains(rt.alloc())?;
    let mut first = Log::open(rt.alloc(), 1, 2)?;
    first.push(1, &[false], &[0], false);
    first.push(3, &[true], &[0], true);
    let mut second = Log::open(rt.alloc(), 1, 2)?;
    second.push(1, &[false], &[0], false);
    second.push(3, &[true], &[5], true);
    let mut history = History::open(rt.alloc(), 1)?;
    history.push(JoinRow {
        value: 5,
        sender_ticks: 1,
        receiver_ticks: 1,
        stamp: 2,
    });
    let mut out = sink_of(rt.alloc(), &[])?;
    let printed = print_two(rt.alloc(), first, second, history, &system, &mut out)?;
    assert_eq!(rt; printed, Ok(()));
    assert_eq!(rt;
        out.bytes(),
        b"domain 0 ticks 2 ended\n1 @1\n2 @3 D\ndomain 1 ticks 2 ended\n1 @1\n2 @3 B=5\nchannel C 1\n1 5 1 1 @2\n".as_slice()
    );
    Ok(())
}

// Prints a run of one tick to a sink that takes so many bytes a call, of which this call fails, and
// answers what the sink holds then.
fn prefix_at(alloc: Global, piece: usize, call: u64) -> Result<Vec<u8>, NoMemory>
    requires { 1 ≤ piece }
{
    let system = one_signal(alloc)?;
    let mut log = Log::open(alloc, 1, 1)?;
    log.push(1, &[true], &[0], true);
    let fail = [call].to_vec(alloc)?;
    let space = [0u8; 128].to_vec(alloc)?;
    let mut out = MemSink::new(piece, fail, space);
    match print_one(alloc, log, &system, &mut out)? {
        Ok(()) => Ok(Vec::new(alloc)),
        Err(WriteError::Fault) => Ok(out.bytes().to_vec(alloc)?),
    }
}

#[test]
fn a_failed_call_leaves_a_prefix_of_the_text(rt: HostRuntime) -> Result<(), Fail> {
    let alloc = rt.alloc();
    assert_eq!(rt; prefix_at(alloc, 1, 1)?.as_slice(), b"".as_slice());
    assert_eq!(rt; prefix_at(alloc, 1, 2)?.as_slice(), b"d".as_slice());
    assert_eq!(rt;
        prefix_at(alloc, 5, 3)?.as_slice(),
        b"domain 0 t".as_slice()
    );
    assert_eq!(rt;
        prefix_at(alloc, 5, 6)?.as_slice(),
        b"domain 0 ticks 1 ended\n1 ".as_slice()
    );
    Ok(())
}

// A log of so many ticks, in each of which the signal `A` is present.
#[tactic(auto, using(crate::proofs::LongLogs::long_steps))]
fn long_log(alloc: Global, ticks: u32) -> Result<Log, NoMemory>
    requires { ticks ≤ 100_000 }
    ensures fits { IfOk result (λ log. IsLog (record {
      signals = record {
        name = codes "A";
        domain = 0;
        sort = Sort.Output;
        kind = None;
        combine = Combine.Max;
      } ∷
          [];
      channels = [];
      variables = [];
    }) 0 (logged log)) }
    ensures signals { IfOk result (λ log. log.signals ≡ 1) }
{
    let mut log = Log::open(alloc, 1, ticks)?;
    for i in 0..ticks {
        log.push(u64::from(i) + 1, &[true], &[0], false);
    }
    Ok(log)
}

// A sink that takes all, and counts its calls and their bytes.
#[derive(Drop)]
struct Counting {
    calls: u64,
    bytes: u64,
}

impl Sink for Counting {
    ghost use Rattle.std.specs.Prelude.{None};

    ghost taken = { λ s. None };

    ghost faults = { λ s. 0 };

    fn write(&mut self, buf: &[u8]) -> Result<usize, Failed> {
        self.calls = self.calls.saturating_add(1);
        self.bytes = self.bytes.saturating_add(buf.len() as u64);
        Ok(buf.len())
    }
}

// The text of the run has 10,813 bytes.
#[test]
fn a_long_run_makes_few_calls(rt: HostRuntime) -> Result<(), Fail> {
    let system = one_signal(rt.alloc())?;
    let log = long_log(rt.alloc(), 1000)?;
    let mut out = Counting { calls: 0, bytes: 0 };
    assert_eq!(rt; print_one(rt.alloc(), log, &system, &mut out)?, Ok(()));
    assert_eq!(rt; out.bytes, 10_813);
    assert_eq!(rt; out.calls, 3);
    Ok(())
}
