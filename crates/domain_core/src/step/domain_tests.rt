ghost use Rattle.std.specs.Prelude.{◌≡◌, ◌^◌, ◌<◌, length, IfOk, None};
ghost use Rattle.std.specs.Prelude.{pos};
ghost use Rattle.java_values.specs.declared.kind.Kind.TheVariants as kind;
ghost use Rattle.kernel_terms.specs.Expressions.{Literal};
ghost use Rattle.kernel_terms.specs.Statements.{Stmt};
ghost use Rattle.kernel_terms.specs.Statements as rules;
ghost use Rattle.domain_core.specs.definitions.step.Compiling.{CanCompile};
ghost use Rattle.domain_core.specs.definitions.step.Domains.{ends_in};
ghost use Rattle.domain_core.specs.step.SmallDomains.{IsTermOf, IsPair, IsReceiving, pure_domains};

use crate::{CompileError, Domain, EndJoin, Stepped, compile};
use cell_core::{Ends, Joined};
use java_values::{Kind, NoMemory, Text};
use kernel_terms::{
    ChannelInfo, Combine, Expr, ExprForm, Form, SignalInfo, Sort, System, Tables, Term,
};
use signal_store::Inputs;
use sqlite_items::Items;
use std::alloc::Global;
use std::test::Fail;

// The end of a receiver on a channel of `int`. Its offers stand, and a recall answers the join with a
// send of 5 whose offer has this stamp.
#[derive(Drop)]
struct ScriptedEnd {
    theirs: u64,
    offered: Option<u64>,
    ghost small: { theirs < 2 ^ 62 },
}

impl Ends for ScriptedEnd {
    ghost use Rattle.std.specs.Prelude.{◌≡◌, cond, is_some, unwrap_or, pos, Some, None};
    ghost use Rattle.java_values.specs.declared.kind.Kind.TheVariants as kind;
    ghost use Rattle.cell_core.specs.declared.moves.Side.TheVariants as sides;

    ghost count = { λ e. 1 };

    ghost end_at = { λ e at. record {
      side = sides.Receiver;
      kind = kind.Int;
      offer = cond (is_some e.offered) (Some (record {
        value = pos 0;
        stamp = unwrap_or e.offered 0;
      })) None;
      room = 2;
    } };

    ghost moved = { λ old at m answer new. new.theirs ≡ old.theirs };

    fn recall(&mut self, at: usize) -> Option<Joined> {
        let mine = self.offered.take()?;
        Some(Joined {
            value: 5,
            mine,
            theirs: self.theirs,
        })
    }

    fn offer(&mut self, at: usize, value: i64, stamp: u64) -> Option<Joined> {
        self.offered = Some(stamp);
        None
    }
}

fn signal(alloc: Global, name: &[u8], domain: u32) -> Result<SignalInfo, NoMemory>
    ensures { IfOk result (λ s. s ≡
        record {
          name = name.now;
          domain = domain;
          sort = Sort.Output;
          kind = None;
          combine = Combine.Max;
        }) }
{
    Ok(SignalInfo {
        name: Text::new(alloc, name)?,
        domain,
        sort: Sort::Output,
        kind: None,
        combine: Combine::Max,
    })
}

fn send(channel: u32, value: i64) -> Term
    ensures { IsTermOf (rules.Send channel (Literal kind.Int value)) result }
{
    let value = Expr {
        kind: Kind::Int,
        form: ExprForm::Literal(value),
    };
    Term {
        at: 0,
        form: Form::Send { channel, value },
    }
}

fn receive(channel: u32) -> Term
    ensures { IsTermOf (rules.Receive channel) result }
{
    Term {
        at: 0,
        form: Form::Receive { channel },
    }
}

fn emit(signal: u32) -> Term
    ensures { IsTermOf (rules.Emit signal None) result }
{
    Term {
        at: 0,
        form: Form::Emit {
            signal,
            value: None,
        },
    }
}

fn both(alloc: Global, first: Term, second: Term) -> Result<Term, NoMemory>
    ensures { (p q : Stmt) → IsTermOf p first → IsTermOf q second →
        IfOk result (IsTermOf (rules.Seq p q)) }
{
    let parts = vec![in alloc; first, second]?;
    Ok(Term {
        at: 0,
        form: Form::Seq(Items::from_vec(parts)),
    })
}

fn pure_tables(alloc: Global) -> Result<Tables, NoMemory>
    ensures { IfOk result (λ t. t ≡ pure_domains) }
{
    let d = signal(alloc, b"D", 0)?;
    let b = signal(alloc, b"B", 1)?;
    let c = ChannelInfo {
        name: Text::new(alloc, b"C")?,
        kind: Kind::Int,
        sender: 0,
        receiver: 1,
    };
    Ok(Tables {
        signals: Items::from_vec(vec![in alloc; d, b]?),
        channels: Items::from_vec(vec![in alloc; c]?),
        variables: Items::new(alloc),
    })
}

// `send C(5); emit D;` beside `receive C; emit B;`
fn pair(alloc: Global) -> Result<System, NoMemory>
    ensures { IfOk result IsPair }
{
    let tables = pure_tables(alloc)?;
    let sending = both(alloc, send(0, 5), emit(0))?;
    let receiving = both(alloc, receive(0), emit(1))?;
    let domains = vec![in alloc; sending, receiving]?;
    Ok(System::new(tables, Items::from_vec(domains)))
}

#[tactic(auto, using(crate::proofs::lemmas::equations::PairTerms::pair_can_compile))]
fn receiver_can_compile(system: &System)
    requires { IsPair system.now }
    ensures { CanCompile system.now 1 }
{}

// The receiving domain, with memory for two ticks.
fn receiving_domain(alloc: Global) -> Result<Domain, CompileError>
    ensures { IfOk result IsReceiving }
{
    let system = pair(alloc)?;
    receiver_can_compile(&system);
    let mut domain = compile(alloc, &system, 1)?;
    domain.reserve(2)?;
    Ok(domain)
}

// The second step, where the first pauses.
fn second_step(domain: &mut Domain, end: &mut ScriptedEnd, inputs: &Inputs) -> Option<Stepped>
    requires domain { IsReceiving domain.old }
    requires end { end.old.offered ≡ None }
    ensures { length (ends_in domain.new) ≡ 1 }
{
    if domain.step(end, inputs) != Stepped::Paused {
        return None;
    }
    Some(domain.step(end, inputs))
}

#[test]
fn no_tick_has_a_stamp_past_the_limit(rt: HostRuntime) -> Result<(), Fail> {
    for (theirs, want, ticks, stamp) in [
        (4611686018427387901, Stepped::Ended, 2, 4611686018427387903),
        (
            4611686018427387903,
            Stepped::StampLimit(4611686018427387905),
            1,
            1,
        ),
    ] {
        let mut domain = receiving_domain(rt.alloc())?;
        let mut end = ScriptedEnd {
            theirs,
            offered: None,
        };
        let inputs = Inputs::new(rt.alloc());
        assert_eq!(rt; second_step(&mut domain, &mut end, &inputs), Some(want));
        assert_eq!(rt; domain.log().len(), ticks);
        assert_eq!(rt; domain.stamp(), stamp);
        let joined = Joined {
            value: 5,
            mine: 1,
            theirs,
        };
        let join = EndJoin { joined, ticks: 1 };
        assert_eq!(rt; domain.joins(0), [join].as_slice());
    }
    Ok(())
}
