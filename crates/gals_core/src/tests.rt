ghost use Rattle.std.specs.Prelude.{◌≡◌, pos, [], ◌∷◌, length, IfOk, codes, None};
ghost use Rattle.java_values.specs.declared.kind.Kind.TheVariants as kind;
ghost use Rattle.kernel_terms.specs.Systems.{domains_of};
ghost use Rattle.kernel_terms.specs.Statements as rules;
ghost use Rattle.kernel_terms.specs.Expressions.{Literal};
ghost use Rattle.domain_core.specs.step.SmallDomains.{IsTermOf, IsPair, pure_domains};
ghost use Rattle.domain_core.specs.definitions.step.Compiling.{CanCompile};
ghost use Rattle.gals_core.specs.definitions.OrderPlans.{FitBudgets};

use crate::{OrderPlan, run_order};
use domain_core::compile;
use java_values::{Kind, NoMemory, Text};
use kernel_terms::{
    ChannelInfo, Combine, Expr, ExprForm, Form, SignalInfo, Sort, System, Tables, Term,
};
use signal_store::Inputs;
use sqlite_items::Items;
use std::alloc::Global;
use std::test::Fail;
use tick_log::{JoinRow, Run};

fn term(form: Form) -> Term
    ensures { result ≡ record { at = 0; form = form } }
{
    Term { at: 0, form }
}

// `send C(5); emit D;`
fn sending(alloc: Global) -> Result<Term, NoMemory>
    ensures { IfOk result (IsTermOf
        (rules.Seq (rules.Send 0 (Literal kind.Int (pos 5))) (rules.Emit 0 None))) }
{
    let five = Expr {
        kind: Kind::Int,
        form: ExprForm::Literal(5),
    };
    let send = term(Form::Send {
        channel: 0,
        value: five,
    });
    let emit = term(Form::Emit {
        signal: 0,
        value: None,
    });
    let parts = vec![in alloc; send, emit]?;
    Ok(term(Form::Seq(Items::from_vec(parts))))
}

// `receive C; emit B;`
fn receiving(alloc: Global) -> Result<Term, NoMemory>
    ensures { IfOk result (IsTermOf (rules.Seq (rules.Receive 0) (rules.Emit 1 None))) }
{
    let receive = term(Form::Receive { channel: 0 });
    let emit = term(Form::Emit {
        signal: 1,
        value: None,
    });
    let parts = vec![in alloc; receive, emit]?;
    Ok(term(Form::Seq(Items::from_vec(parts))))
}

fn output(alloc: Global, name: &[u8], domain: u32) -> Result<SignalInfo, NoMemory>
    ensures { IfOk result (λ s. s ≡
        record {
          name = name.now;
          domain = domain;
          sort = Sort.Output;
          kind = None;
          combine = Combine.Max;
        }) }
{
    Ok(SignalInfo {
        name: Text::new(alloc, name)?,
        domain,
        sort: Sort::Output,
        kind: None,
        combine: Combine::Max,
    })
}

// Domain 0 has the signal `D` and sends on the channel `C`, and domain 1 has the signal `B` and
// receives.
fn tables(alloc: Global) -> Result<Tables, NoMemory>
    ensures { IfOk result (λ t. t ≡ pure_domains) }
{
    let signals = vec![in alloc; output(alloc, b"D", 0)?, output(alloc, b"B", 1)?]?;
    let channel = ChannelInfo {
        name: Text::new(alloc, b"C")?,
        kind: Kind::Int,
        sender: 0,
        receiver: 1,
    };
    let channels = vec![in alloc; channel]?;
    Ok(Tables {
        signals: Items::from_vec(signals),
        channels: Items::from_vec(channels),
        variables: Items::new(alloc),
    })
}

fn two_domains(alloc: Global) -> Result<System, NoMemory>
    ensures { IfOk result IsPair }
{
    let tables = tables(alloc)?;
    let sending = sending(alloc)?;
    let receiving = receiving(alloc)?;
    let domains = vec![in alloc; sending, receiving]?;
    Ok(System::new(tables, Items::from_vec(domains)))
}

fn both_can_compile(system: &System)
    requires { IsPair system.now }
    ensures count { length (domains_of system.now) ≡ 2 }
    ensures sending { CanCompile system.now 0 }
    ensures receiving { CanCompile system.now 1 }
{}

// The run of these turns, at most 3 of domain 0 and 2 of domain 1.
fn run_of(alloc: Global, system: &System, turns: &[u32]) -> Result<Run, Fail>
    requires count { length (domains_of system.now) ≡ 2 }
    requires sending { CanCompile system.now 0 }
    requires receiving { CanCompile system.now 1 }
    requires turns { FitBudgets (3 ∷ 2 ∷ []) turns.now }
{
    let first = compile(alloc, system, 0)?;
    let second = compile(alloc, system, 1)?;
    let domains = vec![in alloc; first, second]?;
    let plan = OrderPlan::open(alloc, system, domains, &[3, 2])?;
    Ok(run_order(system, plan, turns, &Inputs::new(alloc)))
}

fn turns_fit_budgets(turns: &[u32])
    requires { turns.now ≡ 0 ∷ 1 ∷ 0 ∷ 1 ∷ 0 ∷ [] }
    ensures { FitBudgets (3 ∷ 2 ∷ []) turns.now }
{}

// Domain 0 has ended before its third turn.
#[test]
fn one_rendezvous(rt: HostRuntime) -> Result<(), Fail> {
    let system = two_domains(rt.alloc())?;
    both_can_compile(&system);
    let turns = [0, 1, 0, 1, 0];
    turns_fit_budgets(&turns);
    let run = run_of(rt.alloc(), &system, &turns)?;
    for log in &run.domains {
        assert_eq!(rt; log.signals(), 1);
        assert_eq!(rt; log.len(), 2);
        assert!(rt; log.ended());
        assert_eq!(rt; log.stamp(1), 1);
        assert_eq!(rt; log.status(1, 0), None);
        assert_eq!(rt; log.stamp(2), 3);
        assert_eq!(rt; log.status(2, 0), Some(0));
    }
    assert_eq!(rt; run.domains.len(), 2);
    assert_eq!(rt; run.channels.len(), 1);
    assert_eq!(rt; run.channels[0].len(), 1);
    let join = JoinRow {
        value: 5,
        sender_ticks: 1,
        receiver_ticks: 1,
        stamp: 2,
    };
    assert_eq!(rt; run.channels[0].row(1), join);
    Ok(())
}
