ghost use Rattle.std.specs.Prelude.{◌≡◌, true, IfOk};
ghost use Rattle.kernel_terms.specs.Statements.{statement};
ghost use Rattle.tick_tree.specs.definitions.Exits.{exits_fit};

use super::*;
use java_values::{Kind, NoMemory};
use kernel_terms::{Expr, ExprForm, Form, SigTest, Term};
use sqlite_items::{Boxed, Items};
use std::alloc::Global;
use std::test::Fail;

fn pause() -> Term
    ensures { exits_fit (statement result) ≡ true }
{
    Term {
        at: 0,
        form: Form::Pause,
    }
}

// `send C(5)`
fn send() -> Term
    ensures { exits_fit (statement result) ≡ true }
{
    let value = Expr {
        kind: Kind::Int,
        form: ExprForm::Literal(5),
    };
    Term {
        at: 0,
        form: Form::Send { channel: 0, value },
    }
}

fn exit() -> Term
    ensures { exits_fit (statement result) ≡ true }
{
    Term {
        at: 0,
        form: Form::Exit(0),
    }
}

fn looped(alloc: Global, body: Term) -> Result<Term, NoMemory>
    requires { exits_fit (statement body) ≡ true }
    ensures { IfOk result (λ t. exits_fit (statement t) ≡ true) }
{
    Ok(Term {
        at: 0,
        form: Form::Loop(Boxed::new(alloc, body)?),
    })
}

fn trapped(alloc: Global, body: Term) -> Result<Term, NoMemory>
    requires { exits_fit (statement body) ≡ true }
    ensures { IfOk result (λ t. exits_fit (statement t) ≡ true) }
{
    Ok(Term {
        at: 0,
        form: Form::Trap(Boxed::new(alloc, body)?),
    })
}

// `weak abort(immediate A)`
fn aborted(alloc: Global, body: Term) -> Result<Term, NoMemory>
    requires { exits_fit (statement body) ≡ true }
    ensures { IfOk result (λ t. exits_fit (statement t) ≡ true) }
{
    Ok(Term {
        at: 0,
        form: Form::Abort {
            weak: true,
            immediate: true,
            test: SigTest::Signal(0),
            body: Boxed::new(alloc, body)?,
        },
    })
}

fn beside(alloc: Global, left: Term, right: Term) -> Result<Term, NoMemory>
    requires left { exits_fit (statement left) ≡ true }
    requires right { exits_fit (statement right) ≡ true }
    ensures { IfOk result (λ t. exits_fit (statement t) ≡ true) }
{
    let mut parts = Vec::new(alloc);
    parts.push(left)?;
    parts.push(right)?;
    Ok(Term {
        at: 0,
        form: Form::Par(Items::from_vec(parts)),
    })
}

#[test]
fn ends_and_weights(rt: HostRuntime) -> Result<(), Fail> {
    let alloc = rt.alloc();
    let waiting = looped(alloc, pause())?;
    let left = trapped(alloc, exit())?;
    let seen = aborted(alloc, pause())?;
    let both = beside(alloc, pause(), trapped(alloc, exit())?)?;
    assert_eq!(rt;
        (ends0(&pause()), ends1(&pause()), weight(&pause())),
        (false, true, 2)
    );
    assert_eq!(rt;
        (ends0(&send()), ends1(&send()), weight(&send())),
        (false, true, 3)
    );
    assert_eq!(rt;
        (ends0(&waiting), ends1(&waiting), weight(&waiting)),
        (false, false, 3)
    );
    assert_eq!(rt;
        (ends0(&left), ends1(&left), weight(&left)),
        (true, false, 1)
    );
    assert_eq!(rt;
        (ends0(&seen), ends1(&seen), weight(&seen)),
        (true, true, 6)
    );
    assert_eq!(rt;
        (ends0(&both), ends1(&both), weight(&both)),
        (false, true, 3)
    );
    Ok(())
}
