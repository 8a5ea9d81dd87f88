use crate::expr::Expr;
use crate::sig_test::SigTest;
use sqlite_items::{Boxed, Items};

/// A statement, with the byte offset of its first token in the source.
#[cycle(term)]
#[derive(Debug, Drop)]
pub struct Term {
    pub at: u32,
    pub form: Form,
}

#[cycle(term)]
#[derive(Debug, Drop)]
pub enum Form {
    /// Ends at once.
    Nothing,
    /// Ends in the next tick.
    Pause,
    /// One emission of the signal of this number, with a value where the signal has a kind.
    Emit {
        signal: u32,
        value: Option<Expr>,
    },
    /// The variable of this number takes the value.
    Assign {
        var: u32,
        value: Expr,
    },
    If {
        cond: Expr,
        yes: Boxed<Term>,
        other: Boxed<Term>,
    },
    Present {
        test: SigTest,
        yes: Boxed<Term>,
        other: Boxed<Term>,
    },
    /// The parts one after another; the list isn't empty and stands for its nesting to the right.
    Seq(Items<Term>),
    /// The body again in each tick in which it ends.
    Loop(Boxed<Term>),
    /// The parts beside each other; the list isn't empty and stands for its nesting to the right.
    Par(Items<Term>),
    /// The body, up to an exit to here.
    Trap(Boxed<Term>),
    /// An exit to the trap of this depth, counted outwards from 0.
    Exit(u32),
    /// The body, up to a tick where the test holds. `immediate` looks at the test in the starting tick
    /// too; `weak` lets the body tick once more.
    Abort {
        weak: bool,
        immediate: bool,
        test: SigTest,
        body: Boxed<Term>,
    },
    /// The body, which neither ticks nor changes in later ticks where the test holds.
    Suspend {
        test: SigTest,
        body: Boxed<Term>,
    },
    /// The body, with a new signal of this number.
    Local {
        signal: u32,
        body: Boxed<Term>,
    },
    /// Waits for the join that takes the value.
    Send {
        channel: u32,
        value: Expr,
    },
    /// Waits for a join of the channel.
    Receive {
        channel: u32,
    },
}
