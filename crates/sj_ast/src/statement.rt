use crate::port::{Port, Signal};
use crate::test::Test;
use java_values::{Kind, Op2};
use sqlite_items::{Boxed, Items};

/// A program: its interface, and one block for each domain.
#[derive(Debug, Drop)]
pub struct Tree<N, E> {
    pub ports: Items<Port<N>>,
    pub domains: Items<Block<N, E>>,
}

/// Statements in braces, with the place of the `{`.
#[cycle(statement)]
#[derive(Debug, Drop)]
pub struct Block<N, E> {
    pub at: u32,
    pub statements: Items<Stmt<N, E>>,
}

/// A statement, with the place of its first token.
#[cycle(statement)]
#[derive(Debug, Drop)]
pub struct Stmt<N, E> {
    pub at: u32,
    pub form: Form<N, E>,
}

/// The forms of statements. `name_at` is the place of the name, and `sign_at` that of the sign.
#[cycle(statement)]
#[derive(Debug, Drop)]
pub enum Form<N, E> {
    /// `;`
    Empty,
    /// A block, and those that stand beside it.
    Par {
        first: Block<N, E>,
        others: Items<Block<N, E>>,
    },
    Pause,
    Halt,
    Emit {
        name_at: u32,
        name: N,
        value: Option<E>,
    },
    Sustain {
        name_at: u32,
        name: N,
        value: Option<E>,
    },
    /// A local signal.
    Declare(Signal<N>),
    /// A new variable.
    Variable {
        kind: Kind,
        name_at: u32,
        name: N,
        value: E,
    },
    Assign {
        name_at: u32,
        name: N,
        value: E,
    },
    /// `+=` and the like.
    Update {
        name_at: u32,
        name: N,
        sign_at: u32,
        op: Op2,
        value: E,
    },
    If {
        cond: E,
        yes: Boxed<Block<N, E>>,
        other: Option<Boxed<Block<N, E>>>,
    },
    Present {
        test: Test<N>,
        yes: Boxed<Block<N, E>>,
        other: Option<Boxed<Block<N, E>>>,
    },
    /// `while (true)`
    While(Block<N, E>),
    Abort {
        weak: bool,
        immediate: bool,
        test: Test<N>,
        body: Block<N, E>,
    },
    Suspend {
        immediate: bool,
        test: Test<N>,
        body: Block<N, E>,
    },
    Trap {
        name_at: u32,
        name: N,
        body: Block<N, E>,
    },
    Exit {
        name_at: u32,
        name: N,
    },
    Send {
        name_at: u32,
        name: N,
        value: E,
    },
    Receive {
        name_at: u32,
        name: N,
    },
    Await {
        immediate: bool,
        test: Test<N>,
    },
    Every {
        immediate: bool,
        test: Test<N>,
        body: Block<N, E>,
    },
    Loop {
        body: Block<N, E>,
        test: Test<N>,
    },
}
