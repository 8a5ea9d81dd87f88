use crate::tables::tables_of_tree;
use crate::{Failure, FailureKind, TableEntry, TreeNames, numbered_tree};
use java_values::{Kind, Text, Value};
use sj_ast::{
    Block, ChannelPort, Direction, Form, Name, Port, Raw, Signal, SignalPort, Stmt, Test, Tree,
};
use sqlite_items::{Boxed, Items};
use std::alloc::{AllocError, Global};
use std::test::Fail;

type Statement = Stmt<Name, Raw<Name>>;

fn name(alloc: Global, text: &[u8], at: u32) -> Result<Name, AllocError> {
    let text = Text::new(alloc, text).map_err(|_| AllocError)?;
    Ok(Name { text, at })
}

fn emit(alloc: Global, text: &[u8], at: u32) -> Result<Statement, AllocError> {
    let name = name(alloc, text, at)?;
    Ok(Stmt {
        at,
        form: Form::Emit {
            name_at: at,
            name,
            value: None,
        },
    })
}

fn exit(alloc: Global, text: &[u8], at: u32) -> Result<Statement, AllocError> {
    let name = name(alloc, text, at)?;
    Ok(Stmt {
        at,
        form: Form::Exit { name_at: at, name },
    })
}

fn signal(alloc: Global, text: &[u8], at: u32) -> Result<Statement, AllocError> {
    let name = name(alloc, text, at)?;
    Ok(Stmt {
        at,
        form: Form::Declare(Signal {
            at,
            name,
            valued: None,
        }),
    })
}

// A variable whose first value is that of another one, or of itself.
fn variable(
    alloc: Global,
    text: &[u8],
    at: u32,
    read: &[u8],
    read_at: u32,
) -> Result<Statement, AllocError> {
    let value = Raw::Variable {
        at: read_at,
        name: name(alloc, read, read_at)?,
    };
    let name = name(alloc, text, at)?;
    Ok(Stmt {
        at,
        form: Form::Variable {
            kind: Kind::Int,
            name_at: at,
            name,
            value,
        },
    })
}

fn block(statements: Vec<Statement>) -> Block<Name, Raw<Name>> {
    Block {
        at: 3,
        statements: Items::from_vec(statements),
    }
}

fn nested(alloc: Global, statements: Vec<Statement>) -> Statement {
    Stmt {
        at: 4,
        form: Form::Par {
            first: block(statements),
            others: Items::from_vec(Vec::new(alloc)),
        },
    }
}

// The first failure in one domain, with no port.
fn first_failure(alloc: Global, statements: Vec<Statement>) -> Result<Option<Failure>, Fail> {
    let mut domains = Vec::new(alloc);
    domains.push(block(statements))?;
    let tree = Tree {
        ports: Items::from_vec(Vec::new(alloc)),
        domains: Items::from_vec(domains),
    };
    let names = TreeNames::read(alloc, &tree).map_err(|_| AllocError)?;
    let first = names.first_failure(alloc).map_err(|_| AllocError)?;
    Ok(first)
}

fn unknown(at: u32) -> Option<Failure> {
    Some(Failure {
        at,
        fault: FailureKind::Unknown,
    })
}

#[test]
fn a_scope_ends(rt: HostRuntime) -> Result<(), Fail> {
    let alloc = rt.alloc();
    let mut inner = Vec::new(alloc);
    inner.push(signal(alloc, b"A", 5)?)?;
    inner.push(emit(alloc, b"A", 6)?)?;
    let mut statements = Vec::new(alloc);
    statements.push(nested(alloc, inner))?;
    statements.push(emit(alloc, b"A", 9)?)?;
    assert_eq!(rt; first_failure(alloc, statements)?, unknown(9));
    Ok(())
}

#[test]
fn a_name_comes_again(rt: HostRuntime) -> Result<(), Fail> {
    let alloc = rt.alloc();
    let mut inner = Vec::new(alloc);
    inner.push(signal(alloc, b"A", 5)?)?;
    let mut statements = Vec::new(alloc);
    statements.push(nested(alloc, inner))?;
    statements.push(signal(alloc, b"A", 8)?)?;
    statements.push(emit(alloc, b"A", 9)?)?;
    assert_eq!(rt; first_failure(alloc, statements)?, None);
    Ok(())
}

#[test]
fn a_variable_is_not_visible_in_its_first_value(rt: HostRuntime) -> Result<(), Fail> {
    let alloc = rt.alloc();
    let mut statements = Vec::new(alloc);
    statements.push(variable(alloc, b"x", 5, b"x", 6)?)?;
    statements.push(variable(alloc, b"y", 7, b"x", 8)?)?;
    assert_eq!(rt; first_failure(alloc, statements)?, unknown(6));
    Ok(())
}

#[test]
fn a_trap_is_visible_in_its_block(rt: HostRuntime) -> Result<(), Fail> {
    let alloc = rt.alloc();
    let mut body = Vec::new(alloc);
    body.push(exit(alloc, b"T", 6)?)?;
    let mut statements = Vec::new(alloc);
    let name = name(alloc, b"T", 5)?;
    statements.push(Stmt {
        at: 4,
        form: Form::Trap {
            name_at: 5,
            name,
            body: block(body),
        },
    })?;
    statements.push(exit(alloc, b"T", 9)?)?;
    assert_eq!(rt; first_failure(alloc, statements)?, unknown(9));
    Ok(())
}

// The test of signal A at place 7.
fn test_of_a(alloc: Global) -> Result<Test<Name>, AllocError> {
    Ok(Test::Signal {
        at: 7,
        name: name(alloc, b"A", 7)?,
    })
}

fn empty(alloc: Global) -> Block<Name, Raw<Name>> {
    block(Vec::new(alloc))
}

// The first failure in one domain with this form alone.
fn failure_of(alloc: Global, form: Form<Name, Raw<Name>>) -> Result<Option<Failure>, Fail> {
    let mut statements = Vec::new(alloc);
    statements.push(Stmt { at: 4, form })?;
    first_failure(alloc, statements)
}

#[test]
fn the_test_of_each_form_is_read(rt: HostRuntime) -> Result<(), Fail> {
    let alloc = rt.alloc();
    let present = Form::Present {
        test: test_of_a(alloc)?,
        yes: Boxed::new(alloc, empty(alloc))?,
        other: None,
    };
    assert_eq!(rt; failure_of(alloc, present)?, unknown(7));
    let abort = Form::Abort {
        weak: false,
        immediate: false,
        test: test_of_a(alloc)?,
        body: empty(alloc),
    };
    assert_eq!(rt; failure_of(alloc, abort)?, unknown(7));
    let suspend = Form::Suspend {
        immediate: false,
        test: test_of_a(alloc)?,
        body: empty(alloc),
    };
    assert_eq!(rt; failure_of(alloc, suspend)?, unknown(7));
    let every = Form::Every {
        immediate: false,
        test: test_of_a(alloc)?,
        body: empty(alloc),
    };
    assert_eq!(rt; failure_of(alloc, every)?, unknown(7));
    let wait = Form::Await {
        immediate: false,
        test: test_of_a(alloc)?,
    };
    assert_eq!(rt; failure_of(alloc, wait)?, unknown(7));
    let repeat = Form::Loop {
        body: empty(alloc),
        test: test_of_a(alloc)?,
    };
    assert_eq!(rt; failure_of(alloc, repeat)?, unknown(7));
    Ok(())
}

// The number of an emitted or declared signal.
fn statement_number(statement: &Stmt<u32, Raw<TableEntry>>) -> Option<u32> {
    match &statement.form {
        Form::Emit { name, .. } => Some(*name),
        Form::Declare(signal) => Some(signal.name),
        _ => None,
    }
}

#[test]
fn numbers_go_on_behind_a_block(rt: HostRuntime) -> Result<(), Fail> {
    let alloc = rt.alloc();
    let mut inner = Vec::new(alloc);
    inner.push(signal(alloc, b"A", 5)?)?;
    let mut statements = Vec::new(alloc);
    statements.push(nested(alloc, inner))?;
    statements.push(signal(alloc, b"B", 6)?)?;
    statements.push(signal(alloc, b"A", 7)?)?;
    statements.push(emit(alloc, b"B", 8)?)?;
    statements.push(emit(alloc, b"A", 9)?)?;
    let mut domains = Vec::new(alloc);
    domains.push(block(statements))?;
    let tree = Tree {
        ports: Items::from_vec(Vec::new(alloc)),
        domains: Items::from_vec(domains),
    };
    let numbered = numbered_tree(alloc, &tree).map_err(|_| AllocError)?;
    let mut numbers = Vec::new(alloc);
    for domain in numbered.domains.as_slice() {
        for statement in domain.statements.as_slice() {
            numbers.push(statement_number(statement))?;
        }
    }
    assert_eq!(rt; numbers[..], [None, Some(1), Some(2), Some(1), Some(2)][..]);
    Ok(())
}

fn output(alloc: Global, text: &[u8], at: u32) -> Result<Port<Name>, AllocError> {
    let name = name(alloc, text, at)?;
    Ok(Port::Signal(SignalPort {
        direction: Direction::Output,
        signal: Signal {
            at,
            name,
            valued: None,
        },
    }))
}

fn channel(alloc: Global, text: &[u8], at: u32) -> Result<Port<Name>, AllocError> {
    let name = name(alloc, text, at)?;
    Ok(Port::Channel(ChannelPort {
        kind: Kind::Int,
        at,
        name,
    }))
}

fn receive(alloc: Global, text: &[u8], at: u32) -> Result<Statement, AllocError> {
    let name = name(alloc, text, at)?;
    Ok(Stmt {
        at,
        form: Form::Receive { name_at: at, name },
    })
}

fn send(alloc: Global, text: &[u8], at: u32, read: &[u8]) -> Result<Statement, AllocError> {
    let value = Raw::Variable {
        at,
        name: name(alloc, read, at)?,
    };
    let name = name(alloc, text, at)?;
    Ok(Stmt {
        at,
        form: Form::Send {
            name_at: at,
            name,
            value,
        },
    })
}

// `output A, B; channel C;` with a domain that receives on C and emits B, and one that sends a variable on C, emits A
// and a local signal.
fn two_domains(alloc: Global) -> Result<Tree<Name, Raw<Name>>, AllocError> {
    let mut ports = Vec::new(alloc);
    ports.push(output(alloc, b"A", 1)?)?;
    ports.push(channel(alloc, b"C", 2)?)?;
    ports.push(output(alloc, b"B", 3)?)?;
    let mut first = Vec::new(alloc);
    first.push(receive(alloc, b"C", 5)?)?;
    first.push(emit(alloc, b"B", 6)?)?;
    let mut second = Vec::new(alloc);
    second.push(signal(alloc, b"L", 7)?)?;
    second.push(Stmt {
        at: 8,
        form: Form::Variable {
            kind: Kind::Byte,
            name_at: 8,
            name: name(alloc, b"x", 8)?,
            value: Raw::Literal {
                at: 8,
                value: Value::new(Kind::Byte, 1).ok_or(AllocError)?,
            },
        },
    })?;
    second.push(send(alloc, b"C", 9, b"x")?)?;
    second.push(emit(alloc, b"A", 10)?)?;
    second.push(emit(alloc, b"L", 11)?)?;
    let mut domains = Vec::new(alloc);
    domains.push(block(first))?;
    domains.push(block(second))?;
    Ok(Tree {
        ports: Items::from_vec(ports),
        domains: Items::from_vec(domains),
    })
}

#[test]
fn tables_have_each_name_of_its_domain(rt: HostRuntime) -> Result<(), Fail> {
    let alloc = rt.alloc();
    let tree = two_domains(alloc)?;
    let names = TreeNames::read(alloc, &tree).map_err(|_| AllocError)?;
    let tables = tables_of_tree(alloc, &names, &tree).map_err(|_| AllocError)?;
    let mut owners = Vec::new(alloc);
    for signal in tables.signals.as_slice() {
        owners.push(signal.domain)?;
    }
    assert_eq!(rt; owners[..], [1, 0, 1][..]);
    let mut ends = Vec::new(alloc);
    for channel in tables.channels.as_slice() {
        ends.push((channel.sender, channel.receiver))?;
    }
    assert_eq!(rt; ends[..], [(1, 0)][..]);
    let mut kinds = Vec::new(alloc);
    for variable in tables.variables.as_slice() {
        kinds.push((variable.domain, variable.kind))?;
    }
    assert_eq!(rt; kinds[..], [(1, Kind::Byte)][..]);
    Ok(())
}

// A signal that is emitted with what `#` reads.
fn emit_status(alloc: Global, text: &[u8], at: u32, read: &[u8]) -> Result<Statement, AllocError> {
    let value = Raw::Status {
        at,
        name_at: at,
        name: name(alloc, read, at)?,
    };
    let name = name(alloc, text, at)?;
    Ok(Stmt {
        at,
        form: Form::Emit {
            name_at: at,
            name,
            value: Some(value),
        },
    })
}

// What the value of an emission or of a send reads.
fn entry_of(statement: &Stmt<u32, Raw<TableEntry>>) -> Option<TableEntry> {
    let value = match &statement.form {
        Form::Emit { value, .. } => value.as_ref()?,
        Form::Send { value, .. } => value,
        _ => return None,
    };
    match value {
        Raw::Status { name, .. } => Some(*name),
        Raw::Variable { name, .. } => Some(*name),
        _ => None,
    }
}

#[test]
fn names_of_expressions_are_entries(rt: HostRuntime) -> Result<(), Fail> {
    let alloc = rt.alloc();
    let mut ports = Vec::new(alloc);
    ports.push(output(alloc, b"A", 1)?)?;
    ports.push(output(alloc, b"B", 2)?)?;
    ports.push(channel(alloc, b"C", 3)?)?;
    let mut statements = Vec::new(alloc);
    statements.push(emit_status(alloc, b"A", 5, b"B")?)?;
    statements.push(emit_status(alloc, b"A", 6, b"C")?)?;
    statements.push(variable(alloc, b"x", 7, b"x", 7)?)?;
    statements.push(variable(alloc, b"y", 8, b"x", 8)?)?;
    statements.push(send(alloc, b"C", 9, b"y")?)?;
    let mut domains = Vec::new(alloc);
    domains.push(block(statements))?;
    let tree = Tree {
        ports: Items::from_vec(ports),
        domains: Items::from_vec(domains),
    };
    let numbered = numbered_tree(alloc, &tree).map_err(|_| AllocError)?;
    let mut entries = Vec::new(alloc);
    for domain in numbered.domains.as_slice() {
        for statement in domain.statements.as_slice() {
            if let Some(entry) = entry_of(statement) {
                entries.push(entry)?;
            }
        }
    }
    assert_eq!(rt;
        entries[..],
        [
            TableEntry::Signal(1),
            TableEntry::Channel(0),
            TableEntry::Variable(1)
        ][..]
    );
    Ok(())
}
