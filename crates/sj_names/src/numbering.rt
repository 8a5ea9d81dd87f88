ghost use Rattle.std.specs.Prelude.{◌≡◌, ◌∷◌, ◌++◌, [], IfOk, map, drop};
ghost use Rattle.sj_names.specs.definitions.NumberedTrees.{number_of, status_entry, numbered_expression, numbered_test, numbered_value, numbered_signal, numbered_stmt, numbered_form, numbered_block, numbered_other, blocks_in_order, stmts_in_order, numbered_port, numbered_ports, numbered_tree};
ghost use Rattle.sj_names.specs.definitions.Scopes.{declare};
ghost use Rattle.sj_names.specs.VisibleNames.{scope_of};

use crate::entry::TableEntry;
use crate::mention::{Meaning, NameSort, Role};
use crate::names::Names;
use crate::statements::signal_sort;
use java_values::NoMemory;
use sj_ast::{Block, ChannelPort, Form, Name, Port, Raw, Signal, SignalPort, Stmt, Test, Tree};
use sqlite_items::{Boxed, Items};
use std::alloc::Global;

fn number(names: &Names<'_>, role: Role, name: &Name) -> u32
    ensures { result ≡ number_of role name.now (scope_of names.now) }
{
    names.number(role, name.text.bytes())
}

/// What `#` reads.
fn status_entry(names: &Names<'_>, name: &Name) -> TableEntry
    ensures { result ≡ status_entry name.now (scope_of names.now) }
{
    let number = number(names, Role::Status, name);
    match names.meaning(name.text.bytes()) {
        Some(
            Meaning {
                sort: NameSort::Channel,
                ..
            },
        ) => TableEntry::Channel(number),
        _ => TableEntry::Signal(number),
    }
}

fn expression(
    alloc: Global,
    names: &Names<'_>,
    expression: &Raw<Name>,
) -> Result<Raw<TableEntry>, NoMemory>
    ensures { IfOk result (λ e. e ≡ numbered_expression expression.now (scope_of names.now)) }
{
    Ok(match expression {
        Raw::Literal { at, value } => Raw::Literal {
            at: *at,
            value: *value,
        },
        Raw::Least { at, value } => Raw::Least {
            at: *at,
            value: *value,
        },
        Raw::Variable { at, name } => Raw::Variable {
            at: *at,
            name: TableEntry::Variable(number(names, Role::Variable, name)),
        },
        Raw::Status { at, name_at, name } => Raw::Status {
            at: *at,
            name_at: *name_at,
            name: status_entry(names, name),
        },
        Raw::Unary { at, op, operand } => Raw::Unary {
            at: *at,
            op: *op,
            operand: Boxed::new(alloc, self::expression(alloc, names, operand.get())?)?,
        },
        Raw::Cast { at, kind, operand } => Raw::Cast {
            at: *at,
            kind: *kind,
            operand: Boxed::new(alloc, self::expression(alloc, names, operand.get())?)?,
        },
        Raw::Group { at, inner } => Raw::Group {
            at: *at,
            inner: Boxed::new(alloc, self::expression(alloc, names, inner.get())?)?,
        },
        Raw::Binary {
            at,
            op,
            left,
            right,
        } => Raw::Binary {
            at: *at,
            op: *op,
            left: Boxed::new(alloc, self::expression(alloc, names, left.get())?)?,
            right: Boxed::new(alloc, self::expression(alloc, names, right.get())?)?,
        },
    })
}

fn test(alloc: Global, names: &Names<'_>, signal_test: &Test<Name>) -> Result<Test<u32>, NoMemory>
    ensures { IfOk result (λ t. t ≡ numbered_test signal_test.now (scope_of names.now)) }
{
    Ok(match signal_test {
        Test::Signal { at, name } => Test::Signal {
            at: *at,
            name: number(names, Role::Test, name),
        },
        Test::Not { at, test: inner } => Test::Not {
            at: *at,
            test: Boxed::new(alloc, test(alloc, names, inner.get())?)?,
        },
        Test::Group { at, inner } => Test::Group {
            at: *at,
            inner: Boxed::new(alloc, test(alloc, names, inner.get())?)?,
        },
        Test::Both { at, left, right } => Test::Both {
            at: *at,
            left: Boxed::new(alloc, test(alloc, names, left.get())?)?,
            right: Boxed::new(alloc, test(alloc, names, right.get())?)?,
        },
        Test::Either { at, left, right } => Test::Either {
            at: *at,
            left: Boxed::new(alloc, test(alloc, names, left.get())?)?,
            right: Boxed::new(alloc, test(alloc, names, right.get())?)?,
        },
    })
}

fn value(
    alloc: Global,
    names: &Names<'_>,
    value: &Option<Raw<Name>>,
) -> Result<Option<Raw<TableEntry>>, NoMemory>
    ensures { IfOk result (λ o. o ≡ numbered_value value.now (scope_of names.now)) }
{
    match value {
        Some(value) => Ok(Some(expression(alloc, names, value)?)),
        None => Ok(None),
    }
}

/// The signal's number, which is declared as this sort.
fn signal<'a>(
    names: &mut Names<'a>,
    sort: NameSort,
    signal: &'a Signal<Name>,
) -> Result<Signal<u32>, NoMemory>
    ensures value { IfOk result (λ s. s ≡ numbered_signal sort signal.now (scope_of names.old)) }
    ensures scope { IfOk result (λ _. scope_of names.new ≡
        declare sort signal.now.name.text (scope_of names.old)) }
{
    let number = number(names, Role::Declare(sort), &signal.name);
    names.declare(sort, signal.name.text.bytes())?;
    Ok(Signal {
        at: signal.at,
        name: number,
        valued: signal.valued,
    })
}

/// A statement, with what is visible behind it.
#[cycle(numbering)]
fn statement<'a>(
    alloc: Global,
    names: &mut Names<'a>,
    statement: &'a Stmt<Name, Raw<Name>>,
) -> Result<Stmt<u32, Raw<TableEntry>>, NoMemory>
    ensures value { IfOk result (λ t. t ≡
        (numbered_stmt statement.now (scope_of names.old)).value) }
    ensures scope { IfOk result (λ _. scope_of names.new ≡
        (numbered_stmt statement.now (scope_of names.old)).scope) }
{
    let form = form(alloc, names, &statement.form)?;
    Ok(Stmt {
        at: statement.at,
        form,
    })
}

// Most statements have these forms. For the others there is more to set aside.
#[cycle(numbering)]
fn form<'a>(
    alloc: Global,
    names: &mut Names<'a>,
    form: &'a Form<Name, Raw<Name>>,
) -> Result<Form<u32, Raw<TableEntry>>, NoMemory>
    ensures value { IfOk result (λ f. f ≡ (numbered_form form.now (scope_of names.old)).value) }
    ensures scope { IfOk result (λ _. scope_of names.new ≡
        (numbered_form form.now (scope_of names.old)).scope) }
{
    match form {
        Form::Empty => Ok(Form::Empty),
        Form::Pause => Ok(Form::Pause),
        _ => larger_form(alloc, names, form),
    }
}

#[cycle(numbering)]
fn larger_form<'a>(
    alloc: Global,
    names: &mut Names<'a>,
    form: &'a Form<Name, Raw<Name>>,
) -> Result<Form<u32, Raw<TableEntry>>, NoMemory>
    ensures value { IfOk result (λ f. f ≡ (numbered_form form.now (scope_of names.old)).value) }
    ensures scope { IfOk result (λ _. scope_of names.new ≡
        (numbered_form form.now (scope_of names.old)).scope) }
{
    match form {
        Form::Empty => Ok(Form::Empty),
        Form::Pause => Ok(Form::Pause),
        Form::Halt => Ok(Form::Halt),
        Form::Par { first, others } => {
            let first = block(alloc, names, first)?;
            let others = blocks(alloc, names, others.as_slice())?;
            Ok(Form::Par { first, others })
        }
        Form::Emit {
            name_at,
            name,
            value: given,
        } => Ok(Form::Emit {
            name_at: *name_at,
            name: number(names, Role::Emit, name),
            value: value(alloc, names, given)?,
        }),
        Form::Sustain {
            name_at,
            name,
            value: given,
        } => Ok(Form::Sustain {
            name_at: *name_at,
            name: number(names, Role::Emit, name),
            value: value(alloc, names, given)?,
        }),
        Form::Declare(declared) => Ok(Form::Declare(signal(names, NameSort::Local, declared)?)),
        Form::Variable {
            kind,
            name_at,
            name,
            value,
        } => {
            let number = number(names, Role::Declare(NameSort::Variable), name);
            let value = expression(alloc, names, value)?;
            names.declare(NameSort::Variable, name.text.bytes())?;
            Ok(Form::Variable {
                kind: *kind,
                name_at: *name_at,
                name: number,
                value,
            })
        }
        Form::Assign {
            name_at,
            name,
            value,
        } => Ok(Form::Assign {
            name_at: *name_at,
            name: number(names, Role::Variable, name),
            value: expression(alloc, names, value)?,
        }),
        Form::Update {
            name_at,
            name,
            sign_at,
            op,
            value,
        } => Ok(Form::Update {
            name_at: *name_at,
            name: number(names, Role::Variable, name),
            sign_at: *sign_at,
            op: *op,
            value: expression(alloc, names, value)?,
        }),
        Form::If { cond, yes, other } => {
            let cond = expression(alloc, names, cond)?;
            let yes = Boxed::new(alloc, block(alloc, names, yes.get())?)?;
            let other = block_where_given(alloc, names, other)?;
            Ok(Form::If { cond, yes, other })
        }
        Form::Present {
            test: tested,
            yes,
            other,
        } => {
            let test = test(alloc, names, tested)?;
            let yes = Boxed::new(alloc, block(alloc, names, yes.get())?)?;
            let other = block_where_given(alloc, names, other)?;
            Ok(Form::Present { test, yes, other })
        }
        Form::While(body) => Ok(Form::While(block(alloc, names, body)?)),
        Form::Abort {
            weak,
            immediate,
            test: tested,
            body,
        } => {
            let test = test(alloc, names, tested)?;
            let body = block(alloc, names, body)?;
            Ok(Form::Abort {
                weak: *weak,
                immediate: *immediate,
                test,
                body,
            })
        }
        Form::Suspend {
            immediate,
            test: tested,
            body,
        } => {
            let test = test(alloc, names, tested)?;
            let body = block(alloc, names, body)?;
            Ok(Form::Suspend {
                immediate: *immediate,
                test,
                body,
            })
        }
        Form::Trap {
            name_at,
            name,
            body,
        } => {
            let visible = names.len();
            let number = number(names, Role::Declare(NameSort::Trap), name);
            names.declare(NameSort::Trap, name.text.bytes())?;
            let body = block(alloc, names, body)?;
            names.close(visible);
            Ok(Form::Trap {
                name_at: *name_at,
                name: number,
                body,
            })
        }
        Form::Exit { name_at, name } => Ok(Form::Exit {
            name_at: *name_at,
            name: number(names, Role::Exit, name),
        }),
        Form::Send {
            name_at,
            name,
            value,
        } => Ok(Form::Send {
            name_at: *name_at,
            name: number(names, Role::Send, name),
            value: expression(alloc, names, value)?,
        }),
        Form::Receive { name_at, name } => Ok(Form::Receive {
            name_at: *name_at,
            name: number(names, Role::Receive, name),
        }),
        Form::Await {
            immediate,
            test: tested,
        } => Ok(Form::Await {
            immediate: *immediate,
            test: test(alloc, names, tested)?,
        }),
        Form::Every {
            immediate,
            test: tested,
            body,
        } => {
            let test = test(alloc, names, tested)?;
            let body = block(alloc, names, body)?;
            Ok(Form::Every {
                immediate: *immediate,
                test,
                body,
            })
        }
        Form::Loop { body, test: tested } => {
            let body = block(alloc, names, body)?;
            let test = test(alloc, names, tested)?;
            Ok(Form::Loop { body, test })
        }
    }
}

#[cycle(numbering)]
fn block_where_given<'a>(
    alloc: Global,
    names: &mut Names<'a>,
    given: &'a Option<Boxed<Block<Name, Raw<Name>>>>,
) -> Result<Option<Boxed<Block<u32, Raw<TableEntry>>>>, NoMemory>
    ensures value { IfOk result (λ o. o ≡ (numbered_other given.now (scope_of names.old)).value) }
    ensures scope { IfOk result (λ _. scope_of names.new ≡
        (numbered_other given.now (scope_of names.old)).scope) }
{
    match given {
        Some(given) => Ok(Some(Boxed::new(alloc, block(alloc, names, given.get())?)?)),
        None => Ok(None),
    }
}

#[cycle(numbering)]
fn blocks<'a>(
    alloc: Global,
    names: &mut Names<'a>,
    blocks: &'a [Block<Name, Raw<Name>>],
) -> Result<Items<Block<u32, Raw<TableEntry>>>, NoMemory>
    ensures value { IfOk result (λ bs. bs ≡
        (blocks_in_order (map numbered_block blocks.now) (scope_of names.old)).value) }
    ensures scope { IfOk result (λ _. scope_of names.new ≡
        (blocks_in_order (map numbered_block blocks.now) (scope_of names.old)).scope) }
{
    let mut numbered = Vec::new(alloc);
    for part in blocks {
        numbered.push(block(alloc, names, part)?)?;
    }
    Ok(Items::from_vec(numbered))
}

/// A block, behind which its names aren't visible any more.
#[cycle(numbering)]
fn block<'a>(
    alloc: Global,
    names: &mut Names<'a>,
    block: &'a Block<Name, Raw<Name>>,
) -> Result<Block<u32, Raw<TableEntry>>, NoMemory>
    ensures value { IfOk result (λ b. b ≡ (numbered_block block.now (scope_of names.old)).value) }
    ensures scope { IfOk result (λ _. scope_of names.new ≡
        (numbered_block block.now (scope_of names.old)).scope) }
{
    let visible = names.len();
    let statements = statements(alloc, names, block.statements.as_slice())?;
    names.close(visible);
    Ok(Block {
        at: block.at,
        statements,
    })
}

#[cycle(numbering)]
fn statements<'a>(
    alloc: Global,
    names: &mut Names<'a>,
    statements: &'a [Stmt<Name, Raw<Name>>],
) -> Result<Items<Stmt<u32, Raw<TableEntry>>>, NoMemory>
    ensures value { IfOk result (λ ts. ts ≡
        (stmts_in_order (map numbered_stmt statements.now) (scope_of names.old)).value) }
    ensures scope { IfOk result (λ _. scope_of names.new ≡
        (stmts_in_order (map numbered_stmt statements.now) (scope_of names.old)).scope) }
{
    let mut numbered = Vec::with_capacity(alloc, statements.len())?;
    for part in statements {
        numbered.push(statement(alloc, names, part)?)?;
    }
    Ok(Items::from_vec(numbered))
}

fn port<'a>(names: &mut Names<'a>, port: &'a Port<Name>) -> Result<Port<u32>, NoMemory>
    ensures value { IfOk result (λ p. p ≡ (numbered_port port.now (scope_of names.old)).value) }
    ensures scope { IfOk result (λ _. scope_of names.new ≡
        (numbered_port port.now (scope_of names.old)).scope) }
{
    match port {
        Port::Signal(port) => {
            let signal = signal(names, signal_sort(port.direction), &port.signal)?;
            Ok(Port::Signal(SignalPort {
                direction: port.direction,
                signal,
            }))
        }
        Port::Channel(channel) => {
            let number = number(names, Role::Declare(NameSort::Channel), &channel.name);
            names.declare(NameSort::Channel, channel.name.text.bytes())?;
            Ok(Port::Channel(ChannelPort {
                kind: channel.kind,
                at: channel.at,
                name: number,
            }))
        }
    }
}

fn ports<'a>(
    alloc: Global,
    names: &mut Names<'a>,
    ports: &'a [Port<Name>],
) -> Result<Items<Port<u32>>, NoMemory>
    ensures value { IfOk result (λ ps. ps ≡ (numbered_ports ports.now (scope_of names.old)).value) }
    ensures scope { IfOk result (λ _. scope_of names.new ≡
        (numbered_ports ports.now (scope_of names.old)).scope) }
{
    let mut numbered = Vec::new(alloc);
    for part in ports {
        numbered.push(port(names, part)?)?;
    }
    Ok(Items::from_vec(numbered))
}

/// The tree with numbers in place of names, and in its expressions entries. A name has the number of what it stands
/// for, among the names of its sort in order of declaration.
pub fn numbered_tree(
    alloc: Global,
    tree: &Tree<Name, Raw<Name>>,
) -> Result<Tree<u32, Raw<TableEntry>>, NoMemory>
    ensures { IfOk result (λ t. t ≡ numbered_tree tree.now) }
{
    let mut names = Names::new(alloc);
    let ports = ports(alloc, &mut names, tree.ports.as_slice())?;
    let domains = blocks(alloc, &mut names, tree.domains.as_slice())?;
    Ok(Tree { ports, domains })
}
