ghost use Rattle.std.specs.Prelude.{◌≡◌, ◌∷◌, ◌++◌, ◌+◌, [], IfOk, drop, map};
ghost use Rattle.sj_names.specs.definitions.Mentions.{behind, mentioned, declared, read, read_where_given, tested, new_variable, in_order, other_part, block_part, stmt_part, signal_sort, port_part};

use crate::expressions::{add_expression, add_name, add_test};
use crate::mention::{Mention, NameSort, Role};
use crate::names::Names;
use java_values::NoMemory;
use sj_ast::{Block, Direction, Form, Name, Port, Raw, Stmt, Test};
use sqlite_items::Boxed;

/// The names of a tree that were read, and those that are visible.
#[derive(Drop)]
pub struct Reader<'a> {
    pub names: Names<'a>,
    pub mentions: Vec<Mention>,
}

pub fn signal_sort(direction: Direction) -> NameSort
    ensures { result ≡ signal_sort direction }
{
    match direction {
        Direction::Input => NameSort::Input,
        Direction::Output => NameSort::Output,
    }
}

impl<'a> Reader<'a> {
    ghost use Rattle.sj_names.specs.ToldNames.{told_of};

    fn name(&mut self, role: Role, name: &Name) -> Result<(), NoMemory>
        ensures { IfOk result (λ _. told_of self.new ≡
            behind (told_of self.old) (mentioned role name.now)) }
    {
        add_name(&self.names, role, name, &mut self.mentions)
    }

    fn declare(&mut self, sort: NameSort, name: &'a Name) -> Result<(), NoMemory>
        ensures { IfOk result (λ _. told_of self.new ≡
            behind (told_of self.old) (declared sort name.now)) }
    {
        add_name(&self.names, Role::Declare(sort), name, &mut self.mentions)?;
        self.names.declare(sort, name.text.bytes())
    }

    fn expression(&mut self, value: &Raw<Name>) -> Result<(), NoMemory>
        ensures { IfOk result (λ _. told_of self.new ≡ behind (told_of self.old) (read value.now)) }
    {
        add_expression(&self.names, value, &mut self.mentions)
    }

    fn value(&mut self, value: &Option<Raw<Name>>) -> Result<(), NoMemory>
        ensures { IfOk result (λ _. told_of self.new ≡
            behind (told_of self.old) (read_where_given value.now)) }
    {
        match value {
            Some(value) => self.expression(value),
            None => Ok(()),
        }
    }

    fn test(&mut self, test: &Test<Name>) -> Result<(), NoMemory>
        ensures { IfOk result (λ _. told_of self.new ≡
            behind (told_of self.old) (tested test.now)) }
    {
        add_test(&self.names, test, &mut self.mentions)
    }

    fn variable(&mut self, name: &'a Name, value: &Raw<Name>) -> Result<(), NoMemory>
        ensures { IfOk result (λ _. told_of self.new ≡
            behind (told_of self.old) (new_variable name.now value.now)) }
    {
        self.name(Role::Declare(NameSort::Variable), name)?;
        self.expression(value)?;
        self.names.declare(NameSort::Variable, name.text.bytes())
    }

    #[cycle(statements)]
    fn statement(&mut self, statement: &'a Stmt<Name, Raw<Name>>) -> Result<(), NoMemory>
        ensures { IfOk result (λ _. told_of self.new ≡
            behind (told_of self.old) (stmt_part statement.now)) }
    {
        match &statement.form {
            Form::Empty | Form::Pause | Form::Halt => Ok(()),
            Form::Par { first, others } => {
                self.block(first)?;
                self.blocks(others.as_slice())
            }
            Form::Emit { name, value, .. } => {
                self.name(Role::Emit, name)?;
                self.value(value)
            }
            Form::Sustain { name, value, .. } => {
                self.name(Role::Emit, name)?;
                self.value(value)
            }
            Form::Declare(signal) => self.declare(NameSort::Local, &signal.name),
            Form::Variable { name, value, .. } => self.variable(name, value),
            Form::Assign { name, value, .. } => {
                self.name(Role::Variable, name)?;
                self.expression(value)
            }
            Form::Update { name, value, .. } => {
                self.name(Role::Variable, name)?;
                self.expression(value)
            }
            Form::If { cond, yes, other } => {
                self.expression(cond)?;
                self.block(yes.get())?;
                self.other(other)
            }
            Form::Present { test, yes, other } => {
                self.test(test)?;
                self.block(yes.get())?;
                self.other(other)
            }
            Form::While(body) => self.block(body),
            Form::Abort { test, body, .. } => {
                self.test(test)?;
                self.block(body)
            }
            Form::Suspend { test, body, .. } => {
                self.test(test)?;
                self.block(body)
            }
            Form::Trap { name, body, .. } => {
                let visible = self.names.len();
                self.declare(NameSort::Trap, name)?;
                self.block(body)?;
                self.names.close(visible);
                Ok(())
            }
            Form::Exit { name, .. } => self.name(Role::Exit, name),
            Form::Send { name, value, .. } => {
                self.name(Role::Send, name)?;
                self.expression(value)
            }
            Form::Receive { name, .. } => self.name(Role::Receive, name),
            Form::Await { test, .. } => self.test(test),
            Form::Every { test, body, .. } => {
                self.test(test)?;
                self.block(body)
            }
            Form::Loop { body, test } => {
                self.block(body)?;
                self.test(test)
            }
        }
    }

    #[cycle(statements)]
    fn other(&mut self, block: &'a Option<Boxed<Block<Name, Raw<Name>>>>) -> Result<(), NoMemory>
        ensures { IfOk result (λ _. told_of self.new ≡
            behind (told_of self.old) (other_part block.now)) }
    {
        match block {
            Some(block) => self.block(block.get()),
            None => Ok(()),
        }
    }

    #[cycle(statements)]
    fn blocks(&mut self, blocks: &'a [Block<Name, Raw<Name>>]) -> Result<(), NoMemory>
        ensures { IfOk result (λ _. told_of self.new ≡
            behind (told_of self.old) (in_order (map (block_part) blocks.now))) }
    {
        for block in blocks {
            self.block(block)?;
        }
        Ok(())
    }

    #[cycle(statements)]
    pub fn block(&mut self, block: &'a Block<Name, Raw<Name>>) -> Result<(), NoMemory>
        ensures { IfOk result (λ _. told_of self.new ≡
            behind (told_of self.old) (block_part block.now)) }
    {
        let visible = self.names.len();
        self.statements(block.statements.as_slice())?;
        self.names.close(visible);
        Ok(())
    }

    #[cycle(statements)]
    fn statements(&mut self, statements: &'a [Stmt<Name, Raw<Name>>]) -> Result<(), NoMemory>
        ensures { IfOk result (λ _. told_of self.new ≡
            behind (told_of self.old) (in_order (map (stmt_part) statements.now))) }
    {
        for statement in statements {
            self.statement(statement)?;
        }
        Ok(())
    }

    fn port(&mut self, port: &'a Port<Name>) -> Result<(), NoMemory>
        ensures { IfOk result (λ _. told_of self.new ≡
            behind (told_of self.old) (port_part port.now)) }
    {
        match port {
            Port::Signal(port) => self.declare(signal_sort(port.direction), &port.signal.name),
            Port::Channel(channel) => self.declare(NameSort::Channel, &channel.name),
        }
    }

    pub fn ports(&mut self, ports: &'a [Port<Name>]) -> Result<(), NoMemory>
        ensures { IfOk result (λ _. told_of self.new ≡
            behind (told_of self.old) (in_order (map port_part ports.now))) }
    {
        for port in ports {
            self.port(port)?;
        }
        Ok(())
    }
}
