ghost use Rattle.std.specs.Prelude.{◌≡◌, ◌++◌, ◌∷◌, IfOk, map, drop};
ghost use Rattle.sj_names.specs.definitions.DeclaredTables.{operator_of, combination_of, kind_of, combine_of, signal_info, both, all, declared_form, declared_block, declared_stmt, declared_other, declared_domains};

use crate::ends::number_at;
use java_values::{Kind, NoMemory, Text};
use kernel_terms::{Combine, SignalInfo, Sort, VariableInfo};
use sj_ast::{Block, Combination, CombineOperator, Form, Name, Raw, Signal, Stmt, Valued};
use sqlite_items::Boxed;
use std::alloc::Global;

fn operator_of(operator: CombineOperator) -> Combine
    ensures { result ≡ operator_of operator }
{
    match operator {
        CombineOperator::Add => Combine::Add,
        CombineOperator::Max => Combine::Max,
        CombineOperator::Min => Combine::Min,
        CombineOperator::And => Combine::And,
        CombineOperator::Or => Combine::Or,
        CombineOperator::Xor => Combine::Xor,
    }
}

fn combination_of(kind: Kind, combination: Option<Combination>) -> Combine
    ensures { result ≡ combination_of kind combination }
{
    match combination {
        Some(combination) => operator_of(combination.operator),
        None => match kind {
            Kind::Boolean => Combine::Or,
            Kind::Byte | Kind::Short | Kind::Char | Kind::Int | Kind::Long => Combine::Max,
        },
    }
}

fn kind_of(valued: Option<Valued>) -> Option<Kind>
    ensures { result ≡ kind_of valued }
{
    match valued {
        Some(valued) => Some(valued.kind),
        None => None,
    }
}

fn combine_of(valued: Option<Valued>) -> Combine
    ensures { result ≡ combine_of valued }
{
    match valued {
        Some(valued) => combination_of(valued.kind, valued.combine),
        None => Combine::Max,
    }
}

/// The entry of a signal in the tables.
pub fn signal_info(
    alloc: Global,
    sort: Sort,
    domain: u32,
    signal: &Signal<Name>,
) -> Result<SignalInfo, NoMemory>
    ensures { IfOk result (λ info. info ≡ signal_info sort domain signal.now) }
{
    let name = Text::new(alloc, signal.name.text.bytes())?;
    Ok(SignalInfo {
        name,
        domain,
        sort,
        kind: kind_of(signal.valued),
        combine: combine_of(signal.valued),
    })
}

/// The signals and variables that statements declare, in order.
#[derive(Drop)]
pub struct Declarations {
    pub signals: Vec<SignalInfo>,
    pub variables: Vec<VariableInfo>,
}

impl Declarations {
    ghost use Rattle.sj_names.specs.DeclaredNames.{declared_in};

    #[cycle(declarations)]
    fn statement(
        &mut self,
        alloc: Global,
        domain: u32,
        statement: &Stmt<Name, Raw<Name>>,
    ) -> Result<(), NoMemory>
        ensures { IfOk result (λ _. declared_in self.new ≡
            both (declared_in self.old) (declared_stmt domain statement.now)) }
    {
        self.form(alloc, domain, &statement.form)
    }

    #[cycle(declarations)]
    fn form(
        &mut self,
        alloc: Global,
        domain: u32,
        form: &Form<Name, Raw<Name>>,
    ) -> Result<(), NoMemory>
        ensures { IfOk result (λ _. declared_in self.new ≡
            both (declared_in self.old) (declared_form domain form.now)) }
    {
        match form {
            Form::Declare(signal) => {
                let info = signal_info(alloc, Sort::Local, domain, signal)?;
                self.signals.push(info)?;
                Ok(())
            }
            Form::Variable { kind, .. } => {
                self.variables.push(VariableInfo {
                    domain,
                    kind: *kind,
                })?;
                Ok(())
            }
            Form::Par { first, others } => {
                self.block(alloc, domain, first)?;
                self.blocks(alloc, domain, others.as_slice())
            }
            Form::If { yes, other, .. } => {
                self.block(alloc, domain, yes.get())?;
                self.other(alloc, domain, other)
            }
            Form::Present { yes, other, .. } => {
                self.block(alloc, domain, yes.get())?;
                self.other(alloc, domain, other)
            }
            Form::While(body) => self.block(alloc, domain, body),
            Form::Abort { body, .. } => self.block(alloc, domain, body),
            Form::Suspend { body, .. } => self.block(alloc, domain, body),
            Form::Trap { body, .. } => self.block(alloc, domain, body),
            Form::Every { body, .. } => self.block(alloc, domain, body),
            Form::Loop { body, .. } => self.block(alloc, domain, body),
            _ => Ok(()),
        }
    }

    #[cycle(declarations)]
    fn other(
        &mut self,
        alloc: Global,
        domain: u32,
        block: &Option<Boxed<Block<Name, Raw<Name>>>>,
    ) -> Result<(), NoMemory>
        ensures { IfOk result (λ _. declared_in self.new ≡
            both (declared_in self.old) (declared_other domain block.now)) }
    {
        match block {
            Some(block) => self.block(alloc, domain, block.get()),
            None => Ok(()),
        }
    }

    #[cycle(declarations)]
    fn blocks(
        &mut self,
        alloc: Global,
        domain: u32,
        blocks: &[Block<Name, Raw<Name>>],
    ) -> Result<(), NoMemory>
        ensures { IfOk result (λ _. declared_in self.new ≡
            both (declared_in self.old) (all (map (declared_block domain) blocks.now))) }
    {
        for block in blocks {
            self.block(alloc, domain, block)?;
        }
        Ok(())
    }

    #[cycle(declarations)]
    fn block(
        &mut self,
        alloc: Global,
        domain: u32,
        block: &Block<Name, Raw<Name>>,
    ) -> Result<(), NoMemory>
        ensures { IfOk result (λ _. declared_in self.new ≡
            both (declared_in self.old) (declared_block domain block.now)) }
    {
        self.statements(alloc, domain, block.statements.as_slice())
    }

    #[cycle(declarations)]
    fn statements(
        &mut self,
        alloc: Global,
        domain: u32,
        statements: &[Stmt<Name, Raw<Name>>],
    ) -> Result<(), NoMemory>
        ensures { IfOk result (λ _. declared_in self.new ≡
            both (declared_in self.old) (all (map (declared_stmt domain) statements.now))) }
    {
        for statement in statements {
            self.statement(alloc, domain, statement)?;
        }
        Ok(())
    }

    fn domains(&mut self, alloc: Global, domains: &[Block<Name, Raw<Name>>]) -> Result<(), NoMemory>
        ensures { IfOk result (λ _. declared_in self.new ≡
            both (declared_in self.old) (declared_domains 0 domains.now)) }
    {
        for i in 0..domains.len() {
            let domain = number_at(i)?;
            self.block(alloc, domain, &domains[i])?;
        }
        Ok(())
    }

    /// What the domains declare.
    pub fn of(alloc: Global, domains: &[Block<Name, Raw<Name>>]) -> Result<Declarations, NoMemory>
        ensures { IfOk result (λ declared. declared_in declared ≡ declared_domains 0 domains.now) }
    {
        let mut declared = Declarations {
            signals: Vec::new(alloc),
            variables: Vec::new(alloc),
        };
        declared.domains(alloc, domains)?;
        Ok(declared)
    }
}
