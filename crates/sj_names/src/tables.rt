ghost use Rattle.std.specs.Prelude.{◌≡◌, ◌++◌, ◌∷◌, [], IfOk, drop, length};
ghost use Rattle.sj_ast.specs.declared.port.Port.TheVariants as port_is;
ghost use Rattle.sj_names.specs.definitions.Failures.{first_domain};
ghost use Rattle.sj_names.specs.definitions.DeclaredTables.{sort_of, port_signals, port_channels, tables_of_tree};
ghost use Rattle.sj_names.specs.definitions.Mentions.{names_of_tree};
ghost use Rattle.sj_names.specs.DomainNames.{names_in};
ghost use Rattle.sj_names.specs.definitions.ReadNames.{tree_names_of};

use crate::declared::{Declarations, signal_info};
use crate::domains::Domains;
use crate::ends::number_at;
use crate::mention::Use;
use crate::program::TreeNames;
use java_values::{NoMemory, Text};
use kernel_terms::{ChannelInfo, SignalInfo, Sort, Tables};
use sj_ast::{ChannelPort, Direction, Name, Port, Raw, SignalPort, Tree};
use sqlite_items::Items;
use std::alloc::Global;

fn sort_of(direction: Direction) -> Sort
    ensures { result ≡ sort_of direction }
{
    match direction {
        Direction::Input => Sort::Input,
        Direction::Output => Sort::Output,
    }
}

impl Domains<'_> {
    /// The first domain that uses the number so, or domain 0.
    fn first_domain(&self, way: Use, number: u32) -> Result<u32, NoMemory>
        ensures { IfOk result (λ domain. domain ≡ first_domain (names_in self.now) way number) }
    {
        number_at(self.first(way, number).unwrap_or(0))
    }
}

/// The entries of the ports in the tables.
#[derive(Drop)]
struct PortTables {
    signals: Vec<SignalInfo>,
    channels: Vec<ChannelInfo>,
}

impl PortTables {
    fn add_signal(
        &mut self,
        alloc: Global,
        domains: &Domains<'_>,
        port: &SignalPort<Name>,
    ) -> Result<(), NoMemory>
        ensures signals { IfOk result (λ _. self.new.signals.items ≡
            self.old.signals.items ++
            port_signals (names_in domains.now) (length self.old.signals.items)
            (port_is.Signal port.now ∷ [])) }
        ensures channels { self.new.channels ≡ self.old.channels }
    {
        let number = number_at(self.signals.len())?;
        let domain = domains.first_domain(Use::PortSignal, number)?;
        let info = signal_info(alloc, sort_of(port.direction), domain, &port.signal)?;
        self.signals.push(info)?;
        Ok(())
    }

    fn add_channel(
        &mut self,
        alloc: Global,
        domains: &Domains<'_>,
        port: &ChannelPort<Name>,
    ) -> Result<(), NoMemory>
        ensures signals { self.new.signals ≡ self.old.signals }
        ensures channels { IfOk result (λ _. self.new.channels.items ≡
            self.old.channels.items ++
            port_channels (names_in domains.now) (length self.old.channels.items)
            (port_is.Channel port.now ∷ [])) }
    {
        let number = number_at(self.channels.len())?;
        let sender = domains.first_domain(Use::SendingEnd, number)?;
        let receiver = domains.first_domain(Use::ReceivingEnd, number)?;
        let name = Text::new(alloc, port.name.text.bytes())?;
        self.channels.push(ChannelInfo {
            name,
            kind: port.kind,
            sender,
            receiver,
        })?;
        Ok(())
    }

    fn add(
        &mut self,
        alloc: Global,
        domains: &Domains<'_>,
        port: &Port<Name>,
    ) -> Result<(), NoMemory>
        ensures signals { IfOk result (λ _. self.new.signals.items ≡
            self.old.signals.items ++
            port_signals (names_in domains.now) (length self.old.signals.items) (port.now ∷ [])) }
        ensures channels { IfOk result (λ _. self.new.channels.items ≡
            self.old.channels.items ++
            port_channels (names_in domains.now) (length self.old.channels.items) (port.now ∷ [])) }
    {
        match port {
            Port::Signal(port) => self.add_signal(alloc, domains, port),
            Port::Channel(port) => self.add_channel(alloc, domains, port),
        }
    }

    fn of(
        alloc: Global,
        domains: &Domains<'_>,
        ports: &[Port<Name>],
    ) -> Result<PortTables, NoMemory>
        ensures signals { IfOk result (λ tables. tables.signals.items ≡
            port_signals (names_in domains.now) 0 ports.now) }
        ensures channels { IfOk result (λ tables. tables.channels.items ≡
            port_channels (names_in domains.now) 0 ports.now) }
    {
        let mut tables = PortTables {
            signals: Vec::new(alloc),
            channels: Vec::new(alloc),
        };
        for port in ports {
            tables.add(alloc, domains, port)?;
        }
        Ok(tables)
    }
}

/// The tables of the tree that has these names.
pub fn tables_of_tree(
    alloc: Global,
    names: &TreeNames,
    tree: &Tree<Name, Raw<Name>>,
) -> Result<Tables, NoMemory>
    requires { tree_names_of names.now ≡ names_of_tree tree.now }
    ensures { IfOk result (λ tables. tables ≡ tables_of_tree tree.now) }
{
    let domains = Domains::new(alloc, &names.domains)?;
    let mut ports = PortTables::of(alloc, &domains, tree.ports.as_slice())?;
    let mut declared = Declarations::of(alloc, tree.domains.as_slice())?;
    ports.signals.append(&mut declared.signals)?;
    Ok(Tables {
        signals: Items::from_vec(ports.signals),
        channels: Items::from_vec(ports.channels),
        variables: Items::from_vec(declared.variables),
    })
}
