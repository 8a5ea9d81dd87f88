ghost use Rattle.std.specs.Prelude.{◌≡◌, ◌∷◌, [], IfOk, MatchOption};
ghost use Rattle.std.specs.List.{flat_map};
ghost use Rattle.java_types.specs.definitions.Checks.{first_of};
ghost use Rattle.java_types.specs.definitions.TypedTrees.{combination_failures, port_failures};

use crate::failure::TypeFailure;
use java_values::{Kind, NoMemory};
use sj_ast::{ChannelPort, CombineOperator, Port, Signal, SignalPort, Valued};
use sqlite_items::Items;
use std::alloc::Global;

/// What is wrong with the operator of a signal's `combine`.
pub fn combination_failure(valued: Option<Valued>) -> Option<TypeFailure>
    ensures { MatchOption result (combination_failures valued ≡
        []) (λ f. combination_failures valued ≡ f ∷ []) }
{
    let valued = valued?;
    let combination = valued.combine?;
    if valued.kind != Kind::Boolean {
        return None;
    }
    match combination.operator {
        CombineOperator::Add | CombineOperator::Max | CombineOperator::Min => {
            Some(TypeFailure::Mismatch(combination.at))
        }
        CombineOperator::And | CombineOperator::Or | CombineOperator::Xor => None,
    }
}

/// A declaration equal to this one.
pub fn copied_signal(signal: &Signal<u32>) -> Signal<u32>
    ensures { result ≡ signal.now }
{
    Signal {
        at: signal.at,
        name: signal.name,
        valued: signal.valued,
    }
}

fn port_failure(port: &Port<u32>) -> Option<TypeFailure>
    ensures { MatchOption result (port_failures port.now ≡ []) (λ f. port_failures port.now ≡
        f ∷ []) }
{
    match port {
        Port::Signal(port) => combination_failure(port.signal.valued),
        Port::Channel(_) => None,
    }
}

/// The first thing that is wrong with the ports.
pub fn first_port_failure(ports: &[Port<u32>]) -> Option<TypeFailure>
    ensures { MatchOption result (flat_map port_failures ports.now ≡
        []) (λ f. first_of (flat_map port_failures ports.now) ≡ Some f) }
{
    for port in ports {
        if let Some(failure) = port_failure(port) {
            return Some(failure);
        }
    }
    None
}

fn copied_port(port: &Port<u32>) -> Port<u32>
    ensures { result ≡ port.now }
{
    match port {
        Port::Signal(port) => Port::Signal(SignalPort {
            direction: port.direction,
            signal: copied_signal(&port.signal),
        }),
        Port::Channel(channel) => Port::Channel(ChannelPort {
            kind: channel.kind,
            at: channel.at,
            name: channel.name,
        }),
    }
}

/// Ports equal to these.
pub fn copied_ports(alloc: Global, ports: &[Port<u32>]) -> Result<Items<Port<u32>>, NoMemory>
    ensures { IfOk result (λ ps. ps ≡ ports.now) }
{
    let mut copies = Vec::new(alloc);
    for port in ports {
        copies.push(copied_port(port))?;
    }
    Ok(Items::from_vec(copies))
}
