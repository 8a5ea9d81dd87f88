ghost use Rattle.std.specs.Prelude.{◌≡◌, IfOk};

use java_values::{NoMemory, Text};
use kernel_terms::{ChannelInfo, SignalInfo, Tables, VariableInfo};
use sqlite_items::Items;
use std::alloc::Global;

fn copied_signals(alloc: Global, signals: &[SignalInfo]) -> Result<Items<SignalInfo>, NoMemory>
    ensures { IfOk result (λ copies. copies ≡ signals.now) }
{
    let mut copies = Vec::new(alloc);
    for signal in signals {
        let name = Text::new(alloc, signal.name.bytes())?;
        copies.push(SignalInfo {
            name,
            domain: signal.domain,
            sort: signal.sort,
            kind: signal.kind,
            combine: signal.combine,
        })?;
    }
    Ok(Items::from_vec(copies))
}

fn copied_channels(alloc: Global, channels: &[ChannelInfo]) -> Result<Items<ChannelInfo>, NoMemory>
    ensures { IfOk result (λ copies. copies ≡ channels.now) }
{
    let mut copies = Vec::new(alloc);
    for channel in channels {
        let name = Text::new(alloc, channel.name.bytes())?;
        copies.push(ChannelInfo {
            name,
            kind: channel.kind,
            sender: channel.sender,
            receiver: channel.receiver,
        })?;
    }
    Ok(Items::from_vec(copies))
}

fn copied_variables(
    alloc: Global,
    variables: &[VariableInfo],
) -> Result<Items<VariableInfo>, NoMemory>
    ensures { IfOk result (λ copies. copies ≡ variables.now) }
{
    let mut copies = Vec::new(alloc);
    for variable in variables {
        copies.push(*variable)?;
    }
    Ok(Items::from_vec(copies))
}

/// Tables equal to these.
pub fn copied_tables(alloc: Global, tables: &Tables) -> Result<Tables, NoMemory>
    ensures { IfOk result (λ copy. copy ≡ tables.now) }
{
    let signals = copied_signals(alloc, tables.signals.as_slice())?;
    let channels = copied_channels(alloc, tables.channels.as_slice())?;
    let variables = copied_variables(alloc, tables.variables.as_slice())?;
    Ok(Tables {
        signals,
        channels,
        variables,
    })
}
