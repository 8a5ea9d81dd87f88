ghost use Rattle.std.specs.Prelude.{◌≡◌};
ghost use Rattle.std.specs.List.{list_all};
ghost use Rattle.sj_accept.specs.definitions.BuiltTables.{is_pure_output, is_int_channel, tables_are_built};

use java_values::Kind;
use kernel_terms::{ChannelInfo, Combine, SignalInfo, Sort, Tables};

fn is_pure_output(signal: &SignalInfo) -> bool
    ensures { result ≡ is_pure_output signal.now }
{
    matches!(signal.sort, Sort::Output)
        && signal.kind.is_none()
        && matches!(signal.combine, Combine::Max)
}

fn is_int_channel(channel: &ChannelInfo) -> bool
    ensures { result ≡ is_int_channel channel.now }
{
    matches!(channel.kind, Kind::Int)
}

fn signals_are_built(signals: &[SignalInfo]) -> bool
    ensures { result ≡ list_all is_pure_output signals.now }
{
    signals.iter().all(|signal| is_pure_output(signal))
}

fn channels_are_built(channels: &[ChannelInfo]) -> bool
    ensures { result ≡ list_all is_int_channel channels.now }
{
    channels.iter().all(|channel| is_int_channel(channel))
}

/// Whether all signals and all channels are built.
pub fn tables_are_built(tables: &Tables) -> bool
    ensures { result ≡ tables_are_built tables.now }
{
    signals_are_built(tables.signals.as_slice()) && channels_are_built(tables.channels.as_slice())
}
