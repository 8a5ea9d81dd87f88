// The turns of a scheduled run.

ghost use Rattle.std.specs.Prelude.{◌<◌, ◌+◌, [], length, drop};
ghost use Rattle.signal_store.specs.definitions.Handed.{handed};
ghost use Rattle.gals_core.specs.BetweenTurns.{IsBetweenTurns};

use crate::channels::Channels;
use domain_core::Domain;
use kernel_terms::System;
use signal_store::Inputs;

// The turn of this number. That of an ended domain is skipped.
fn take_turn(
    system: &System,
    turns: &[u32],
    inputs: &Inputs,
    at: usize,
    domains: &mut Vec<Domain>,
    channels: &mut Channels,
)
    requires within { at < length turns.now }
    requires between { IsBetweenTurns system.now (handed inputs.now) turns.now (drop at turns.now)
        domains.old.items channels.old }
    ensures { IsBetweenTurns system.now (handed inputs.now) turns.now (drop (at + 1) turns.now)
        domains.new.items channels.new }
{
    let turn = turns[at];
    if domains[turn as usize].ended() {
        return;
    }
    channels.begin_turn(turn);
    domains[turn as usize].step(channels, inputs);
}

/// The turns from the first to the last.
pub fn take_turns(
    system: &System,
    turns: &[u32],
    inputs: &Inputs,
    domains: &mut Vec<Domain>,
    channels: &mut Channels,
)
    requires { IsBetweenTurns system.now (handed inputs.now) turns.now turns.now domains.old.items
        channels.old }
    ensures { IsBetweenTurns system.now (handed inputs.now) turns.now [] domains.new.items
        channels.new }
{
    for at in 0..turns.len() {
        take_turn(system, turns, inputs, at, domains, channels);
    }
}
