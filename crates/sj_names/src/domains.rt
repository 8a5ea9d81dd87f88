ghost use Rattle.std.specs.Prelude.{◌≡◌, ◌&&◌, IfOk, take};
ghost use Rattle.std.specs.List.{list_any};
ghost use Rattle.sj_names.specs.declared.mention.Use.TheVariants.{PortSignal, SendingEnd, ReceivingEnd, Receive};
ghost use Rattle.sj_names.specs.definitions.Failures.{uses, first_with};
ghost use Rattle.sj_names.specs.FirstDomains.{lists, AreFirst};

use crate::mention::{Mention, Use};
use crate::uses::FirstUses;
use java_values::NoMemory;
use std::alloc::Global;

/// The names of domains, and the first domain of each use.
#[derive(Drop)]
pub struct Domains<'a> {
    pub names: &'a [Vec<Mention>],
    signals: FirstUses,
    sending: FirstUses,
    receiving: FirstUses,
    receives: FirstUses,
    ghost signals_are: { AreFirst signals PortSignal (lists names.now) },
    ghost sending_are: { AreFirst sending SendingEnd (lists names.now) },
    ghost receiving_are: { AreFirst receiving ReceivingEnd (lists names.now) },
    ghost receives_are: { AreFirst receives Receive (lists names.now) },
}

impl<'a> Domains<'a> {
    ghost use Rattle.sj_names.specs.DomainNames.{names_in};

    pub fn new(alloc: Global, names: &'a [Vec<Mention>]) -> Result<Domains<'a>, NoMemory>
        ensures { IfOk result (λ domains. names_in domains ≡ lists names.now) }
    {
        Ok(Domains {
            names,
            signals: FirstUses::of(alloc, Use::PortSignal, names)?,
            sending: FirstUses::of(alloc, Use::SendingEnd, names)?,
            receiving: FirstUses::of(alloc, Use::ReceivingEnd, names)?,
            receives: FirstUses::of(alloc, Use::Receive, names)?,
        })
    }

    /// The first domain that uses the number so.
    pub fn first(&self, way: Use, number: u32) -> Option<usize>
        ensures { result ≡ first_with (uses way number) 0 (names_in self.now) }
    {
        match way {
            Use::PortSignal => self.signals.get(number),
            Use::SendingEnd => self.sending.get(number),
            Use::ReceivingEnd => self.receiving.get(number),
            Use::Receive => self.receives.get(number),
        }
    }

    /// Whether a domain before this one uses the number so.
    pub fn is_earlier(&self, way: Use, number: u32, domain: usize) -> bool
        ensures { result ≡ list_any (uses way number) (take domain (names_in self.now)) }
    {
        match self.first(way, number) {
            Some(first) => first < domain,
            None => false,
        }
    }

    /// Whether a domain uses the number so.
    pub fn is_used(&self, way: Use, number: u32) -> bool
        ensures { result ≡ list_any (uses way number) (names_in self.now) }
    {
        self.first(way, number).is_some()
    }

    /// Whether a `send` and a `receive` use the channel.
    pub fn is_joined(&self, channel: u32) -> bool
        ensures { result ≡
            (list_any (uses SendingEnd channel) (names_in self.now) &&
            list_any (uses Receive channel) (names_in self.now)) }
    {
        self.is_used(Use::SendingEnd, channel) && self.is_used(Use::Receive, channel)
    }
}
