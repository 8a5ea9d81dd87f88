ghost use Rattle.std.specs.Prelude.{◌≡◌, ◌++◌, ◌∷◌, ◌^◌, ◌≤◌, ℕ, [], IfOk, IsErr, take};
ghost use Rattle.sj_names.specs.declared.mention.Use.TheVariants.{SendingEnd, ReceivingEnd};
ghost use Rattle.sj_names.specs.definitions.Failures.{least_of, number_in, end_failure, both_end_failures, domain_end_failures, end_failures, unjoined_failures};
ghost use Rattle.sj_names.specs.DomainNames.{names_in};
ghost use Rattle.sj_names.specs.UsedHere.{AreHere};

use crate::domains::Domains;
use crate::failure::FailureKind;
use crate::least::Least;
use crate::mention::{Mention, Use};
use crate::uses::FirstUses;
use java_values::NoMemory;
use std::alloc::Global;

/// The number as one of names.
pub fn number_at(index: usize) -> Result<u32, NoMemory>
    ensures value { IfOk result (λ number. number ≡ index) }
    ensures full { IsErr result → 2 ^ 32 ≤ index }
{
    u32::try_from(index).map_err(|_| NoMemory)
}

/// The ends of channels that a domain has used.
#[derive(Drop)]
struct EndsHere {
    sending: FirstUses,
    receiving: FirstUses,
}

impl EndsHere {
    ghost use Rattle.sj_names.specs.EndsHere.{HasEnds};

    fn new(alloc: Global) -> EndsHere
        ensures { (domain : ℕ) → HasEnds result [] domain }
    {
        EndsHere {
            sending: FirstUses::new(alloc),
            receiving: FirstUses::new(alloc),
        }
    }
}

impl Least {
    ghost use Rattle.sj_names.specs.EndsHere.{HasEnds};

    fn add_end(
        &mut self,
        way: Use,
        other: Use,
        domains: &Domains<'_>,
        domain: usize,
        here: &FirstUses,
        before: &[Mention],
        mention: &Mention,
    )
        requires { AreHere here.now other before.now domain }
        ensures { self.new.found ≡
            least_of self.old.found
            (end_failure way other (take domain (names_in domains.now)) before.now mention.now.at
            (number_in way mention.now)) }
    {
        match mention.number(way) {
            None => {}
            Some(channel) => {
                let wrong = domains.is_earlier(way, channel, domain) || here.get(channel).is_some();
                self.add_where(wrong, mention.at, FailureKind::ChannelEnds);
            }
        }
    }

    fn add_ends(
        &mut self,
        domains: &Domains<'_>,
        domain: usize,
        here: &mut EndsHere,
        before: &[Mention],
        mention: &Mention,
    ) -> Result<(), NoMemory>
        requires { HasEnds here.old before.now domain }
        ensures found { IfOk result (λ _. self.new.found ≡
            least_of self.old.found
            (both_end_failures (take domain (names_in domains.now)) before.now mention.now)) }
        ensures here { IfOk result (λ _. HasEnds here.new (before.now ++ mention.now ∷ []) domain) }
    {
        let (sending, receiving) = (Use::SendingEnd, Use::ReceivingEnd);
        self.add_end(
            sending,
            receiving,
            domains,
            domain,
            &here.receiving,
            before,
            mention,
        );
        self.add_end(
            receiving,
            sending,
            domains,
            domain,
            &here.sending,
            before,
            mention,
        );
        here.sending.add(sending, mention, domain)?;
        here.receiving.add(receiving, mention, domain)
    }

    fn add_domain_ends(
        &mut self,
        alloc: Global,
        domains: &Domains<'_>,
        domain: usize,
        mentions: &[Mention],
    ) -> Result<(), NoMemory>
        ensures { IfOk result (λ _. self.new.found ≡
            least_of self.old.found
            (domain_end_failures (take domain (names_in domains.now)) [] mentions.now)) }
    {
        let mut here = EndsHere::new(alloc);
        for i in 0..mentions.len() {
            self.add_ends(domains, domain, &mut here, &mentions[..i], &mentions[i])?;
        }
        Ok(())
    }

    /// The uses that give a channel a second domain at one end, or one domain at both.
    pub fn add_second_ends(&mut self, alloc: Global, domains: &Domains<'_>) -> Result<(), NoMemory>
        ensures { IfOk result (λ _. self.new.found ≡
            least_of self.old.found (end_failures [] (names_in domains.now))) }
    {
        for i in 0..domains.names.len() {
            self.add_domain_ends(alloc, domains, i, &domains.names[i])?;
        }
        Ok(())
    }

    /// The channels, declared at these places, that no `send` or no `receive` uses.
    pub fn add_unjoined(&mut self, domains: &Domains<'_>, places: &[u32]) -> Result<(), NoMemory>
        ensures { IfOk result (λ _. self.new.found ≡
            least_of self.old.found (unjoined_failures (names_in domains.now) 0 places.now)) }
    {
        for i in 0..places.len() {
            let channel = number_at(i)?;
            let joined = domains.is_joined(channel);
            let at = places[i];
            self.add_where(!joined, at, FailureKind::ChannelEnds);
        }
        Ok(())
    }
}
