ghost use Rattle.std.specs.Prelude.{◌≡◌, ℕ, IfOk, None, Some};
ghost use Rattle.sj_names.specs.declared.mention.Use.TheVariants.{PortSignal};
ghost use Rattle.sj_names.specs.definitions.Failures.{used, number_in, channel_where};

use crate::mention::{Meaning, Mention, Role, Use};
use java_values::NoMemory;
use std::alloc::Global;
use std::collections::BTreeMap;

fn used(role: Role, meaning: Option<Meaning>) -> Option<Meaning>
    ensures { result ≡ used role meaning }
{
    match meaning {
        None => None,
        Some(found) => {
            if role.fits(found.sort) {
                Some(found)
            } else {
                None
            }
        }
    }
}

impl Mention {
    fn channel_where(&self, test: bool) -> Option<u32>
        ensures { result ≡ channel_where test self.now }
    {
        if !test {
            return None;
        }
        match used(self.role, self.meaning) {
            None => None,
            Some(found) => {
                if found.sort.is_channel() {
                    Some(found.number)
                } else {
                    None
                }
            }
        }
    }

    fn port_signal(&self) -> Option<u32>
        ensures { result ≡ number_in PortSignal self.now }
    {
        match used(self.role, self.meaning) {
            None => None,
            Some(found) => {
                if found.sort.is_port_signal() {
                    Some(found.number)
                } else {
                    None
                }
            }
        }
    }

    /// The number of the interface signal or of the channel that the name uses so.
    pub fn number(&self, way: Use) -> Option<u32>
        ensures { result ≡ number_in way self.now }
    {
        match way {
            Use::PortSignal => self.port_signal(),
            Use::SendingEnd => self.channel_where(matches!(self.role, Role::Send)),
            Use::ReceivingEnd => self.channel_where(!matches!(self.role, Role::Send)),
            Use::Receive => self.channel_where(matches!(self.role, Role::Receive)),
        }
    }
}

/// The first domain that uses each number.
#[derive(Drop)]
pub struct FirstUses {
    domains: BTreeMap<u32, usize>,
}

impl FirstUses {
    ghost use Rattle.sj_names.specs.FirstDomains.{first_user, lists, Claims, UsesAll, AreFirst};

    pub fn new(alloc: Global) -> FirstUses
        ensures { (n : ℕ) → first_user result n ≡ None }
    {
        FirstUses {
            domains: BTreeMap::new(alloc),
        }
    }

    pub fn get(&self, number: u32) -> Option<usize>
        ensures { result ≡ first_user self.now number }
    {
        self.domains.get(&number).copied()
    }

    fn claim(&mut self, number: u32, domain: usize) -> Result<(), NoMemory>
        ensures { IfOk result (λ _. Claims self.old self.new (Some number) domain) }
    {
        if self.get(number).is_none() {
            self.domains.insert(number, domain)?;
        }
        Ok(())
    }

    /// The domain uses what the name uses so.
    pub fn add(&mut self, way: Use, mention: &Mention, domain: usize) -> Result<(), NoMemory>
        ensures { IfOk result (λ _. Claims self.old self.new (number_in way mention.now) domain) }
    {
        match mention.number(way) {
            None => Ok(()),
            Some(number) => self.claim(number, domain),
        }
    }

    fn add_all(&mut self, way: Use, mentions: &[Mention], domain: usize) -> Result<(), NoMemory>
        ensures { IfOk result (λ _. UsesAll self.old self.new way mentions.now domain) }
    {
        for mention in mentions {
            self.add(way, mention, domain)?;
        }
        Ok(())
    }

    /// The first of these domains that uses each number so.
    pub fn of(alloc: Global, way: Use, domains: &[Vec<Mention>]) -> Result<FirstUses, NoMemory>
        ensures { IfOk result (λ first. AreFirst first way (lists domains.now)) }
    {
        let mut first = FirstUses::new(alloc);
        for i in 0..domains.len() {
            first.add_all(way, &domains[i], i)?;
        }
        Ok(first)
    }
}
