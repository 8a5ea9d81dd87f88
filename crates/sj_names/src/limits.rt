ghost use Rattle.std.specs.Prelude.{◌≡◌, ◌++◌, IfOk};
ghost use Rattle.sj_names.specs.DomainNames.{names_in};
ghost use Rattle.sj_names.specs.definitions.Failures.{is_in, is_new, least_of, places_of, is_signal, is_variable, too_many, limit_failures, domain_limit_failures};

use crate::domains::Domains;
use crate::failure::FailureKind;
use crate::least::Least;
use crate::mention::{Group, Mention, Role};
use java_values::NoMemory;
use kernel_terms::{MOST_SIGNALS, MOST_VARIABLES};
use std::alloc::Global;

impl Mention {
    /// Whether a name of this group is declared.
    fn is_new(&self, group: Group) -> bool
        ensures { result ≡ is_new (is_in group) self.now.role self.now.meaning }
    {
        match self.role {
            Role::Declare(sort) => self.meaning.is_none() && sort.is_in(group),
            _ => false,
        }
    }
}

/// The places of the names that are declared in this group.
pub fn places_of(alloc: Global, group: Group, mentions: &[Mention]) -> Result<Vec<u32>, NoMemory>
    ensures { IfOk result (λ places. places.items ≡ places_of (is_in group) mentions.now) }
{
    let mut places = Vec::new(alloc);
    for mention in mentions {
        if mention.is_new(group) {
            places.push(mention.at)?;
        }
    }
    Ok(places)
}

/// The places of the signals of a domain: those of the interface that belong to it, and its local ones.
fn signals_of(alloc: Global, owned: &[u32], mentions: &[Mention]) -> Result<Vec<u32>, NoMemory>
    ensures { IfOk result (λ places. places.items ≡ owned.now ++ places_of is_signal mentions.now) }
{
    let mut places = Vec::from_slice(alloc, owned)?;
    for mention in mentions {
        if mention.is_new(Group::Signal) {
            places.push(mention.at)?;
        }
    }
    Ok(places)
}

impl Least {
    /// The first place behind so many.
    pub fn add_too_many(&mut self, most: usize, places: &[u32])
        ensures { self.new.found ≡ least_of self.old.found (too_many most places.now) }
    {
        if let Some(at) = places.get(most) {
            self.add(*at, FailureKind::TooMany);
        }
    }

    /// The limits of one domain, to which these interface signals belong.
    pub fn add_domain_limits(
        &mut self,
        alloc: Global,
        owned: &[u32],
        mentions: &[Mention],
    ) -> Result<(), NoMemory>
        ensures { IfOk result (λ _. self.new.found ≡
            least_of self.old.found (limit_failures owned.now mentions.now)) }
    {
        let signals = signals_of(alloc, owned, mentions)?;
        let variables = places_of(alloc, Group::Variable, mentions)?;
        self.add_too_many(MOST_SIGNALS, &signals);
        self.add_too_many(MOST_VARIABLES, &variables);
        Ok(())
    }

    /// The limits of all domains, where the interface signals are declared at these places.
    pub fn add_limits(
        &mut self,
        alloc: Global,
        domains: &Domains<'_>,
        places: &[u32],
    ) -> Result<(), NoMemory>
        ensures { IfOk result (λ _. self.new.found ≡
            least_of self.old.found
            (domain_limit_failures (names_in domains.now) places.now 0 (names_in domains.now))) }
    {
        let owned = domains.owned_places(alloc, places)?;
        for i in 0..domains.names.len() {
            self.add_domain_limits(alloc, &owned[i], &domains.names[i])?;
        }
        Ok(())
    }
}
