ghost use Rattle.std.specs.Prelude.{◌≡◌, [], None, IfOk, MatchOption};
ghost use Rattle.std.specs.List.{flat_map};
ghost use Rattle.sj_names.specs.definitions.Failures.{least_of, own_failures, failures_of, IsLeast};
ghost use Rattle.sj_names.specs.DomainNames.{names_in};

use crate::domains::Domains;
use crate::failure::Failure;
use crate::least::Least;
use crate::limits::places_of;
use crate::mention::Group;
use crate::program::TreeNames;
use java_values::NoMemory;
use kernel_terms::{MOST_CHANNELS, MOST_DOMAINS};
use std::alloc::Global;

impl Least {
    fn add_domain_names(&mut self, domains: &Domains<'_>)
        ensures { self.new.found ≡
            least_of self.old.found (flat_map (flat_map own_failures) (names_in domains.now)) }
    {
        for i in 0..domains.names.len() {
            self.add_names(&domains.names[i]);
        }
    }
}

impl TreeNames {
    ghost use Rattle.sj_names.specs.definitions.ReadNames.{tree_names_of};

    /// The first failure of the names, by place and then by kind, where there is one.
    pub fn first_failure(&self, alloc: Global) -> Result<Option<Failure>, NoMemory>
        ensures value { IfOk result (λ o. o ≡
            least_of None (failures_of (tree_names_of self.now))) }
        ensures least { IfOk result (λ o. MatchOption o (failures_of (tree_names_of self.now) ≡
            []) (λ f. IsLeast (failures_of (tree_names_of self.now)) f)) }
    {
        let domains = Domains::new(alloc, &self.domains)?;
        let signals = places_of(alloc, Group::PortSignal, &self.ports)?;
        let channels = places_of(alloc, Group::Channel, &self.ports)?;
        let mut least = Least { found: None };
        least.add_names(&self.ports);
        least.add_domain_names(&domains);
        least.add_shared(&domains);
        least.add_second_ends(alloc, &domains)?;
        least.add_unjoined(&domains, &channels)?;
        least.add_too_many(MOST_DOMAINS, &self.places);
        least.add_too_many(MOST_CHANNELS, &channels);
        least.add_limits(alloc, &domains, &signals)?;
        Ok(least.found)
    }
}
