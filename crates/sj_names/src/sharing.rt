ghost use Rattle.std.specs.Prelude.{◌≡◌, ◌∷◌, [], take};
ghost use Rattle.std.specs.List.{flat_map};
ghost use Rattle.sj_names.specs.declared.mention.Use.TheVariants.{PortSignal};
ghost use Rattle.sj_names.specs.definitions.Failures.{least_of, number_in, shared_failure, shared_failures};
ghost use Rattle.sj_names.specs.DomainNames.{names_in};

use crate::domains::Domains;
use crate::failure::FailureKind;
use crate::least::Least;
use crate::mention::{Mention, Use};

impl Least {
    fn add_shared_name(&mut self, domains: &Domains<'_>, domain: usize, mention: &Mention)
        ensures { self.new.found ≡
            least_of self.old.found
            (shared_failure (take domain (names_in domains.now)) mention.now.at
            (number_in PortSignal mention.now)) }
    {
        match mention.number(Use::PortSignal) {
            None => {}
            Some(signal) => {
                let shared = domains.is_earlier(Use::PortSignal, signal, domain);
                self.add_where(shared, mention.at, FailureKind::SignalShared);
            }
        }
    }

    fn add_shared_names(&mut self, domains: &Domains<'_>, domain: usize, mentions: &[Mention])
        ensures { self.new.found ≡
            least_of self.old.found
            (flat_map (λ m. shared_failure (take domain (names_in domains.now)) m.at
            (number_in PortSignal m)) mentions.now) }
    {
        for mention in mentions {
            self.add_shared_name(domains, domain, mention);
        }
    }

    /// The interface signals that an earlier domain mentions.
    pub fn add_shared(&mut self, domains: &Domains<'_>)
        ensures { self.new.found ≡
            least_of self.old.found (shared_failures [] (names_in domains.now)) }
    {
        for i in 0..domains.names.len() {
            self.add_shared_names(domains, i, &domains.names[i]);
        }
    }
}
