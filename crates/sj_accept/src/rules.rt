ghost use Rattle.std.specs.Prelude.{◌≡◌, true, map, IsTrue, ◌↔◌};
ghost use Rattle.std.specs.List.{list_all};
ghost use Rattle.kernel_terms.specs.Statements.{statement};
ghost use Rattle.tick_tree.specs.definitions.Exits.{exits_fit};
ghost use Rattle.sj_accept.specs.StaticRules.{KeepsStaticRules, AllKeepStaticRules};

use crate::loops::loops_wait;
use kernel_terms::Term;
use tick_tree::{first_part_fits, weight};

/// How much a domain may weigh.
const MOST_WEIGHT: u64 = 100_000;

// Whether the statement keeps the rules on loops and weight.
#[tactic(auto, using(crate::proofs::StaticRuleLemmas::rules_by_weight))]
fn keeps_static_rules(term: &Term) -> bool
    requires fits { exits_fit (statement term.now) ≡ true }
    ensures { IsTrue result ↔ KeepsStaticRules (statement term.now) }
{
    loops_wait(term) && weight(term) <= MOST_WEIGHT
}

/// Whether the statement of each domain does.
pub fn keep_static_rules(domains: &[Term]) -> bool
    requires fit { list_all exits_fit (map statement domains.now) ≡ true }
    ensures { IsTrue result ↔ AllKeepStaticRules (map statement domains.now) }
{
    for i in 0..domains.len() {
        let term = &domains[i];
        first_part_fits(domains, i, term);
        if !keeps_static_rules(term) {
            return false;
        }
    }
    true
}
