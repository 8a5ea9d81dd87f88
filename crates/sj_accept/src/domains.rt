ghost use Rattle.std.specs.Prelude.{◌≡◌, IfOk, MatchOption, map, None};
ghost use Rattle.sj_accept.specs.Lowered.{AreTermsOf};
ghost use Rattle.sj_accept.specs.definitions.Optional.{all_some};
ghost use Rattle.sj_accept.specs.definitions.Lowering.{block_term};

use crate::lists::begins_with_item;
use crate::statements::block_term;
use java_values::NoMemory;
use kernel_terms::{Expr, Term};
use sj_ast::Block;
use std::alloc::Global;

/// The terms of the domains, where each has one.
pub fn domain_terms(
    alloc: Global,
    domains: &[Block<u32, Expr>],
) -> Result<Option<Vec<Term>>, NoMemory>
    ensures { IfOk result (λ o. MatchOption o (all_some (map block_term domains.now) ≡
        None) (λ v. AreTermsOf domains.now v.items)) }
{
    let mut terms = Vec::new(alloc);
    for i in 0..domains.len() {
        let domain = &domains[i];
        begins_with_item(domains, i, domain);
        let Some(term) = block_term(alloc, domain)? else {
            return Ok(None);
        };
        terms.push(term)?;
    }
    Ok(Some(terms))
}
