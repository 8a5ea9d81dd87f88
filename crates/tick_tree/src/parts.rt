// What a term tells of its parts. Its functions do nothing: a walk over terms calls them for their clauses.

ghost use Rattle.std.specs.Prelude.{◌≡◌, ◌+◌, ◌<◌, ◌∷◌, true, false, length, slice_index_or, map, drop};
ghost use Rattle.std.specs.List.{list_all};
ghost use Rattle.kernel_terms.specs.Expressions.{expression, test};
ghost use Rattle.kernel_terms.specs.Statements.{If, Present, statement, sequence, parallel};
ghost use Rattle.tick_tree.specs.definitions.Exits.{exits_fit};

use kernel_terms::{Expr, Form, SigTest, Term};

/// The branches of a condition.
#[tactic(auto, using(crate::proofs::PartLists::parts_of_terms))]
pub fn if_parts_fit(term: &Term, cond: &Expr, yes: &Term, other: &Term)
    requires form { term.now.form ≡ Form.If cond.now yes.now other.now }
    ensures statement { statement term.now ≡
        If (expression cond.now) (statement yes.now) (statement other.now) }
    ensures left { exits_fit (statement term.now) ≡ true → exits_fit (statement yes.now) ≡ true }
    ensures right { exits_fit (statement term.now) ≡ true → exits_fit (statement other.now) ≡ true }
{}

/// The branches of a test.
#[tactic(auto, using(crate::proofs::PartLists::parts_of_terms))]
pub fn present_parts_fit(term: &Term, looked_at: &SigTest, yes: &Term, other: &Term)
    requires form { term.now.form ≡ Form.Present looked_at.now yes.now other.now }
    ensures statement { statement term.now ≡
        Present (test looked_at.now) (statement yes.now) (statement other.now) }
    ensures left { exits_fit (statement term.now) ≡ true → exits_fit (statement yes.now) ≡ true }
    ensures right { exits_fit (statement term.now) ≡ true → exits_fit (statement other.now) ≡ true }
{}

/// The parts of a sequence.
#[tactic(auto, using(crate::proofs::PartLists::parts_of_terms))]
pub fn sequence_parts_fit(term: &Term, parts: &[Term])
    requires form { term.now.form ≡ Form.Seq parts.now }
    ensures statement { statement term.now ≡ sequence (map statement parts.now) }
    ensures fit { exits_fit (statement term.now) ≡ true →
        list_all exits_fit (map statement parts.now) ≡ true }
{}

/// The parts that stand beside each other.
#[tactic(auto, using(crate::proofs::PartLists::parts_of_terms))]
pub fn parallel_parts_fit(term: &Term, parts: &[Term])
    requires form { term.now.form ≡ Form.Par parts.now }
    ensures statement { statement term.now ≡ parallel (map statement parts.now) }
    ensures fit { exits_fit (statement term.now) ≡ true →
        list_all exits_fit (map statement parts.now) ≡ true }
{}

/// The parts from the i-th on.
#[tactic(auto, using(crate::proofs::PartLists::first_parts))]
pub fn first_part_fits(parts: &[Term], i: usize, part: &Term)
    requires within { i < length parts.now }
    requires part { part.now ≡ slice_index_or parts.now i part.now }
    ensures parts { map statement (drop i parts.now) ≡
        statement part.now ∷ map statement (drop (i + 1) parts.now) }
    ensures fits { list_all exits_fit (map statement parts.now) ≡ true →
        exits_fit (statement part.now) ≡ true }
{}
