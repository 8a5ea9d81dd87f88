// What terms of the built forms tell of their parts, and how many registers they have.

ghost use Rattle.std.specs.Prelude.{◌≡◌, ◌+◌, ◌^◌, ◌<◌, ◌≤◌, ◌∷◌, length, slice_index_or, map, drop, true};
ghost use Rattle.kernel_terms.specs.Built.{is_built, all_built};
ghost use Rattle.kernel_terms.specs.Statements.{statement};
ghost use Rattle.tick_tree.specs.definitions.Exits.{exits_fit};
ghost use Rattle.domain_core.specs.equations.BuiltForms.{plain, whole};
ghost use Rattle.domain_core.specs.equations.BuiltRegisters.{registers};
ghost use Rattle.domain_core.specs.equations.CircuitLists.{registers_of};

use kernel_terms::{Form, Term};

// What the parts of a sequence tell of it.
#[tactic(auto, using(crate::proofs::lemmas::equations::BuiltLists::parts_of_sequences, crate::proofs::lemmas::equations::BuiltParts::built_parts))]
pub fn sequence_parts_are_built(term: &Term, parts: &[Term])
    requires { term.now.form ≡ Form.Seq parts.now }
    ensures registers { registers (plain term.now) ≡ registers_of (map plain parts.now) }
    ensures built { is_built term.now ≡ true → all_built (map is_built parts.now) ≡ true }
{}

// The parts from the i-th on.
#[tactic(auto, using(crate::proofs::lemmas::equations::BuiltLists::first_parts, crate::proofs::lemmas::equations::BuiltParts::built_parts))]
pub fn first_part_is_built(list: &[Term], i: usize, part: &Term, after: &[Term])
    requires within { i < length list.now }
    requires part { part.now ≡ slice_index_or list.now i part.now }
    requires after { after.now ≡ drop (i + 1) list.now }
    ensures parts { map plain (drop i list.now) ≡ plain part.now ∷ map plain after.now }
    ensures registers { registers_of (map plain (drop i list.now)) ≤ registers_of
        (map plain list.now) }
    ensures built { all_built (map is_built list.now) ≡ true → is_built part.now ≡ true }
    ensures after { all_built (map is_built list.now) ≡ true →
        all_built (map is_built after.now) ≡ true }
{}

// The body of a loop.
#[tactic(auto, using(crate::proofs::lemmas::equations::BuiltParts::built_parts))]
pub fn loop_body_is_built(term: &Term, body: &Term)
    requires { term.now.form ≡ Form.Loop body.now }
    ensures built { is_built term.now ≡ true → is_built body.now ≡ true }
{}

// A part of a list whose parts have the built forms alone.
#[tactic(auto, using(crate::proofs::lemmas::equations::BuiltParts::built_parts))]
pub fn part_is_built(list: &[Term], i: usize, part: &Term)
    requires within { i < length list.now }
    requires part { part.now ≡ slice_index_or list.now i part.now }
    requires built { all_built (map is_built list.now) ≡ true }
    ensures built { is_built part.now ≡ true }
{}

// What the rules say of a statement of the built forms, in which nothing exits to a trap.
#[tactic(auto, using(crate::proofs::lemmas::equations::BuiltEnds::exits_of_built))]
pub fn built_exits_fit(term: &Term)
    requires built { is_built term.now ≡ true }
    ensures statement { statement term.now ≡ whole (plain term.now) }
    ensures fit { exits_fit (statement term.now) ≡ true }
{}

/// How many registers the statement has.
#[cycle(count)]
pub fn count(term: &Term) -> usize
    requires room { registers (plain term.now) < 2 ^ 32 }
    ensures { result ≡ registers (plain term.now) }
{
    match &term.form {
        Form::Pause => 1,
        Form::Send { .. } => 3,
        Form::Receive { .. } => 2,
        Form::Seq(parts) => {
            let parts = parts.as_slice();
            sequence_parts_are_built(term, parts);
            count_all(parts)
        }
        Form::Loop(body) => count(body.get()),
        _ => 0,
    }
}

#[cycle(count)]
pub fn count_all(parts: &[Term]) -> usize
    requires room { registers_of (map plain parts.now) < 2 ^ 32 }
    ensures { result ≡ registers_of (map plain parts.now) }
{
    let mut sum = 0;
    for part in parts {
        sum += count(part);
    }
    sum
}
