// Laws on sources. Their functions do nothing.

ghost use Rattle.std.specs.Prelude.{◌≡◌, ℕ, List};
ghost use Rattle.sj_accept.specs.Lowered.{IsWhole};
ghost use Rattle.sj_accept.specs.declared.refusal.Refusal.{Refusal};
ghost use Rattle.sj_grammar.specs.definitions.SourceTrees.{SourceTree};
ghost use Rattle.sj_accept.specs.definitions.Sources.{IsParsed};
ghost use Rattle.sj_accept.specs.definitions.Programs.{LoweredProgram};
ghost use Rattle.sj_accept.specs.definitions.Accepted.{IsSourceOf, IsAccepted};
ghost use Rattle.sj_accept.specs.definitions.Refusals.{IsRefusedFor};

use sj_grammar::sentences_have_one_tree;
use sj_lexer::{name_tokens_are_names, sources_have_one_reading};

/// A source is one tree at most.
pub fn sources_are_one_tree()
    ensures { (source : List ℕ) (t u : SourceTree) → IsParsed source t → IsParsed source u → t ≡ u }
{
    sources_have_one_reading();
    sentences_have_one_tree();
}

/// A tree has a domain, and its ports have names.
pub fn trees_are_whole()
    ensures { (source : List ℕ) (tree : SourceTree) → IsParsed source tree → IsWhole tree }
{
    name_tokens_are_names();
}

/// A source is the source of one program at most.
pub fn sources_are_one_program()
    ensures { (source : List ℕ) (p q : LoweredProgram) → IsSourceOf source p → IsSourceOf source q →
        p ≡ q }
{
    sources_are_one_tree();
}

/// No accepted source is refused.
pub fn accepted_sources_are_not_refused()
    ensures { (source : List ℕ) (r : Refusal) → IsRefusedFor source r → IsAccepted source → ⊥ }
{
    sources_are_one_tree();
    sources_have_one_reading();
}

/// A source is refused for one reason at most, at one place.
pub fn sources_have_one_refusal()
    ensures { (source : List ℕ) (r s : Refusal) → IsRefusedFor source r → IsRefusedFor source s →
        r ≡ s }
{
    sources_are_one_tree();
    sources_have_one_reading();
}
