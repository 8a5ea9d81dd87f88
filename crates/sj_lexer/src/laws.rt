// Laws on tokens. Their functions do nothing.

ghost use Rattle.std.specs.Prelude.{◌≡◌, ℕ, true, List, Some, length, map};
ghost use Rattle.std.specs.List.{list_all};
ghost use Rattle.java_values.specs.Names.{reserved_words};
ghost use Rattle.sj_lexer.specs.definitions.ReservedWords.{reserved};
ghost use Rattle.sj_lexer.specs.definitions.Signs.{Sign, signs, longest_sign, is_no_longer};
ghost use Rattle.sj_lexer.specs.definitions.Readings.{AreTokens, IsRefused, HaveNames};
ghost use Rattle.sj_lexer.specs.declared.token.Token.{Token};
ghost use Rattle.sj_lexer.specs.declared.head.Fault.{Fault};

/// The reserved words are those that are no names.
pub fn reserved_words_are_no_names()
    ensures { map (λ r. r.text) reserved ≡ reserved_words }
{}

/// No sign with which the bytes begin is longer than the one that is taken.
#[tactic(auto, using(crate::proofs::OneReading::longest))]
pub fn longest_sign_is_taken()
    ensures { (bytes : List ℕ) (s : Sign) → longest_sign bytes ≡ Some s →
        list_all (is_no_longer bytes (length s.text)) signs ≡ true }
{}

/// A source has tokens or a first bad place, not both, and no two of either.
pub fn sources_have_one_reading()
    ensures tokens { (source : List ℕ) (ts us : List Token) → AreTokens source ts →
        AreTokens source us → ts ≡ us }
    ensures either { (source : List ℕ) (ts : List Token) (reason : Fault) (at : ℕ) →
        AreTokens source ts → IsRefused source reason at → ⊥ }
    ensures refusal { (source : List ℕ) (f g : Fault) (at place : ℕ) → IsRefused source f at →
        IsRefused source g place → (f ≡ g) × (at ≡ place) }
{}

/// The bytes of each token that is a name are a name.
#[tactic(auto, using(crate::proofs::NameTexts::tokens_have_names))]
pub fn name_tokens_are_names()
    ensures { (source : List ℕ) (ts : List Token) → AreTokens source ts → HaveNames source ts }
{}
