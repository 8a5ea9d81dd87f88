// Laws of the grammar. Their functions do nothing.

ghost use Rattle.std.specs.Prelude.{◌≡◌, ◌↔◌, ℕ, true, false, List, []};
ghost use Rattle.sj_lexer.specs.declared.token.Token.{Token};
ghost use Rattle.sj_grammar.specs.definitions.Expressions.{Expr, print, IsExpr};
ghost use Rattle.sj_grammar.specs.definitions.Tests.{Test, print_test, IsTest};
ghost use Rattle.sj_grammar.specs.definitions.Programs.{Program, print_program, IsProgram};
ghost use Rattle.sj_grammar.specs.definitions.Sentences.{AreExpression, AreTest, AreProgram, BeginExpression, BeginTest, BeginProgram};
ghost use Rattle.sj_ast.specs.declared.name.Name.{Name};
ghost use Rattle.sj_ast.specs.declared.expression.Raw.{Raw};
ghost use Rattle.sj_ast.specs.declared.test.Test as signal_test;
ghost use Rattle.sj_grammar.specs.definitions.Trees.{SourceBlock};
ghost use Rattle.sj_grammar.specs.definitions.SourceTrees.{SourceTree, IsExpressionOf, IsTestOf, IsBlockOf, IsProgramOf};
ghost use Rattle.sj_grammar.specs.definitions.Machine.{Symbol, expression, test, program, can_read, reads};
ghost use Rattle.sj_grammar.specs.definitions.Walks.{walk};
ghost use Rattle.sj_grammar.specs.definitions.Limits.{Tells, IsWithin, IsTooDeepBehind};
ghost use Rattle.sj_grammar.specs.definitions.Counts.{AreWithin, IsOverBehind};

use sj_lexer::sources_have_one_reading;

/// Tokens begin an expression, a test or a program exactly where the machine can read them.
pub fn prefixes_are_what_can_be_read()
    ensures expressions { (tokens : List Token) →
        BeginExpression tokens ↔ (can_read expression tokens ≡ true) }
    ensures tests { (tokens : List Token) → BeginTest tokens ↔ (can_read test tokens ≡ true) }
    ensures programs { (tokens : List Token) →
        BeginProgram tokens ↔ (can_read program tokens ≡ true) }
{}

/// Tokens are an expression, a test or a program exactly where the machine reads them to an end.
pub fn sentences_are_what_is_read_whole()
    ensures expressions { (tokens : List Token) →
        AreExpression tokens ↔ (reads expression tokens ≡ true) }
    ensures tests { (tokens : List Token) → AreTest tokens ↔ (reads test tokens ≡ true) }
    ensures programs { (tokens : List Token) → AreProgram tokens ↔ (reads program tokens ≡ true) }
{}

/// A walk stops behind the longest run that can be read within the limits, or at the first token that is too
/// deep.
pub fn walks_tell_the_first_bad_token()
    ensures { (symbols : List Symbol) (levels operators : ℕ) (tokens : List Token) →
        Tells symbols levels operators tokens (walk symbols levels operators tokens) }
{}

/// Tokens are printed by one tree alone.
pub fn sentences_have_one_tree()
    ensures expressions { (e f : Expr) → IsExpr e → IsExpr f → print e [] ≡ print f [] → e ≡ f }
    ensures tests { (e f : Test) → IsTest e → IsTest f → print_test e [] ≡ print_test f [] → e ≡ f }
    ensures programs { (p q : Program) → IsProgram p → IsProgram q →
        print_program p [] ≡ print_program q [] → p ≡ q }
{}

/// In an expression and in a test the limits of the machine are those that are counted over the tokens.
pub fn limits_are_counted()
    ensures expressions { (d n : ℕ) (run rest : List Token) → IsWithin expression d n run rest →
        AreWithin true d n run rest }
    ensures tests { (d n : ℕ) (run rest : List Token) → IsWithin test d n run rest →
        AreWithin false d n run rest }
    ensures over_in_expressions { (d n : ℕ) (run : List Token) (token : Token) (after : List Token)
        → IsTooDeepBehind expression d n run token after → IsOverBehind true d n run token after }
    ensures over_in_tests { (d n : ℕ) (run : List Token) (token : Token) (after : List Token) →
        IsTooDeepBehind test d n run token after → IsOverBehind false d n run token after }
{}

/// A source has one tree at most as an expression, and as a test, a block and a program.
pub fn sources_have_one_tree()
    ensures expressions { (source : List ℕ) (t u : Raw Name) → IsExpressionOf source t →
        IsExpressionOf source u → t ≡ u }
    ensures tests { (source : List ℕ) (t u : signal_test.Test Name) → IsTestOf source t →
        IsTestOf source u → t ≡ u }
    ensures blocks { (source : List ℕ) (t u : SourceBlock) → IsBlockOf source t →
        IsBlockOf source u → t ≡ u }
    ensures programs { (source : List ℕ) (t u : SourceTree) → IsProgramOf source t →
        IsProgramOf source u → t ≡ u }
{
    sources_have_one_reading();
}
