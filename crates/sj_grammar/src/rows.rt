// Small sentences that the machine reads, and what it doesn't read. The functions do nothing.

ghost use Rattle.std.specs.Prelude.{◌≡◌, true, false, []};
ghost use Rattle.sj_grammar.specs.definitions.Machine.{expression, test, program, can_read, reads};
ghost use Rattle.sj_grammar.specs.definitions.SourceTrees.{IsExpressionOf, IsTestOf, IsBlockOf, IsProgramOf, IsNoExpressionOf, IsNoTestOf, IsNoBlockOf, IsNoProgramOf};
ghost use Rattle.sj_grammar.specs.TreeRows.{Each, operands, groupings, tests, plain_statements, kinds, combinations, updates, blocks, branches, programs, wrong_expressions, wrong_tests, wrong_blocks, wrong_programs};
ghost use Rattle.sj_grammar.specs.Rows.{least_int, edge_behind_operator, edge_behind_sign, cast_of_product, kind_and_name, half_sum, three_signals, program_of, ports, empty_block, two_domains, abort_beside, statements};

use sj_lexer::sources_have_one_reading;

/// Expressions and tests. A number that is one only behind a minus stands behind no other token.
pub fn small_expressions()
    ensures least_int { reads expression least_int ≡ true }
    ensures edge_behind_operator { can_read expression edge_behind_operator ≡ false }
    ensures edge_behind_sign { reads expression edge_behind_sign ≡ true }
    ensures cast { reads expression cast_of_product ≡ true }
    ensures kind_and_name { can_read expression kind_and_name ≡ false }
    ensures half_can_be_read { can_read expression half_sum ≡ true }
    ensures half_is_none { reads expression half_sum ≡ false }
    ensures test { reads test three_signals ≡ true }
    ensures expression_is_no_test { can_read test least_int ≡ false }
{}

/// Programs. `||` stands behind a block that is a statement, and not behind the body of another one.
pub fn small_programs()
    ensures one_domain { reads program (program_of [] empty_block) ≡ true }
    ensures no_domain { can_read program (program_of [] []) ≡ false }
    ensures interface { reads program (program_of ports two_domains) ≡ true }
    ensures statements { reads program (program_of ports statements) ≡ true }
    ensures abort_beside { can_read program (program_of [] abort_beside) ≡ false }
{}

/// Small sources and their trees, each part at its place.
pub fn small_trees()
    ensures operands { Each IsExpressionOf operands }
    ensures groupings { Each IsExpressionOf groupings }
    ensures tests { Each IsTestOf tests }
    ensures plain_statements { Each IsBlockOf plain_statements }
    ensures kinds { Each IsBlockOf kinds }
    ensures combinations { Each IsBlockOf combinations }
    ensures updates { Each IsBlockOf updates }
    ensures blocks { Each IsBlockOf blocks }
    ensures branches { Each IsBlockOf branches }
    ensures programs { Each IsProgramOf programs }
{}

/// Trees that small sources aren't.
pub fn wrong_trees()
    ensures expressions { Each IsNoExpressionOf wrong_expressions }
    ensures tests { Each IsNoTestOf wrong_tests }
    ensures blocks { Each IsNoBlockOf wrong_blocks }
    ensures programs { Each IsNoProgramOf wrong_programs }
{
    sources_have_one_reading();
}
