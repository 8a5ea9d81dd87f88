// How many nodes expressions and tests have, up to 2^32.

ghost use Rattle.std.specs.Prelude.{◌≡◌, ◌+◌};
ghost use Rattle.kernel_terms.specs.Expressions.{expression, test};
ghost use Rattle.kernel_terms.specs.Statements.{optional_expression};
ghost use Rattle.tick_tree.specs.definitions.Leaves.{nodes_of, nodes_of_test, nodes_of_value};
ghost use Rattle.tick_tree.specs.definitions.Weight.{capped};

use kernel_terms::{Expr, ExprForm, SigTest};

const MOST: u64 = 0x1_0000_0000;

/// The sum, up to 2^32.
pub fn sum(a: u64, b: u64) -> u64
    ensures { result ≡ capped (a + b) }
{
    a.saturating_add(b).min(MOST)
}

/// The nodes of an expression.
pub fn of_expression(e: &Expr) -> u64
    ensures { result ≡ capped (nodes_of (expression e.now)) }
{
    match &e.form {
        ExprForm::Unary(_, operand) => sum(1, of_expression(operand.get())),
        ExprForm::Binary(_, left, right) => {
            sum(
                sum(1, of_expression(left.get())),
                of_expression(right.get()),
            )
        }
        ExprForm::Cast(operand) => sum(1, of_expression(operand.get())),
        _ => 1,
    }
}

/// The nodes of the value of an emission, where there is one.
pub fn of_value(value: &Option<Expr>) -> u64
    ensures { result ≡ capped (nodes_of_value (optional_expression value.now)) }
{
    match value {
        None => 0,
        Some(e) => of_expression(e),
    }
}

/// The nodes of a test.
pub fn of_test(t: &SigTest) -> u64
    ensures { result ≡ capped (nodes_of_test (test t.now)) }
{
    match t {
        SigTest::Signal(_) => 1,
        SigTest::Not(inner) => sum(1, of_test(inner.get())),
        SigTest::Both(left, right) => sum(sum(1, of_test(left.get())), of_test(right.get())),
        SigTest::Either(left, right) => sum(sum(1, of_test(left.get())), of_test(right.get())),
    }
}
