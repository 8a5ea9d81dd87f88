ghost use Rattle.std.specs.Prelude.{◌≡◌, IfOk};

use java_values::{NoMemory, Value};
use kernel_terms::Expr;
use sqlite_items::Boxed;
use std::alloc::Global;

/// How an expression is written, where it is a literal. Parentheses around the whole change nothing else.
#[derive(Clone, Copy, Debug, PartialEq, Eq)]
pub enum Spelling {
    /// A literal by itself.
    Literal(Value),
    /// A literal in parentheses.
    Grouped(Value),
    /// A minus right before a literal.
    Minus(Value),
    /// A minus before a literal in parentheses.
    MinusGrouped(Value),
    /// `-2147483648` or `-9223372036854775808L`.
    Least(Value),
    /// Any other expression.
    Other,
}

/// An expression with its kind, as it is written.
#[derive(Debug, Drop)]
pub struct Operand {
    pub expr: Expr,
    /// The place of its first token.
    pub first: u32,
    pub spelling: Spelling,
}

/// The expression as a part of another.
pub fn boxed(alloc: Global, expr: Expr) -> Result<Boxed<Expr>, NoMemory>
    ensures { IfOk result (λ b. b ≡ expr) }
{
    Ok(Boxed::new(alloc, expr)?)
}
