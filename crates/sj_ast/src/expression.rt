use java_values::{Kind, Op1, Op2, Value};
use sqlite_items::Boxed;

/// An expression without kinds. `at` is the byte offset of a token: of the literal, the name, the `#`,
/// the operator, or the `(` of a cast or of parentheses.
#[derive(Debug, Drop)]
pub enum Raw<N> {
    /// A number or a character, or `true` or `false`.
    Literal {
        at: u32,
        value: Value,
    },
    /// `-2147483648` or `-9223372036854775808L`, with the place of the minus.
    Least {
        at: u32,
        value: Value,
    },
    Variable {
        at: u32,
        name: N,
    },
    /// `#` and a name.
    Status {
        at: u32,
        name_at: u32,
        name: N,
    },
    Unary {
        at: u32,
        op: Op1,
        operand: Boxed<Raw<N>>,
    },
    Cast {
        at: u32,
        kind: Kind,
        operand: Boxed<Raw<N>>,
    },
    /// An expression in parentheses.
    Group {
        at: u32,
        inner: Boxed<Raw<N>>,
    },
    Binary {
        at: u32,
        op: Op2,
        left: Boxed<Raw<N>>,
        right: Boxed<Raw<N>>,
    },
}
