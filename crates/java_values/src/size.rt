ghost use Rattle.std.specs.Prelude.{◌≡◌};
ghost use Rattle.java_values.specs.Kinds.{promoted, promoted2};
ghost use Rattle.java_values.specs.Arithmetic.{size_kind};

use crate::kind::Kind;

/// One of the two kinds in which Java computes.
#[derive(Clone, Copy)]
pub enum Size {
    Int,
    Long,
}

pub fn kind_of(size: Size) -> Kind
    ensures { result ≡ size_kind size }
{
    match size {
        Size::Int => Kind::Int,
        Size::Long => Kind::Long,
    }
}

/// The size in which one operand is computed.
pub fn size_for(kind: Kind) -> Size
    ensures { size_kind result ≡ promoted kind }
{
    match kind {
        Kind::Long => Size::Long,
        Kind::Boolean | Kind::Byte | Kind::Short | Kind::Char | Kind::Int => Size::Int,
    }
}

/// The size in which two operands are computed.
pub fn size_for_both(a: Kind, b: Kind) -> Size
    ensures { size_kind result ≡ promoted2 a b }
{
    match a {
        Kind::Long => Size::Long,
        Kind::Boolean | Kind::Byte | Kind::Short | Kind::Char | Kind::Int => size_for(b),
    }
}
