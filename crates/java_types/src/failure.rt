use java_values::NoMemory;
use thiserror::Error;

/// What is wrong with the kinds of a tree. Places are byte offsets from 0.
#[derive(Clone, Copy, Debug, PartialEq, Eq, Error)]
pub enum TypeFailure {
    /// An operator or a cast that doesn't take the kinds of its operands; an expression of another kind than what it
    /// is given to, or a condition that isn't `boolean`; a signal that has a value where none may be, or none where one
    /// must be; a combination that its signal's kind doesn't take.
    #[error("kinds that do not fit at {0}")]
    Mismatch(u32),
    /// An expression that may not be a divisor.
    #[error("a divisor at {0}")]
    Divisor(u32),
}

/// Why a tree has no kinds.
#[derive(Clone, Copy, Debug, PartialEq, Eq, Error)]
pub enum TypeError {
    /// The first failure, in the order in which the tree is read.
    #[error("{0}")]
    Failed(TypeFailure),
    /// An allocation was refused.
    #[error("no memory")]
    NoMemory,
}

impl From<NoMemory> for TypeError {
    ghost use Rattle.java_types.specs.declared.failure.TypeError.TheVariants as error;
    ghost use Rattle.std.specs.Prelude.{◌≡◌};

    ghost from_gives = { λ _ e. e ≡ error.NoMemory };

    fn from(_error: NoMemory) -> TypeError {
        TypeError::NoMemory
    }
}
