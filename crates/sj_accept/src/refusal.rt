use java_types::TypeFailure;
use java_values::NoMemory;
use sj_names::Failure;
use thiserror::Error;

/// Why a source is not accepted. Places are byte offsets from 0. Tokens are looked at before the grammar, the grammar
/// before the names, the names before the kinds, and the kinds before all other rules.
#[derive(Clone, Copy, Debug, PartialEq, Eq, Error)]
pub enum Refusal {
    /// A byte that begins no token, a `'` that begins no character, or the 65th byte of a word.
    #[error("a bad byte at {0}")]
    BadByte(u32),
    /// A token that begins with a digit, and isn't spelled as a number or is out of range.
    #[error("a bad number at {0}")]
    BadNumber(u32),
    /// A `/*` behind which no `*/` stands.
    #[error("an open comment at {0}")]
    OpenComment(u32),
    /// The first token up to and with which the tokens begin no program, or the end of the source.
    #[error("an unexpected token at {0}")]
    Syntax(u32),
    /// A token that opens the 65th level, or is the 257th operator of one expression or test.
    #[error("too deep at {0}")]
    TooDeep(u32),
    /// The first thing that is wrong with the names, by place and then by kind.
    #[error("a failure of names")]
    Names(Failure),
    /// The first thing that is wrong with the kinds, in the order in which the source is read.
    #[error("{0}")]
    Kinds(TypeFailure),
    /// A form that isn't built yet, or a rule on loops or weight that is broken.
    #[error("not accepted yet")]
    Later,
}

/// Why a source has no system.
#[derive(Clone, Copy, Debug, PartialEq, Eq, Error)]
pub enum AcceptError {
    /// The source is refused.
    #[error("{0}")]
    Refused(Refusal),
    /// An allocation was refused.
    #[error("no memory")]
    NoMemory,
}

impl From<NoMemory> for AcceptError {
    ghost use Rattle.sj_accept.specs.declared.refusal.AcceptError.TheVariants as error;
    ghost use Rattle.std.specs.Prelude.{◌≡◌};

    ghost from_gives = { λ _ e. e ≡ error.NoMemory };

    fn from(_error: NoMemory) -> AcceptError {
        AcceptError::NoMemory
    }
}
