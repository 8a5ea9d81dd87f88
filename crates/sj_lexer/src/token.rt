use java_values::Value;

/// A token of a source: the bytes from `start` up to `end`.
#[derive(Clone, Copy, Debug, PartialEq, Eq)]
pub struct Token {
    pub class: Class,
    pub start: u32,
    pub end: u32,
}

/// What a token is.
#[derive(Clone, Copy, Debug, PartialEq, Eq)]
pub enum Class {
    Reserved(Word),
    /// A word that isn't reserved, of at most 64 bytes.
    Name,
    /// A number or a character in the range of its kind.
    Literal(Value),
    /// `2147483648`: behind a minus it is the least `int`.
    IntEdge,
    /// `9223372036854775808L`: behind a minus it is the least `long`.
    LongEdge,
    Mark(Mark),
}

/// A reserved word.
#[derive(Clone, Copy, Debug, PartialEq, Eq)]
pub enum Word {
    System,
    Interface,
    Input,
    Output,
    Signal,
    Channel,
    Combine,
    Max,
    Min,
    Boolean,
    Byte,
    Short,
    Char,
    Int,
    Long,
    Pause,
    Halt,
    Emit,
    Sustain,
    If,
    Else,
    Present,
    While,
    True,
    False,
    Weak,
    Abort,
    Immediate,
    Suspend,
    Trap,
    Exit,
    Send,
    Receive,
    Await,
    Every,
    Loop,
    Each,
}

/// A sign.
#[derive(Clone, Copy, Debug, PartialEq, Eq)]
pub enum Mark {
    /// `{`
    OpenBrace,
    /// `}`
    CloseBrace,
    /// `(`
    OpenParen,
    /// `)`
    CloseParen,
    /// `;`
    Semicolon,
    /// `#`
    Hash,
    /// `=`
    Assign,
    /// `+`
    Plus,
    /// `-`
    Minus,
    /// `*`
    Star,
    /// `/`
    Slash,
    /// `%`
    Percent,
    /// `&`
    Ampersand,
    /// `|`
    Pipe,
    /// `^`
    Caret,
    /// `~`
    Tilde,
    /// `!`
    Bang,
    /// `<`
    Less,
    /// `>`
    Greater,
    /// `+=`
    PlusAssign,
    /// `-=`
    MinusAssign,
    /// `*=`
    StarAssign,
    /// `/=`
    SlashAssign,
    /// `%=`
    PercentAssign,
    /// `&=`
    AmpersandAssign,
    /// `|=`
    PipeAssign,
    /// `^=`
    CaretAssign,
    /// `<<=`
    ShlAssign,
    /// `>>=`
    ShrAssign,
    /// `>>>=`
    UshrAssign,
    /// `<<`
    Shl,
    /// `>>`
    Shr,
    /// `>>>`
    Ushr,
    /// `<=`
    LessEq,
    /// `>=`
    GreaterEq,
    /// `==`
    Equal,
    /// `!=`
    NotEqual,
    /// `&&`
    Both,
    /// `||`
    Either,
    /// `><`
    Beside,
}
