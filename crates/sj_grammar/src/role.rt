ghost use Rattle.std.specs.Prelude.{◌≡◌};
ghost use Rattle.sj_grammar.specs.definitions.Classes.{same};
ghost use Rattle.sj_grammar.specs.definitions.Roles.{infix_of, sign_of, kind_of, assign_of, combine_of, direction_of, join_of, lead_of, test_lead_of, start_of, is_edge, level_of, join_level};

use java_values::{Kind, Op1, Op2};
use sj_ast::{CombineOperator, Direction};
use sj_lexer::{Class, Mark, Word};

/// What a token begins where an operand is expected.
#[derive(Clone, Copy, Debug, PartialEq, Eq)]
pub enum Lead {
    /// A literal, `true`, `false` or a name.
    Atom,
    Hash,
    /// An operator with one operand that isn't `-`.
    Prefix(Op1),
    Minus,
    /// A cast, or an expression in parentheses.
    Open,
    Nothing,
}

/// What a token begins where a part of a test is expected.
#[derive(Clone, Copy, Debug, PartialEq, Eq)]
pub enum TestLead {
    Signal,
    Not,
    Open,
    Nothing,
}

/// An operator of tests with two operands.
#[derive(Clone, Copy, Debug, PartialEq, Eq)]
pub enum Join {
    /// `||`
    Either,
    /// `&&`
    Both,
}

/// The statement that a token begins.
#[derive(Clone, Copy, Debug, PartialEq, Eq)]
pub enum Start {
    Empty,
    /// A block, and those that stand beside it.
    Braces,
    /// `pause` or `halt`
    Still,
    /// `emit` or `sustain`
    Emit,
    Signal,
    /// A variable or a valued signal of this kind.
    Kind(Kind),
    /// An assignment.
    Name,
    If,
    Present,
    While,
    /// `weak abort`
    Weak,
    /// `abort`, `suspend` or `every`
    Guarded,
    Trap,
    Exit,
    Send,
    Receive,
    Await,
    Loop,
    Nothing,
}

/// The operator with two operands that a token is.
pub fn infix_of(class: Class) -> Option<Op2>
    ensures { result ≡ infix_of class }
{
    match class {
        Class::Mark(Mark::Either) => Some(Op2::Either),
        Class::Mark(Mark::Both) => Some(Op2::Both),
        Class::Mark(Mark::Pipe) => Some(Op2::Or),
        Class::Mark(Mark::Caret) => Some(Op2::Xor),
        Class::Mark(Mark::Ampersand) => Some(Op2::And),
        Class::Mark(Mark::Equal) => Some(Op2::Equal),
        Class::Mark(Mark::NotEqual) => Some(Op2::NotEqual),
        Class::Mark(Mark::Less) => Some(Op2::Less),
        Class::Mark(Mark::LessEq) => Some(Op2::LessEq),
        Class::Mark(Mark::Greater) => Some(Op2::Greater),
        Class::Mark(Mark::GreaterEq) => Some(Op2::GreaterEq),
        Class::Mark(Mark::Shl) => Some(Op2::Shl),
        Class::Mark(Mark::Shr) => Some(Op2::Shr),
        Class::Mark(Mark::Ushr) => Some(Op2::Ushr),
        Class::Mark(Mark::Plus) => Some(Op2::Add),
        Class::Mark(Mark::Minus) => Some(Op2::Sub),
        Class::Mark(Mark::Star) => Some(Op2::Mul),
        Class::Mark(Mark::Slash) => Some(Op2::Div),
        Class::Mark(Mark::Percent) => Some(Op2::Rem),
        _ => None,
    }
}

/// The operator with one operand that a token is.
pub fn sign_of(class: Class) -> Option<Op1>
    ensures { result ≡ sign_of class }
{
    match class {
        Class::Mark(Mark::Plus) => Some(Op1::Plus),
        Class::Mark(Mark::Minus) => Some(Op1::Minus),
        Class::Mark(Mark::Tilde) => Some(Op1::BitNot),
        Class::Mark(Mark::Bang) => Some(Op1::Not),
        _ => None,
    }
}

/// The kind that a word names.
pub fn kind_of(class: Class) -> Option<Kind>
    ensures { result ≡ kind_of class }
{
    match class {
        Class::Reserved(Word::Boolean) => Some(Kind::Boolean),
        Class::Reserved(Word::Byte) => Some(Kind::Byte),
        Class::Reserved(Word::Short) => Some(Kind::Short),
        Class::Reserved(Word::Char) => Some(Kind::Char),
        Class::Reserved(Word::Int) => Some(Kind::Int),
        Class::Reserved(Word::Long) => Some(Kind::Long),
        _ => None,
    }
}

/// The operator of an assignment, where it has one.
pub fn assign_of(class: Class) -> Option<Option<Op2>>
    ensures { result ≡ assign_of class }
{
    match class {
        Class::Mark(Mark::Assign) => Some(None),
        Class::Mark(Mark::PlusAssign) => Some(Some(Op2::Add)),
        Class::Mark(Mark::MinusAssign) => Some(Some(Op2::Sub)),
        Class::Mark(Mark::StarAssign) => Some(Some(Op2::Mul)),
        Class::Mark(Mark::SlashAssign) => Some(Some(Op2::Div)),
        Class::Mark(Mark::PercentAssign) => Some(Some(Op2::Rem)),
        Class::Mark(Mark::AmpersandAssign) => Some(Some(Op2::And)),
        Class::Mark(Mark::PipeAssign) => Some(Some(Op2::Or)),
        Class::Mark(Mark::CaretAssign) => Some(Some(Op2::Xor)),
        Class::Mark(Mark::ShlAssign) => Some(Some(Op2::Shl)),
        Class::Mark(Mark::ShrAssign) => Some(Some(Op2::Shr)),
        Class::Mark(Mark::UshrAssign) => Some(Some(Op2::Ushr)),
        _ => None,
    }
}

/// How emissions are combined.
pub fn combine_of(class: Class) -> Option<CombineOperator>
    ensures { result ≡ combine_of class }
{
    match class {
        Class::Mark(Mark::Plus) => Some(CombineOperator::Add),
        Class::Reserved(Word::Max) => Some(CombineOperator::Max),
        Class::Reserved(Word::Min) => Some(CombineOperator::Min),
        Class::Mark(Mark::Ampersand) => Some(CombineOperator::And),
        Class::Mark(Mark::Pipe) => Some(CombineOperator::Or),
        Class::Mark(Mark::Caret) => Some(CombineOperator::Xor),
        _ => None,
    }
}

/// The direction of a signal of the interface.
pub fn direction_of(class: Class) -> Option<Direction>
    ensures { result ≡ direction_of class }
{
    match class {
        Class::Reserved(Word::Input) => Some(Direction::Input),
        Class::Reserved(Word::Output) => Some(Direction::Output),
        _ => None,
    }
}

/// The operator of a test that a token is.
pub fn join_of(class: Class) -> Option<Join>
    ensures { result ≡ join_of class }
{
    match class {
        Class::Mark(Mark::Either) => Some(Join::Either),
        Class::Mark(Mark::Both) => Some(Join::Both),
        _ => None,
    }
}

/// What a token begins where an operand is expected.
pub fn lead_of(class: Class) -> Lead
    ensures { result ≡ lead_of class }
{
    match class {
        Class::Name => Lead::Atom,
        Class::Literal(_) => Lead::Atom,
        Class::Reserved(Word::True) => Lead::Atom,
        Class::Reserved(Word::False) => Lead::Atom,
        Class::Mark(Mark::Hash) => Lead::Hash,
        Class::Mark(Mark::Plus) => Lead::Prefix(Op1::Plus),
        Class::Mark(Mark::Tilde) => Lead::Prefix(Op1::BitNot),
        Class::Mark(Mark::Bang) => Lead::Prefix(Op1::Not),
        Class::Mark(Mark::Minus) => Lead::Minus,
        Class::Mark(Mark::OpenParen) => Lead::Open,
        _ => Lead::Nothing,
    }
}

/// What a token begins where a part of a test is expected.
pub fn test_lead_of(class: Class) -> TestLead
    ensures { result ≡ test_lead_of class }
{
    match class {
        Class::Name => TestLead::Signal,
        Class::Mark(Mark::Bang) => TestLead::Not,
        Class::Mark(Mark::OpenParen) => TestLead::Open,
        _ => TestLead::Nothing,
    }
}

/// The statement that a token begins.
pub fn start_of(class: Class) -> Start
    ensures { result ≡ start_of class }
{
    match class {
        Class::Mark(Mark::Semicolon) => Start::Empty,
        Class::Mark(Mark::OpenBrace) => Start::Braces,
        Class::Reserved(Word::Pause) => Start::Still,
        Class::Reserved(Word::Halt) => Start::Still,
        Class::Reserved(Word::Emit) => Start::Emit,
        Class::Reserved(Word::Sustain) => Start::Emit,
        Class::Reserved(Word::Signal) => Start::Signal,
        Class::Reserved(Word::Boolean) => Start::Kind(Kind::Boolean),
        Class::Reserved(Word::Byte) => Start::Kind(Kind::Byte),
        Class::Reserved(Word::Short) => Start::Kind(Kind::Short),
        Class::Reserved(Word::Char) => Start::Kind(Kind::Char),
        Class::Reserved(Word::Int) => Start::Kind(Kind::Int),
        Class::Reserved(Word::Long) => Start::Kind(Kind::Long),
        Class::Name => Start::Name,
        Class::Reserved(Word::If) => Start::If,
        Class::Reserved(Word::Present) => Start::Present,
        Class::Reserved(Word::While) => Start::While,
        Class::Reserved(Word::Weak) => Start::Weak,
        Class::Reserved(Word::Abort) => Start::Guarded,
        Class::Reserved(Word::Suspend) => Start::Guarded,
        Class::Reserved(Word::Every) => Start::Guarded,
        Class::Reserved(Word::Trap) => Start::Trap,
        Class::Reserved(Word::Exit) => Start::Exit,
        Class::Reserved(Word::Send) => Start::Send,
        Class::Reserved(Word::Receive) => Start::Receive,
        Class::Reserved(Word::Await) => Start::Await,
        Class::Reserved(Word::Loop) => Start::Loop,
        _ => Start::Nothing,
    }
}

/// Whether a token is a number that is one only behind a minus.
pub fn is_edge(class: Class) -> bool
    ensures { result ≡ is_edge class }
{
    match class {
        Class::IntEdge => true,
        Class::LongEdge => true,
        _ => false,
    }
}

/// The level of an operator with two operands, from 1.
pub fn level_of(op: Op2) -> u32
    ensures { result ≡ level_of op }
{
    match op {
        Op2::Either => 1,
        Op2::Both => 2,
        Op2::Or => 3,
        Op2::Xor => 4,
        Op2::And => 5,
        Op2::Equal => 6,
        Op2::NotEqual => 6,
        Op2::Less => 7,
        Op2::LessEq => 7,
        Op2::Greater => 7,
        Op2::GreaterEq => 7,
        Op2::Shl => 8,
        Op2::Shr => 8,
        Op2::Ushr => 8,
        Op2::Add => 9,
        Op2::Sub => 9,
        Op2::Mul => 10,
        Op2::Div => 10,
        Op2::Rem => 10,
    }
}

/// The level of an operator of tests, from 1.
pub fn join_level(join: Join) -> u32
    ensures { result ≡ join_level join }
{
    match join {
        Join::Either => 1,
        Join::Both => 2,
    }
}

/// Whether the second class is the first one, which is no literal.
pub fn same(wanted: Class, class: Class) -> bool
    ensures { result ≡ same wanted class }
{
    match (wanted, class) {
        (Class::Mark(m), Class::Mark(n)) => m == n,
        (Class::Reserved(v), Class::Reserved(w)) => v == w,
        (Class::Name, Class::Name) => true,
        _ => false,
    }
}
