ghost use Rattle.std.specs.Prelude.{◌≡◌, IfOk};
ghost use Rattle.java_values.specs.Kinds.{IsInRange};
ghost use Rattle.sj_lexer.specs.definitions.Readings.{text_of};
ghost use Rattle.sj_grammar.specs.definitions.Trees.{name_of, atom_of, least_of, joined};
ghost use Rattle.sj_ast.specs.declared.expression.Raw as raw;
ghost use Rattle.sj_ast.specs.declared.test.Test as signal_test;

use java_values::{Kind, NoMemory, Op1, Op2, Text, Value};
use sj_ast::{Name, Raw, Test};
use sj_grammar::Join;
use sj_lexer::{Class, Token, Word};
use sqlite_items::Boxed;
use std::alloc::Global;

/// The bytes of a token, as far as the source has them.
fn text_of<'a>(source: &'a [u8], token: &Token) -> &'a [u8]
    ensures { result.now ≡ text_of source.now token.now }
{
    let end = (token.end as usize).min(source.len());
    let start = (token.start as usize).min(end);
    &source[start..end]
}

/// The name that a token is.
pub fn name_of(alloc: Global, source: &[u8], token: &Token) -> Result<Name, NoMemory>
    ensures { IfOk result (λ n. n ≡ name_of source.now token.now) }
{
    let text = Text::new(alloc, text_of(source, token))?;
    Ok(Name {
        text,
        at: token.start,
    })
}

fn value_of(kind: Kind, number: i64) -> Value
    requires { IsInRange kind number }
    ensures kind { result.kind ≡ kind }
    ensures number { result.number ≡ number }
{
    match Value::new(kind, number) {
        Some(value) => value,
        None => unreachable!(),
    }
}

/// A literal, or the variable of a name.
pub fn atom_of(alloc: Global, source: &[u8], token: &Token) -> Result<Raw<Name>, NoMemory>
    ensures { IfOk result (λ r. r ≡ atom_of source.now token.now.class token.now) }
{
    let at = token.start;
    match token.class {
        Class::Literal(value) => Ok(Raw::Literal { at, value }),
        Class::Reserved(Word::True) => Ok(Raw::Literal {
            at,
            value: value_of(Kind::Boolean, 1),
        }),
        Class::Reserved(Word::False) => Ok(Raw::Literal {
            at,
            value: value_of(Kind::Boolean, 0),
        }),
        _ => {
            let name = name_of(alloc, source, token)?;
            Ok(Raw::Variable { at, name })
        }
    }
}

/// The least `long` or `int`.
pub fn least_of(class: Class) -> Value
    ensures { result ≡ least_of class }
{
    match class {
        Class::LongEdge => value_of(Kind::Long, i64::MIN),
        _ => value_of(Kind::Int, -2_147_483_648),
    }
}

pub fn make_unary(
    alloc: Global,
    at: u32,
    op: Op1,
    operand: Raw<Name>,
) -> Result<Raw<Name>, NoMemory>
    ensures { IfOk result (λ r. r ≡ raw.Unary at op operand) }
{
    let operand = Boxed::new(alloc, operand)?;
    Ok(Raw::Unary { at, op, operand })
}

pub fn make_cast(
    alloc: Global,
    at: u32,
    kind: Kind,
    operand: Raw<Name>,
) -> Result<Raw<Name>, NoMemory>
    ensures { IfOk result (λ r. r ≡ raw.Cast at kind operand) }
{
    let operand = Boxed::new(alloc, operand)?;
    Ok(Raw::Cast { at, kind, operand })
}

pub fn make_group(alloc: Global, at: u32, inner: Raw<Name>) -> Result<Raw<Name>, NoMemory>
    ensures { IfOk result (λ r. r ≡ raw.Group at inner) }
{
    let inner = Boxed::new(alloc, inner)?;
    Ok(Raw::Group { at, inner })
}

pub fn make_binary(
    alloc: Global,
    at: u32,
    op: Op2,
    left: Raw<Name>,
    right: Raw<Name>,
) -> Result<Raw<Name>, NoMemory>
    ensures { IfOk result (λ r. r ≡ raw.Binary at op left right) }
{
    let left = Boxed::new(alloc, left)?;
    let right = Boxed::new(alloc, right)?;
    Ok(Raw::Binary {
        at,
        op,
        left,
        right,
    })
}

pub fn make_not(alloc: Global, at: u32, test: Test<Name>) -> Result<Test<Name>, NoMemory>
    ensures { IfOk result (λ r. r ≡ signal_test.Not at test) }
{
    let test = Boxed::new(alloc, test)?;
    Ok(Test::Not { at, test })
}

pub fn make_test_group(alloc: Global, at: u32, inner: Test<Name>) -> Result<Test<Name>, NoMemory>
    ensures { IfOk result (λ r. r ≡ signal_test.Group at inner) }
{
    let inner = Boxed::new(alloc, inner)?;
    Ok(Test::Group { at, inner })
}

pub fn make_join(
    alloc: Global,
    at: u32,
    join: Join,
    left: Test<Name>,
    right: Test<Name>,
) -> Result<Test<Name>, NoMemory>
    ensures { IfOk result (λ r. r ≡ joined join at left right) }
{
    let left = Boxed::new(alloc, left)?;
    let right = Boxed::new(alloc, right)?;
    match join {
        Join::Either => Ok(Test::Either { at, left, right }),
        Join::Both => Ok(Test::Both { at, left, right }),
    }
}
