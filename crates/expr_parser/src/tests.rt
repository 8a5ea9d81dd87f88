use super::*;
use java_values::{Kind, Op2, Value};
use sj_ast::{Name, Raw, Test};
use sj_lexer::{Token, lex};
use std::alloc::Global;
use std::test::Fail;

fn tokens_of(alloc: Global, source: &[u8]) -> Result<Vec<Token>, Fail> {
    if source.len() > 1_048_576 {
        return Ok(Vec::new(alloc));
    }
    match lex(alloc, source) {
        Ok(tokens) => Ok(tokens),
        Err(_) => Ok(Vec::new(alloc)),
    }
}

// The number of the token after the longest run that begins an expression, or why it is none. So many
// levels are open before it.
fn after_expr(alloc: Global, source: &[u8], depth: u32) -> Result<Result<usize, ParseError>, Fail> {
    let tokens = tokens_of(alloc, source)?;
    if source.len() > 1_048_576 {
        return Ok(Err(ParseError::NoMemory));
    }
    match expr(alloc, &tokens, 0, source, depth) {
        Ok(read) => Ok(Ok(read.next)),
        Err(error) => Ok(Err(error)),
    }
}

// The same of a test.
fn after_test(alloc: Global, source: &[u8], depth: u32) -> Result<Result<usize, ParseError>, Fail> {
    let tokens = tokens_of(alloc, source)?;
    if source.len() > 1_048_576 {
        return Ok(Err(ParseError::NoMemory));
    }
    match test(alloc, &tokens, 0, source, depth) {
        Ok(read) => Ok(Ok(read.next)),
        Err(error) => Ok(Err(error)),
    }
}

#[test]
fn longest_run_of_an_expression(rt: HostRuntime) -> Result<(), Fail> {
    let alloc = rt.alloc();
    let table: [(&[u8], Result<usize, ParseError>); 30] = [
        (b"x", Ok(1)),
        (b"1 + 2 * x", Ok(5)),
        (b"a )", Ok(1)),
        (b"a b", Ok(1)),
        (b"a = b", Ok(1)),
        (b"a (b)", Ok(1)),
        (b"(a) b", Ok(3)),
        (b"(int) a b", Ok(4)),
        (b"#S #T", Ok(2)),
        (b"0x80000000", Ok(1)),
        (b"-2147483648", Ok(2)),
        (b"-9223372036854775808L", Ok(2)),
        (b"1 - -2147483648", Ok(4)),
        (b"-2147483648 2147483648", Ok(2)),
        (b"-true || ~'c' ;", Ok(5)),
        (b"", Err(ParseError::Syntax(0))),
        (b";", Err(ParseError::Syntax(0))),
        (b"2147483648", Err(ParseError::Syntax(0))),
        (b"1 - 2147483648", Err(ParseError::Syntax(4))),
        (b"+2147483648", Err(ParseError::Syntax(1))),
        (b"-(2147483648)", Err(ParseError::Syntax(2))),
        (b"-(int)2147483648", Err(ParseError::Syntax(6))),
        (b"1 + ;", Err(ParseError::Syntax(4))),
        (b"1 +", Err(ParseError::Syntax(3))),
        (b"a * / b", Err(ParseError::Syntax(4))),
        (b"(a", Err(ParseError::Syntax(2))),
        (b"(a;", Err(ParseError::Syntax(2))),
        (b"(int", Err(ParseError::Syntax(4))),
        (b"(int a)", Err(ParseError::Syntax(5))),
        (b"#1", Err(ParseError::Syntax(1))),
    ];
    for (source, answer) in table {
        assert_eq!(rt; after_expr(alloc, source, 0)?, answer);
    }
    Ok(())
}

fn literal(tree: &Raw<Name>) -> Option<Value> {
    match tree {
        Raw::Literal { value, .. } => Some(*value),
        Raw::Least { value, .. } => Some(*value),
        _ => None,
    }
}

// The value of a source that is a literal or a least number.
fn value_of(alloc: Global, source: &[u8]) -> Result<Option<Value>, Fail> {
    let tokens = tokens_of(alloc, source)?;
    if source.len() > 1_048_576 {
        return Ok(None);
    }
    match expr(alloc, &tokens, 0, source, 0) {
        Ok(read) => Ok(literal(&read.tree)),
        Err(_) => Ok(None),
    }
}

#[test]
fn least_numbers_have_two_spellings(rt: HostRuntime) -> Result<(), Fail> {
    let alloc = rt.alloc();
    let table: [(&[u8], Kind, i64); 7] = [
        (b"-2147483648", Kind::Int, -2_147_483_648),
        (b"0x80000000", Kind::Int, -2_147_483_648),
        (b"-9223372036854775808L", Kind::Long, i64::MIN),
        (b"0x8000000000000000L", Kind::Long, i64::MIN),
        (b"'c'", Kind::Char, 99),
        (b"true", Kind::Boolean, 1),
        (b"false", Kind::Boolean, 0),
    ];
    for (source, kind, number) in table {
        assert_eq!(rt; value_of(alloc, source)?, Value::new(kind, number));
    }
    assert_eq!(rt; value_of(alloc, b"-2147483647")?, None);
    Ok(())
}

#[test]
fn longest_run_of_a_test(rt: HostRuntime) -> Result<(), Fail> {
    let alloc = rt.alloc();
    let table: [(&[u8], Result<usize, ParseError>); 14] = [
        (b"A", Ok(1)),
        (b"!!A B", Ok(3)),
        (b"A && B ^ C", Ok(3)),
        (b"!A && (B || C) + 1", Ok(8)),
        (b"(A) (B)", Ok(3)),
        (b"", Err(ParseError::Syntax(0))),
        (b"1", Err(ParseError::Syntax(0))),
        (b"#A", Err(ParseError::Syntax(0))),
        (b"true", Err(ParseError::Syntax(0))),
        (b"immediate A", Err(ParseError::Syntax(0))),
        (b"A || true", Err(ParseError::Syntax(5))),
        (b"A && ;", Err(ParseError::Syntax(5))),
        (b"(A | B)", Err(ParseError::Syntax(3))),
        (b"!(A", Err(ParseError::Syntax(3))),
    ];
    for (source, answer) in table {
        assert_eq!(rt; after_test(alloc, source, 0)?, answer);
    }
    Ok(())
}

// The operator that the whole source is of, and its place.
fn top(alloc: Global, source: &[u8]) -> Result<Option<(u32, Op2)>, Fail> {
    let tokens = tokens_of(alloc, source)?;
    if source.len() > 1_048_576 {
        return Ok(None);
    }
    match expr(alloc, &tokens, 0, source, 0) {
        Ok(read) => match read.tree {
            Raw::Binary { at, op, .. } if read.next == tokens.len() => Ok(Some((at, op))),
            _ => Ok(None),
        },
        Err(_) => Ok(None),
    }
}

#[test]
fn operators_group_to_the_left(rt: HostRuntime) -> Result<(), Fail> {
    let alloc = rt.alloc();
    let table: [(&[u8], u32, Op2); 19] = [
        (b"a || b || c", 7, Op2::Either),
        (b"a && b && c", 7, Op2::Both),
        (b"a | b | c", 6, Op2::Or),
        (b"a ^ b ^ c", 6, Op2::Xor),
        (b"a & b & c", 6, Op2::And),
        (b"a != b == c", 7, Op2::Equal),
        (b"a == b != c", 7, Op2::NotEqual),
        (b"a > b < c", 6, Op2::Less),
        (b"a < b <= c", 6, Op2::LessEq),
        (b"a >= b > c", 7, Op2::Greater),
        (b"a <= b >= c", 7, Op2::GreaterEq),
        (b"a >>> b << c", 8, Op2::Shl),
        (b"a << b >> c", 7, Op2::Shr),
        (b"a >> b >>> c", 7, Op2::Ushr),
        (b"a - b + c", 6, Op2::Add),
        (b"a - b - c", 6, Op2::Sub),
        (b"a % b * c", 6, Op2::Mul),
        (b"a * b / c", 6, Op2::Div),
        (b"a / b % c", 6, Op2::Rem),
    ];
    for (source, place, op) in table {
        assert_eq!(rt; top(alloc, source)?, Some((place, op)));
    }
    Ok(())
}

#[test]
fn each_level_binds_closer_than_the_one_before(rt: HostRuntime) -> Result<(), Fail> {
    let alloc = rt.alloc();
    let table: [(&[u8], u32, Op2); 24] = [
        (b"a || b && c", 2, Op2::Either),
        (b"a && b || c", 7, Op2::Either),
        (b"a && b | c", 2, Op2::Both),
        (b"a | b && c", 6, Op2::Both),
        (b"a | b ^ c", 2, Op2::Or),
        (b"a ^ b | c", 6, Op2::Or),
        (b"a ^ b & c", 2, Op2::Xor),
        (b"a & b ^ c", 6, Op2::Xor),
        (b"a & b == c", 2, Op2::And),
        (b"a != b & c", 7, Op2::And),
        (b"a == b < c", 2, Op2::Equal),
        (b"a >= b != c", 7, Op2::NotEqual),
        (b"a < b << c", 2, Op2::Less),
        (b"a >>> b >= c", 8, Op2::GreaterEq),
        (b"a << b + c", 2, Op2::Shl),
        (b"a - b >> c", 6, Op2::Shr),
        (b"a + b * c", 2, Op2::Add),
        (b"a % b - c", 6, Op2::Sub),
        (b"-a * b", 3, Op2::Mul),
        (b"a * -b", 2, Op2::Mul),
        (b"!a == b", 3, Op2::Equal),
        (b"(int) a / b", 8, Op2::Div),
        (b"a - (b - c)", 2, Op2::Sub),
        (b"-2147483648 - a", 12, Op2::Sub),
    ];
    for (source, place, op) in table {
        assert_eq!(rt; top(alloc, source)?, Some((place, op)));
    }
    Ok(())
}

// A piece some number of times, before another.
fn repeated(alloc: Global, piece: &[u8], times: usize, back: &[u8]) -> Result<Vec<u8>, Fail> {
    let mut text = Vec::new(alloc);
    for _ in 0..times {
        text.extend_from_slice(piece)?;
    }
    text.extend_from_slice(back)?;
    Ok(text)
}

#[test]
fn expressions_open_sixty_four_levels(rt: HostRuntime) -> Result<(), Fail> {
    let alloc = rt.alloc();
    let table: [(&[u8], u32, Result<usize, ParseError>); 14] = [
        (b"(a)", 63, Ok(3)),
        (b"(a)+(b)", 63, Ok(7)),
        (b"(int)(a)", 63, Ok(6)),
        (b"a", 64, Ok(1)),
        (b"a (", 64, Ok(1)),
        (b"((a))", 63, Err(ParseError::TooDeep(1))),
        (b"(int)((a))", 63, Err(ParseError::TooDeep(6))),
        (b"(a)", 64, Err(ParseError::TooDeep(0))),
        (b"(int)a", 64, Err(ParseError::TooDeep(0))),
        (b"(;", 64, Err(ParseError::TooDeep(0))),
        (b"a + (b)", 64, Err(ParseError::TooDeep(4))),
        (b"#(", 64, Err(ParseError::Syntax(1))),
        (b"(a", 63, Err(ParseError::Syntax(2))),
        (b"(int(", 63, Err(ParseError::Syntax(4))),
    ];
    for (source, depth, answer) in table {
        assert_eq!(rt; after_expr(alloc, source, depth)?, answer);
    }
    let within = repeated(alloc, b"(", 64, b"a)")?;
    assert_eq!(rt; after_expr(alloc, &within, 0)?, Err(ParseError::Syntax(66)));
    let deep = repeated(alloc, b"(", 65, b"a)")?;
    assert_eq!(rt; after_expr(alloc, &deep, 0)?, Err(ParseError::TooDeep(64)));
    Ok(())
}

#[test]
fn tests_open_sixty_four_levels(rt: HostRuntime) -> Result<(), Fail> {
    let alloc = rt.alloc();
    let table: [(&[u8], u32, Result<usize, ParseError>); 9] = [
        (b"(A)", 63, Ok(3)),
        (b"(A)&&(B)", 63, Ok(7)),
        (b"A (", 64, Ok(1)),
        (b"(A)", 64, Err(ParseError::TooDeep(0))),
        (b"!(A)", 64, Err(ParseError::TooDeep(1))),
        (b"A || (B)", 64, Err(ParseError::TooDeep(5))),
        (b"((A))", 63, Err(ParseError::TooDeep(1))),
        (b"&&(", 64, Err(ParseError::Syntax(0))),
        (b"(A", 63, Err(ParseError::Syntax(2))),
    ];
    for (source, depth, answer) in table {
        assert_eq!(rt; after_test(alloc, source, depth)?, answer);
    }
    Ok(())
}

#[test]
fn expressions_have_256_operators(rt: HostRuntime) -> Result<(), Fail> {
    let alloc = rt.alloc();
    let table: [(&[u8], usize, &[u8], Result<usize, ParseError>); 20] = [
        (b"-", 256, b"1", Ok(257)),
        (b"-", 256, b"(1)", Ok(259)),
        (b"-", 256, b"2147483648", Ok(257)),
        (b"(int)", 256, b"a", Ok(769)),
        (b"a+", 256, b"a", Ok(513)),
        (b"a*", 255, b"-a", Ok(512)),
        (b"a&&", 256, b"a b+c", Ok(513)),
        (b"-", 257, b"1", Err(ParseError::TooDeep(256))),
        (b"~", 257, b"1", Err(ParseError::TooDeep(256))),
        (b"(int)", 257, b"a", Err(ParseError::TooDeep(1280))),
        (b"a+", 257, b"a", Err(ParseError::TooDeep(513))),
        (b"a*", 256, b"-a", Err(ParseError::TooDeep(512))),
        (b"-", 256, b"-2147483648", Err(ParseError::TooDeep(256))),
        (b"-", 256, b"(int", Err(ParseError::TooDeep(256))),
        (b"-", 256, b"(-1)", Err(ParseError::TooDeep(257))),
        (b"-", 256, b"(1)+1", Err(ParseError::TooDeep(259))),
        (b"-", 256, b"*", Err(ParseError::Syntax(256))),
        (b"-", 256, b"(*", Err(ParseError::Syntax(257))),
        (b"-", 256, b"", Err(ParseError::Syntax(256))),
        (b"-", 257, b"*", Err(ParseError::TooDeep(256))),
    ];
    for (piece, times, back, answer) in table {
        let source = repeated(alloc, piece, times, back)?;
        assert_eq!(rt; after_expr(alloc, &source, 0)?, answer);
    }
    Ok(())
}

#[test]
fn tests_have_256_operators(rt: HostRuntime) -> Result<(), Fail> {
    let alloc = rt.alloc();
    let table: [(&[u8], usize, &[u8], Result<usize, ParseError>); 11] = [
        (b"!", 256, b"A", Ok(257)),
        (b"!", 256, b"(A)", Ok(259)),
        (b"A&&", 256, b"A", Ok(513)),
        (b"A||", 256, b"A", Ok(513)),
        (b"A||", 255, b"!A", Ok(512)),
        (b"!", 257, b"A", Err(ParseError::TooDeep(256))),
        (b"A&&", 257, b"A", Err(ParseError::TooDeep(769))),
        (b"A||", 257, b"A", Err(ParseError::TooDeep(769))),
        (b"A||", 256, b"!A", Err(ParseError::TooDeep(768))),
        (b"!", 256, b"(A&&B)", Err(ParseError::TooDeep(258))),
        (b"!", 256, b"&&", Err(ParseError::Syntax(256))),
    ];
    for (piece, times, back, answer) in table {
        let source = repeated(alloc, piece, times, back)?;
        assert_eq!(rt; after_test(alloc, &source, 0)?, answer);
    }
    Ok(())
}

fn is_both_at(tree: &Test<Name>, place: u32) -> bool {
    match tree {
        Test::Both { at, .. } => *at == place,
        _ => false,
    }
}

#[test]
fn both_binds_closer_than_either(rt: HostRuntime) -> Result<(), Fail> {
    let alloc = rt.alloc();
    let source: &[u8] = b"A || B && C || D";
    let tokens = tokens_of(alloc, source)?;
    match test(alloc, &tokens, 0, source, 0) {
        Ok(read) => match &read.tree {
            Test::Either { at, left, .. } => {
                assert_eq!(rt; *at, 12);
                match left.get() {
                    Test::Either { at, right, .. } => {
                        assert_eq!(rt; *at, 2);
                        assert!(rt; is_both_at(right.get(), 7));
                    }
                    _ => assert!(rt; false),
                }
            }
            _ => assert!(rt; false),
        },
        Err(_) => assert!(rt; false),
    }
    Ok(())
}
