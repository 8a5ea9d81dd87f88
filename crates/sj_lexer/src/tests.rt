use super::*;
use java_values::{Kind, Value};
use std::alloc::Global;
use std::test::Fail;

fn lexed(alloc: Global, source: &[u8]) -> Result<Vec<Token>, LexError> {
    if source.len() > 1_048_576 {
        return Err(LexError::BadByte(0));
    }
    lex(alloc, source)
}

// The only token of the source, or its refusal.
fn only(alloc: Global, source: &[u8]) -> Result<Option<Class>, LexError> {
    let tokens = lexed(alloc, source)?;
    if tokens.len() != 1 {
        return Ok(None);
    }
    let token = tokens[0];
    if token.start != 0 || token.end as usize != source.len() {
        return Ok(None);
    }
    Ok(Some(token.class))
}

fn literal(kind: Kind, number: i64) -> Result<Option<Class>, LexError> {
    Ok(Value::new(kind, number).map(|value| Class::Literal(value)))
}

#[test]
fn each_sign(rt: HostRuntime) -> Result<(), Fail> {
    let table: [(&[u8], Mark); 40] = [
        (b"{", Mark::OpenBrace),
        (b"}", Mark::CloseBrace),
        (b"(", Mark::OpenParen),
        (b")", Mark::CloseParen),
        (b";", Mark::Semicolon),
        (b"#", Mark::Hash),
        (b"=", Mark::Assign),
        (b"+", Mark::Plus),
        (b"-", Mark::Minus),
        (b"*", Mark::Star),
        (b"/", Mark::Slash),
        (b"%", Mark::Percent),
        (b"&", Mark::Ampersand),
        (b"|", Mark::Pipe),
        (b"^", Mark::Caret),
        (b"~", Mark::Tilde),
        (b"!", Mark::Bang),
        (b"<", Mark::Less),
        (b">", Mark::Greater),
        (b"+=", Mark::PlusAssign),
        (b"-=", Mark::MinusAssign),
        (b"*=", Mark::StarAssign),
        (b"/=", Mark::SlashAssign),
        (b"%=", Mark::PercentAssign),
        (b"&=", Mark::AmpersandAssign),
        (b"|=", Mark::PipeAssign),
        (b"^=", Mark::CaretAssign),
        (b"<<=", Mark::ShlAssign),
        (b">>=", Mark::ShrAssign),
        (b">>>=", Mark::UshrAssign),
        (b"<<", Mark::Shl),
        (b">>", Mark::Shr),
        (b">>>", Mark::Ushr),
        (b"<=", Mark::LessEq),
        (b">=", Mark::GreaterEq),
        (b"==", Mark::Equal),
        (b"!=", Mark::NotEqual),
        (b"&&", Mark::Both),
        (b"||", Mark::Either),
        (b"><", Mark::Beside),
    ];
    for (text, mark) in table {
        assert_eq!(rt; only(rt.alloc(), text), Ok(Some(Class::Mark(mark))));
    }
    Ok(())
}

#[test]
fn each_reserved_word(rt: HostRuntime) -> Result<(), Fail> {
    let table: [(&[u8], Word); 37] = [
        (b"system", Word::System),
        (b"interface", Word::Interface),
        (b"input", Word::Input),
        (b"output", Word::Output),
        (b"signal", Word::Signal),
        (b"channel", Word::Channel),
        (b"combine", Word::Combine),
        (b"max", Word::Max),
        (b"min", Word::Min),
        (b"boolean", Word::Boolean),
        (b"byte", Word::Byte),
        (b"short", Word::Short),
        (b"char", Word::Char),
        (b"int", Word::Int),
        (b"long", Word::Long),
        (b"pause", Word::Pause),
        (b"halt", Word::Halt),
        (b"emit", Word::Emit),
        (b"sustain", Word::Sustain),
        (b"if", Word::If),
        (b"else", Word::Else),
        (b"present", Word::Present),
        (b"while", Word::While),
        (b"true", Word::True),
        (b"false", Word::False),
        (b"weak", Word::Weak),
        (b"abort", Word::Abort),
        (b"immediate", Word::Immediate),
        (b"suspend", Word::Suspend),
        (b"trap", Word::Trap),
        (b"exit", Word::Exit),
        (b"send", Word::Send),
        (b"receive", Word::Receive),
        (b"await", Word::Await),
        (b"every", Word::Every),
        (b"loop", Word::Loop),
        (b"each", Word::Each),
    ];
    for (text, word) in table {
        assert_eq!(rt; only(rt.alloc(), text), Ok(Some(Class::Reserved(word))));
    }
    Ok(())
}

#[test]
fn numbers_and_their_edges(rt: HostRuntime) -> Result<(), Fail> {
    let alloc = rt.alloc();
    let table: [(&[u8], Kind, i64); 14] = [
        (b"0", Kind::Int, 0),
        (b"0L", Kind::Long, 0),
        (b"7", Kind::Int, 7),
        (b"2147483647", Kind::Int, 2_147_483_647),
        (b"2147483648L", Kind::Long, 2_147_483_648),
        (
            b"9223372036854775807l",
            Kind::Long,
            9_223_372_036_854_775_807,
        ),
        (b"0x0", Kind::Int, 0),
        (b"0XfF", Kind::Int, 255),
        (b"0x7fffffff", Kind::Int, 2_147_483_647),
        (b"0x80000000", Kind::Int, -2_147_483_648),
        (b"0xffffffff", Kind::Int, -1),
        (b"0xffffffffL", Kind::Long, 4_294_967_295),
        (b"0x8000000000000000L", Kind::Long, i64::MIN),
        (b"0xffffffffffffffffl", Kind::Long, -1),
    ];
    for (text, kind, number) in table {
        assert_eq!(rt; only(alloc, text), literal(kind, number));
    }
    assert_eq!(rt; only(alloc, b"2147483648"), Ok(Some(Class::IntEdge)));
    assert_eq!(rt;
        only(alloc, b"9223372036854775808L"),
        Ok(Some(Class::LongEdge))
    );
    Ok(())
}

#[test]
fn numbers_that_are_none(rt: HostRuntime) -> Result<(), Fail> {
    let table: [&[u8]; 16] = [
        b"08",
        b"00",
        b"1_0",
        b"12ab",
        b"0x",
        b"0xL",
        b"0xg",
        b"1LL",
        b"2147483649",
        b"4294967296",
        b"9223372036854775808",
        b"9223372036854775809L",
        b"0x100000000",
        b"0x10000000000000000L",
        b"99999999999999999999999999",
        b"0b1",
    ];
    for text in table {
        assert_eq!(rt; only(rt.alloc(), text), Err(LexError::BadNumber(0)));
    }
    Ok(())
}

#[test]
fn characters_and_what_is_none(rt: HostRuntime) -> Result<(), Fail> {
    let alloc = rt.alloc();
    let table: [(&[u8], i64); 9] = [
        (b"'a'", 97),
        (b"' '", 32),
        (b"'~'", 126),
        (b"'\"'", 34),
        (b"'\\n'", 10),
        (b"'\\t'", 9),
        (b"'\\r'", 13),
        (b"'\\\\'", 92),
        (b"'\\''", 39),
    ];
    for (text, number) in table {
        assert_eq!(rt; only(alloc, text), literal(Kind::Char, number));
    }
    let none: [&[u8]; 9] = [
        b"'", b"''", b"'''", b"'\\'", b"'\\q'", b"'ab'", b"'\t'", b"'\x7f'", b"'a",
    ];
    for text in none {
        assert_eq!(rt; only(alloc, text), Err(LexError::BadByte(0)));
    }
    Ok(())
}

#[test]
fn words_up_to_sixty_four_bytes(rt: HostRuntime) -> Result<(), Fail> {
    let alloc = rt.alloc();
    let long = [b'n'; 65];
    assert_eq!(rt; only(alloc, &long[..64]), Ok(Some(Class::Name)));
    assert_eq!(rt; only(alloc, &long[..]), Err(LexError::BadByte(64)));
    let mut later = [b'n'; 70];
    later[1] = b' ';
    assert_eq!(rt; only(alloc, &later[..66]), Ok(None));
    assert_eq!(rt; only(alloc, &later[..67]), Err(LexError::BadByte(66)));
    assert_eq!(rt; only(alloc, b"_x9"), Ok(Some(Class::Name)));
    assert_eq!(rt; only(alloc, b"System"), Ok(Some(Class::Name)));
    assert_eq!(rt; only(alloc, b"emitS"), Ok(Some(Class::Name)));
    Ok(())
}

#[test]
fn comments_and_white_space(rt: HostRuntime) -> Result<(), Fail> {
    let alloc = rt.alloc();
    let none: [&[u8]; 8] = [
        b"",
        b" \t\r\n",
        b"//",
        b"// \xff ' /* \n",
        b"/**/",
        b"/***/",
        b"/* // */ /* \x00 */",
        b"/*/*/",
    ];
    for text in none {
        assert_eq!(rt; lexed(alloc, text)?.len(), 0);
    }
    let open: [&[u8]; 4] = [b"/*", b"/*/", b"/* *", b"/* /* * /"];
    for text in open {
        assert_eq!(rt; only(alloc, text), Err(LexError::OpenComment(0)));
    }
    assert_eq!(rt; only(alloc, b"system{/*"), Err(LexError::OpenComment(7)));
    Ok(())
}

// Three tokens with their places.
#[test]
fn tokens_with_their_places(rt: HostRuntime) -> Result<(), Fail> {
    let alloc = rt.alloc();
    let table: [(&[u8], [(u32, u32); 3]); 6] = [
        (b"1 - 2147483648", [(0, 1), (2, 3), (4, 14)]),
        (b"-2147483648;", [(0, 1), (1, 11), (11, 12)]),
        (b"a><b", [(0, 1), (1, 3), (3, 4)]),
        (b" a>>>=b ", [(1, 2), (2, 6), (6, 7)]),
        (
            b"x/* c */0x80000000// d\n'\\n'",
            [(0, 1), (8, 18), (23, 27)],
        ),
        (b"\t#\r\nwhile _9", [(1, 2), (4, 9), (10, 12)]),
    ];
    for (source, places) in table {
        let tokens = lexed(alloc, source)?;
        assert_eq!(rt; tokens.len(), places.len());
        for (token, place) in tokens.iter().zip(places) {
            assert_eq!(rt; (token.start, token.end), place);
        }
    }
    Ok(())
}

// Whether two sources have the same tokens, but for their places.
fn have_same_tokens(alloc: Global, source: &[u8], other: &[u8]) -> Result<bool, LexError> {
    let tokens = lexed(alloc, source)?;
    let others = lexed(alloc, other)?;
    if tokens.len() != others.len() {
        return Ok(false);
    }
    for (token, other) in tokens.iter().zip(others.iter()) {
        if token.class != other.class {
            return Ok(false);
        }
    }
    Ok(true)
}

#[test]
fn longest_token_is_taken(rt: HostRuntime) -> Result<(), Fail> {
    let alloc = rt.alloc();
    let table: [(&[u8], &[u8]); 16] = [
        (b"1-2147483648", b"1 - 2147483648"),
        (b"-9223372036854775808L", b"- 9223372036854775808L"),
        (b"a><b", b"a >< b"),
        (b"a<>b", b"a < > b"),
        (b">>>=", b" >>>= "),
        (b">>>>=", b">>> >="),
        (b">>==", b">>= ="),
        (b"<<<=", b"<< <="),
        (b">><<", b">> <<"),
        (b"><<=", b">< <="),
        (b"&&&=|||=", b"&& &= || |="),
        (b"===!==~=", b"== = != = ~ ="),
        (b"+=-=--++", b"+= -= - - + +"),
        (b"while1while while", b"n while"),
        (b"emit_A'e'emit", b"emit_A 'e' emit"),
        (b"7'7'7L/7", b"7 '7' 7L / 7"),
    ];
    for (source, apart) in table {
        assert!(rt; have_same_tokens(alloc, source, apart)?);
    }
    let tokens = lexed(alloc, b"1 - 2147483648")?;
    assert_eq!(rt; tokens.len(), 3);
    assert_eq!(rt; tokens[1].class, Class::Mark(Mark::Minus));
    assert_eq!(rt; tokens[2].class, Class::IntEdge);
    Ok(())
}

#[test]
fn longest_source(rt: HostRuntime) -> Result<(), Fail> {
    let alloc = rt.alloc();
    let source = vec![in alloc; b';'; 1_048_576]?;
    let tokens = lexed(alloc, &source)?;
    assert_eq!(rt; tokens.len(), source.len());
    Ok(())
}

#[test]
fn first_bad_place_decides(rt: HostRuntime) -> Result<(), Fail> {
    let alloc = rt.alloc();
    let table: [(&[u8], LexError); 13] = [
        (b"emit @ 08 /*", LexError::BadByte(5)),
        (b"emit 08 @", LexError::BadNumber(5)),
        (b"emit /* 08 @", LexError::OpenComment(5)),
        (b"\xc3\xa4", LexError::BadByte(0)),
        (b"1-08", LexError::BadNumber(2)),
        (b"a=1_0;", LexError::BadNumber(2)),
        (b"-2147483649", LexError::BadNumber(1)),
        (b"a='\\q';", LexError::BadByte(2)),
        (b"'a''b", LexError::BadByte(3)),
        (b"a/*/b", LexError::OpenComment(1)),
        (b"/**/ /*/", LexError::OpenComment(5)),
        (b"a>[b", LexError::BadByte(2)),
        (b"\"", LexError::BadByte(0)),
    ];
    for (source, error) in table {
        assert_eq!(rt; only(alloc, source), Err(error));
    }
    Ok(())
}
