use super::*;
use sj_ast::Form;
use sj_lexer::{Token, lex};
use std::alloc::Global;
use std::test::Fail;

fn tokens_of(alloc: Global, source: &[u8]) -> Result<Vec<Token>, Fail> {
    if source.len() > 1_048_576 {
        return Ok(Vec::new(alloc));
    }
    match lex(alloc, source) {
        Ok(tokens) => Ok(tokens),
        Err(_) => Ok(Vec::new(alloc)),
    }
}

// What the source is refused for, if it is.
fn refusal(alloc: Global, source: &[u8]) -> Result<Option<ParseError>, Fail> {
    let tokens = tokens_of(alloc, source)?;
    if source.len() > 1_048_576 {
        return Ok(Some(ParseError::NoMemory));
    }
    match parse(alloc, &tokens, source) {
        Ok(_) => Ok(None),
        Err(error) => Ok(Some(error)),
    }
}

fn is_syntax_at(alloc: Global, source: &[u8], place: usize) -> Result<bool, Fail> {
    match refusal(alloc, source)? {
        Some(ParseError::Syntax(at)) => Ok(at as usize == place),
        _ => Ok(false),
    }
}

fn joined(alloc: Global, front: &[u8], text: &[u8], back: &[u8]) -> Result<Vec<u8>, Fail> {
    let mut whole = Vec::new(alloc);
    whole.extend_from_slice(front)?;
    whole.extend_from_slice(text)?;
    whole.extend_from_slice(back)?;
    Ok(whole)
}

// The bytes before a place, and those from it on.
fn split(source: &[u8], place: u32) -> (&[u8], &[u8]) {
    source.split_at((place as usize).min(source.len()))
}

// The text stands between two others, and is read whole. Of the tokens of `wrong` none can stand where
// the token of the same number stands in the text. The text is cut off before each of its tokens, and
// has the wrong token put there: both are refused at this place.
fn breaks_at_each_token(
    alloc: Global,
    front: &[u8],
    text: &[u8],
    wrong: &[u8],
    back: &[u8],
) -> Result<bool, Fail> {
    let whole = joined(alloc, front, text, back)?;
    if refusal(alloc, &whole)?.is_some() {
        return Ok(false);
    }
    let tokens = tokens_of(alloc, text)?;
    let others = tokens_of(alloc, wrong)?;
    if tokens.len() == 0 || tokens.len() != others.len() {
        return Ok(false);
    }
    for (token, other) in tokens.iter().zip(others.iter()) {
        let (before, behind) = split(text, token.start);
        let cut = joined(alloc, front, before, b"")?;
        if !is_syntax_at(alloc, &cut, cut.len())? {
            return Ok(false);
        }
        let (_, word) = split(split(wrong, other.end).0, other.start);
        let put = joined(alloc, &cut, word, b" ")?;
        let broken = joined(alloc, &put, behind, back)?;
        if !is_syntax_at(alloc, &broken, cut.len())? {
            return Ok(false);
        }
    }
    Ok(true)
}

#[test]
fn programs_break_at_each_token(rt: HostRuntime) -> Result<(), Fail> {
    let alloc = rt.alloc();
    let table: [(&[u8], &[u8]); 3] = [
        (
            b"system { interface { } { } }",
            b"int ( signal ; ; ; else ;",
        ),
        (
            b"system { interface { } { } >< { } }",
            b"{ interface input ( { interface else || ( ) system",
        ),
        (
            b"system { interface { input signal A ; } { ; } }",
            b"interface } system ( signal output input max combine emit interface ) 1",
        ),
    ];
    for (text, wrong) in table {
        assert!(rt; breaks_at_each_token(alloc, b"", text, wrong, b"")?);
    }
    Ok(())
}

#[test]
fn ports_break_at_each_token(rt: HostRuntime) -> Result<(), Fail> {
    let alloc = rt.alloc();
    let table: [(&[u8], &[u8]); 20] = [
        (b"input signal A ;", b"signal channel max combine"),
        (b"output signal A ;", b"emit ; signal ="),
        (b"input int signal A ;", b"halt input channel 1 +"),
        (b"input boolean signal A ;", b"halt input channel 1 +"),
        (b"input byte signal A ;", b"halt input channel 1 +"),
        (b"input short signal A ;", b"halt input channel 1 +"),
        (b"input char signal A ;", b"halt input channel 1 +"),
        (b"input long signal A ;", b"halt input channel 1 +"),
        (
            b"output boolean signal A combine & ;",
            b"A output A int & && |",
        ),
        (
            b"output byte signal A combine | ;",
            b"( > boolean signal max || ^",
        ),
        (
            b"output short signal A combine ^ ;",
            b") system byte short min ~ }",
        ),
        (b"output char signal A combine + ;", b"= false { char = - 1"),
        (
            b"output int signal A combine max ;",
            b"true 1 channel ; B A combine",
        ),
        (
            b"output long signal A combine min ;",
            b"max ; pause } ( 'c' min",
        ),
        (b"boolean channel C ;", b"signal signal channel combine"),
        (b"byte channel C ;", b"channel input ; ("),
        (b"short channel C ;", b"{ C byte }"),
        (b"char channel C ;", b"else ; int C"),
        (b"int channel C ;", b"1 = 1 ="),
        (b"long channel C ;", b"combine combine long channel"),
    ];
    for (text, wrong) in table {
        assert!(rt; breaks_at_each_token(alloc, b"system{interface{", text, wrong, b"}{}}")?);
    }
    Ok(())
}

#[test]
fn declarations_and_assignments_break_at_each_token(rt: HostRuntime) -> Result<(), Fail> {
    let alloc = rt.alloc();
    let table: [(&[u8], &[u8]); 31] = [
        (b";", b"else"),
        (b"{ }", b"else each"),
        (b"{ ; }", b"|| ) >"),
        (b"{ } || { }", b"1 || && || else"),
        (b"{ } || { } || { }", b"each ) >< ; true | pause combine"),
        (b"signal A ;", b"max signal combine"),
        (b"boolean signal A ;", b"min channel ; ="),
        (b"byte signal A combine & ;", b"+ byte signal & combine A"),
        (b"short signal A combine | ;", b"- short 1 | |= |"),
        (b"char signal A combine ^ ;", b"* 'c' int ^ ^= ("),
        (b"int signal A combine + ;", b"/ 1 { + += ="),
        (b"long signal A combine max ;", b"# 1L } max A +"),
        (
            b"int signal A combine min ;",
            b"~ int combine min - combine",
        ),
        (b"boolean x = true ;", b"! channel == ; )"),
        (b"byte x = 1 ;", b"== = += ) 1"),
        (b"short x = 1 ;", b"> ( ; int int"),
        (b"char x = 'c' ;", b"< { ( } }"),
        (b"int x = y ;", b"<= 1 combine { ="),
        (b"long x = 1L ;", b"&& ; - * !"),
        (b"x = 1 ;", b"| ; ; x"),
        (b"x += 1 ;", b"^ + += true"),
        (b"x -= 1 ;", b"% - -= #"),
        (b"x *= 1 ;", b"'c' * * ("),
        (b"x /= 1 ;", b"1 / / ~"),
        (b"x %= 1 ;", b"0x1 % % !"),
        (b"x &= 1 ;", b"interface & & )"),
        (b"x |= 1 ;", b"system | || {"),
        (b"x ^= 1 ;", b"immediate ^ ^ }"),
        (b"x <<= 1 ;", b"else << <= ="),
        (b"x >>= 1 ;", b"each >> >= 2147483648"),
        (b"x >>>= 1 ;", b"2147483648 >>> > >>>="),
    ];
    for (text, wrong) in table {
        assert!(rt; breaks_at_each_token(alloc, b"system{interface{}{", text, wrong, b"}}")?);
    }
    Ok(())
}

#[test]
fn statements_break_at_each_token(rt: HostRuntime) -> Result<(), Fail> {
    let alloc = rt.alloc();
    let table: [(&[u8], &[u8]); 26] = [
        (b"pause ;", b"true }"),
        (b"halt ;", b"false ("),
        (b"emit A ;", b"input emit ="),
        (b"emit A ( 1 ) ;", b"output ( # ) ; )"),
        (b"sustain A ;", b"channel 'A' +="),
        (b"sustain A ( x ) ;", b"combine ; { } = {"),
        (b"if ( x ) { }", b") x ) { ; )"),
        (b"if ( x ) { } else { }", b"else { ; ; ( else || ; else"),
        (b"present ( A ) { }", b"combine ; 1 ^ else 1"),
        (b"present ( A ) { } else { }", b"> > # + else ) || if else"),
        (b"while ( true ) { }", b"true { false ; ( else"),
        (b"abort ( A ) { }", b"immediate immediate true == ; )"),
        (
            b"abort ( immediate A ) { }",
            b") A ) immediate ; abort each",
        ),
        (b"weak abort ( A ) { }", b"else suspend ; weak | else ||"),
        (
            b"weak abort ( immediate A ) { }",
            b"1 every immediate # ) { ( )",
        ),
        (b"suspend ( A ) { }", b"= A 1 A ; else"),
        (b"suspend ( immediate A ) { }", b"&& ; + ~ = pause ="),
        (b"trap ( T ) { }", b">= T true T ; >="),
        (b"exit ( T ) ;", b"> T ( ; }"),
        (b"send C ( 1 ) ;", b"<< ( ; ) ; }"),
        (b"receive C ;", b">> ( ("),
        (b"await ( A ) ;", b">>> A ) ! {"),
        (b"await ( immediate A ) ;", b"+= immediate ; immediate & }"),
        (b"every ( A ) { }", b"-= { # ; ; else"),
        (b"every ( immediate A ) { }", b"*= every 1 ; { ; ||"),
        (b"loop { } each ( A ) ;", b"/= ( else ; A immediate ; {"),
    ];
    for (text, wrong) in table {
        assert!(rt; breaks_at_each_token(alloc, b"system{interface{}{", text, wrong, b"}}")?);
    }
    Ok(())
}

#[test]
fn expressions_and_tests_break_at_each_token(rt: HostRuntime) -> Result<(), Fail> {
    let alloc = rt.alloc();
    let table: [(&[u8], &[u8]); 37] = [
        (b"x = + 1 ;", b"# + * * ~"),
        (b"x = - y ;", b"* - ; / !"),
        (b"x = ~ true ;", b"/ ~ = & false"),
        (b"x = ! false ;", b"% ! % | A"),
        (
            b"x = - 2147483648 ;",
            b"2147483648 - 2147483648 ) 2147483648",
        ),
        (
            b"x = - 9223372036854775808L ;",
            b"< - 9223372036854775808L ; -=",
        ),
        (b"x = ( byte ) 'c' ;", b"= ( byte ) 1 ) byte"),
        (b"x = ( short ) 'c' ;", b"= ( short ) 1 ) short"),
        (b"x = ( char ) 'c' ;", b"= ( char ) 1 ) char"),
        (b"x = ( int ) 'c' ;", b"= ( int ) 1 ) int"),
        (b"x = ( long ) 'c' ;", b"= ( long ) 1 ) long"),
        (b"x = ( boolean ) 'c' ;", b"= ( boolean ) 1 ) boolean"),
        (b"x = ( y ) ;", b") ) channel ; 1 )"),
        (b"x = # S ;", b"2147483648 # ; # #"),
        (b"x = a || b ;", b"|| || || = || |="),
        (b"x = a && b ;", b"&& && && ! && &="),
        (b"x = a | b ;", b"| | | true | ="),
        (b"x = a ^ b ;", b"^ ^ ^ ( ^ ^="),
        (b"x = a & b ;", b"& & & # & &="),
        (b"x = a == b ;", b"== == == ~ == !"),
        (b"x = a != b ;", b"!= != != ! != !"),
        (b"x = a < b ;", b"< < < c < ("),
        (b"x = a <= b ;", b"<= <= <= 'c' <= {"),
        (b"x = a > b ;", b"> > > false > }"),
        (b"x = a >= b ;", b">= >= >= int >= )"),
        (b"x = a << b ;", b"<< << << <<= << <<="),
        (b"x = a >> b ;", b">> >> >> >>= >> >>="),
        (b"x = a >>> b ;", b">>> >>> >>> >>>= >>> >>>="),
        (b"x = a + b ;", b"+ + ; += * ><"),
        (b"x = a - b ;", b"- - ) -= 2147483648 #"),
        (b"x = a * b ;", b"* * * *= * d"),
        (b"x = a / b ;", b"/ / / /= / 0"),
        (b"x = a % b ;", b"% % % %= % ~"),
        (b"await ( ! A ) ;", b"! ! - && ! !"),
        (b"await ( ( A ) ) ;", b"( ; ; 1 1 ; ("),
        (b"await ( A && B ) ;", b"&& && && & ) == &&"),
        (b"await ( A || B ) ;", b"|| || || | || += ||"),
    ];
    for (text, wrong) in table {
        assert!(rt; breaks_at_each_token(alloc, b"system{interface{}{", text, wrong, b"}}")?);
    }
    Ok(())
}

#[test]
fn places_of_syntax(rt: HostRuntime) -> Result<(), Fail> {
    let alloc = rt.alloc();
    let table: [(&[u8], u32); 12] = [
        (b"", 0),
        (b"system{interface{}}", 18),
        (b"system{interface{}{}", 20),
        (b"system{interface{}{}};", 21),
        (b"system{interface{}{}} system{interface{}{}}", 22),
        (b"system{interface{input A;}{}}", 23),
        (b"system{interface{}{pause}}", 24),
        (b"system{interface{}{emit A(;}}", 26),
        (b"system{interface{}{if(x){}else;}}", 30),
        (b"system{interface{}{abort(A){}||{}}}", 29),
        (b"system{interface{}{while(false){}}}", 25),
        (b"system{interface{}{x=1 - 2147483648;}}", 25),
    ];
    for (source, place) in table {
        assert_eq!(rt; refusal(alloc, source)?, Some(ParseError::Syntax(place)));
    }
    Ok(())
}

// A piece some number of times, between two others.
fn repeated(
    alloc: Global,
    front: &[u8],
    piece: &[u8],
    times: usize,
    back: &[u8],
) -> Result<Vec<u8>, Fail> {
    let mut text = joined(alloc, front, b"", b"")?;
    for _ in 0..times {
        text.extend_from_slice(piece)?;
    }
    text.extend_from_slice(back)?;
    Ok(text)
}

#[test]
fn sixty_four_levels_may_be_open(rt: HostRuntime) -> Result<(), Fail> {
    let alloc = rt.alloc();
    let front = repeated(alloc, b"system{interface{}", b"{", 63, b"")?;
    let table: [(&[u8], ParseError); 17] = [
        (b"{;}", ParseError::TooDeep(81)),
        (b"{=", ParseError::TooDeep(81)),
        (b"={", ParseError::Syntax(81)),
        (b"(", ParseError::Syntax(81)),
        (b"emit A(", ParseError::TooDeep(87)),
        (b"emit(", ParseError::Syntax(85)),
        (b"x=(", ParseError::TooDeep(83)),
        (b"x=(int)y;", ParseError::TooDeep(83)),
        (b"x=#(", ParseError::Syntax(84)),
        (b"if(", ParseError::TooDeep(83)),
        (b"present(", ParseError::TooDeep(88)),
        (b"while(", ParseError::TooDeep(86)),
        (b"weak abort(", ParseError::TooDeep(91)),
        (b"trap(", ParseError::TooDeep(85)),
        (b"send C(", ParseError::TooDeep(87)),
        (b"await(", ParseError::TooDeep(86)),
        (b"loop{", ParseError::TooDeep(85)),
    ];
    for (back, error) in table {
        let source = joined(alloc, &front, back, b"")?;
        assert_eq!(rt; refusal(alloc, &source)?, Some(error));
    }
    let close = repeated(alloc, b"", b"}", 64, b"")?;
    let within = joined(alloc, &front, b"emit A;", &close)?;
    assert_eq!(rt; refusal(alloc, &within)?, None);
    Ok(())
}

#[test]
fn one_level_less_holds_each_form(rt: HostRuntime) -> Result<(), Fail> {
    let alloc = rt.alloc();
    let front = repeated(alloc, b"system{interface{}", b"{", 62, b"")?;
    let close = repeated(alloc, b"", b"}", 63, b"")?;
    let table: [&[u8]; 10] = [
        b"{;}||{;}",
        b"emit A(1);",
        b"x=(int)(y);",
        b"if(x){}else{}",
        b"present(A){}",
        b"while(true){}",
        b"weak abort(immediate A){}",
        b"trap(T){}exit(T);",
        b"send C(1);await(A);",
        b"loop{}each(A);",
    ];
    for text in table {
        let source = joined(alloc, &front, text, &close)?;
        assert_eq!(rt; refusal(alloc, &source)?, None);
    }
    Ok(())
}

#[test]
fn expressions_have_256_operators(rt: HostRuntime) -> Result<(), Fail> {
    let alloc = rt.alloc();
    let front = repeated(alloc, b"system{interface{}{x=", b"-", 256, b"")?;
    let table: [(&[u8], Option<ParseError>); 11] = [
        (b"1;}}", None),
        (b"(1);}}", None),
        (b"2147483648;}}", None),
        (b"1;x=-1;}}", None),
        (b"-1;}}", Some(ParseError::TooDeep(277))),
        (b"-2147483648;}}", Some(ParseError::TooDeep(277))),
        (b"(int)1;}}", Some(ParseError::TooDeep(277))),
        (b"(int;}}", Some(ParseError::TooDeep(277))),
        (b"*1;}}", Some(ParseError::Syntax(277))),
        (b"1+1;}}", Some(ParseError::TooDeep(278))),
        (b"(1+1);}}", Some(ParseError::TooDeep(279))),
    ];
    for (back, answer) in table {
        let source = joined(alloc, &front, back, b"")?;
        assert_eq!(rt; refusal(alloc, &source)?, answer);
    }
    let signs = repeated(
        alloc,
        b"system{interface{output int signal A;}{emit A(",
        b"-",
        257,
        b"1);}}",
    )?;
    assert_eq!(rt; refusal(alloc, &signs)?, Some(ParseError::TooDeep(302)));
    Ok(())
}

#[test]
fn tests_have_256_operators(rt: HostRuntime) -> Result<(), Fail> {
    let alloc = rt.alloc();
    let front = repeated(alloc, b"system{interface{}{await(", b"!", 256, b"")?;
    let table: [(&[u8], Option<ParseError>); 6] = [
        (b"A);}}", None),
        (b"A);await(!A);}}", None),
        (b"!A);}}", Some(ParseError::TooDeep(281))),
        (b"&&A);}}", Some(ParseError::Syntax(281))),
        (b"A&&B);}}", Some(ParseError::TooDeep(282))),
        (b"A&B);}}", Some(ParseError::Syntax(282))),
    ];
    for (back, answer) in table {
        let source = joined(alloc, &front, back, b"")?;
        assert_eq!(rt; refusal(alloc, &source)?, answer);
    }
    Ok(())
}

#[test]
fn names_have_texts_and_places(rt: HostRuntime) -> Result<(), Fail> {
    let alloc = rt.alloc();
    let source = b"system{interface{}{signal A;receive Bc;}}";
    let tokens = tokens_of(alloc, source)?;
    match parse(alloc, &tokens, source) {
        Ok(tree) => {
            let blocks = tree.domains.as_slice();
            assert_eq!(rt; blocks.len(), 1);
            let statements = blocks[0].statements.as_slice();
            assert_eq!(rt; statements.len(), 2);
            assert_eq!(rt; statements[1].at, 28);
            match &statements[1].form {
                Form::Receive { name_at, name } => {
                    assert_eq!(rt; *name_at, 36);
                    assert!(rt; name.text.bytes() == b"Bc".as_slice());
                }
                _ => assert!(rt; false),
            }
        }
        Err(_) => assert!(rt; false),
    }
    Ok(())
}
