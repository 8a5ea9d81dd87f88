// The kinds of sources.

use crate::MOST_SOURCE_BYTES;
use crate::laws::trees_are_whole;
use crate::source::{bound_tree, read_tree};
use java_types::{TypeError, TypeFailure, Typed, typed};
use java_values::Kind;
use kernel_terms::{Expr, ExprForm};
use sj_ast::{Form, Stmt};
use sj_names::Bound;
use std::alloc::{AllocError, Global};
use std::test::Fail;

// A program's front, with a signal and a variable of some kinds: cases follow it as statements.
const FRONT: &[u8] =
    b"system{interface{output signal P;output int signal S;output boolean signal B;}{byte y=0;short s=0;char c='a';int i=0;long l=0;boolean t=true;";

/// What becomes of a source.
#[derive(Clone, Copy, Debug, PartialEq, Eq)]
enum Outcome {
    /// It has no tree, or wrong names.
    Unread,
    Typed,
    Failed(TypeFailure),
}

fn bound(alloc: Global, source: &[u8]) -> Option<Bound> {
    if source.len() > MOST_SOURCE_BYTES {
        return None;
    }
    trees_are_whole();
    match read_tree(alloc, source) {
        Ok(tree) => bound_tree(alloc, &tree).ok(),
        Err(_) => None,
    }
}

fn outcome_of(alloc: Global, source: &[u8]) -> Result<Outcome, Fail> {
    let Some(bound) = bound(alloc, source) else {
        return Ok(Outcome::Unread);
    };
    match typed(alloc, &bound) {
        Ok(_) => Ok(Outcome::Typed),
        Err(TypeError::Failed(failure)) => Ok(Outcome::Failed(failure)),
        Err(TypeError::NoMemory) => Err(AllocError.into()),
    }
}

// A source in two parts, and the place where the second begins.
fn joined(alloc: Global, parts: (&[u8], &[u8])) -> Result<(Vec<u8>, u32), Fail> {
    let mut source = Vec::from_slice(alloc, FRONT)?;
    source.extend_from_slice(parts.0)?;
    let place = u32::try_from(source.len()).map_err(|_| AllocError)?;
    source.extend_from_slice(parts.1)?;
    source.extend_from_slice(b"}}")?;
    Ok((source, place))
}

#[test]
fn kinds_that_fit(rt: HostRuntime) -> Result<(), Fail> {
    let cases: [&[u8]; 13] = [
        b"y=127;y=-128;y=(5);y=-(5);y=(-(5));y='a';y=0xffffffff;",
        b"s='a';s=-'a';s=y;c=65;c=65535;c=-0;",
        b"byte d=-(5);char e=65;short f='a';long g=y;",
        b"i=y;i=s;i=c;i=-2147483648;l=i;l=c;l=-2147483648;l=-9223372036854775808L;",
        b"i=1/5;i=1/(5);i=1/-5;i=1/((-5));i=1/'a';i=1/-2147483648;i=1%5;",
        b"l=1/5L;l=1/-5L;l=1/-9223372036854775808L;i/=5;y%=-5;",
        b"y+=1;y+=l;y<<=l;c-=1;l+=y;t&=t;",
        b"l=l<<i;i=i<<l;i=y<<l;t=c<l;t=t==t;t=c==y;t=t&t;i=c&y;",
        b"i=(byte)l;t=(boolean)t;i=(int)'a';",
        b"emit P;emit S(1);emit S('a');emit S(y);emit B(t);",
        b"i=#S;t=#B;l=#S;",
        b"if(t){}if(1<2){}else{}if((t)){}",
        b"boolean signal L;boolean signal M combine |;int signal N combine max;",
    ];
    for case in cases {
        let (source, _) = joined(rt.alloc(), (b"", case))?;
        assert_eq!(rt; outcome_of(rt.alloc(), &source)?, Outcome::Typed);
    }
    Ok(())
}

#[test]
fn values_of_another_kind(rt: HostRuntime) -> Result<(), Fail> {
    let cases: [(&[u8], &[u8]); 20] = [
        (b"y=", b"128;"),
        (b"y=", b"-129;"),
        (b"byte d=", b"128;"),
        (b"y=", b"((128));"),
        (b"y=", b"+5;"),
        (b"y=", b"~0;"),
        (b"y=", b"- -5;"),
        (b"y=", b"5L;"),
        (b"c=", b"-1;"),
        (b"c=", b"65536;"),
        (b"s=", b"c;"),
        (b"c=", b"y;"),
        (b"i=", b"l+1;"),
        (b"i=", b"l<<i;"),
        (b"t=", b"1;"),
        (b"i=", b"t;"),
        (b"emit S(", b"l);"),
        (b"emit B(", b"1);"),
        (b"if(", b"1){}"),
        (b"if(", b"(i)){}"),
    ];
    for case in cases {
        let (source, place) = joined(rt.alloc(), case)?;
        let failed = Outcome::Failed(TypeFailure::Mismatch(place));
        assert_eq!(rt; outcome_of(rt.alloc(), &source)?, failed);
    }
    Ok(())
}

#[test]
fn operators_that_do_not_fit(rt: HostRuntime) -> Result<(), Fail> {
    let cases: [(&[u8], &[u8]); 15] = [
        (b"i=1", b"+t;"),
        (b"i=t", b"+1;"),
        (b"t=t", b"+t;"),
        (b"t=", b"!1;"),
        (b"i=", b"-t;"),
        (b"i=", b"(int)t;"),
        (b"t=", b"(boolean)1;"),
        (b"t=t", b"==1;"),
        (b"t=t", b"<t;"),
        (b"t=1", b"&&t;"),
        (b"i=t", b"<<1;"),
        (b"i=1", b"&t;"),
        (b"t", b"+=1;"),
        (b"i", b"+=t;"),
        (b"t", b"<<=1;"),
    ];
    for case in cases {
        let (source, place) = joined(rt.alloc(), case)?;
        let failed = Outcome::Failed(TypeFailure::Mismatch(place));
        assert_eq!(rt; outcome_of(rt.alloc(), &source)?, failed);
    }
    Ok(())
}

#[test]
fn signals_with_and_without_a_value(rt: HostRuntime) -> Result<(), Fail> {
    let cases: [(&[u8], &[u8]); 9] = [
        (b"emit ", b"P(1);"),
        (b"emit ", b"P(1+true);"),
        (b"emit ", b"S;"),
        (b"sustain ", b"S;"),
        (b"sustain ", b"P(1);"),
        (b"i=#", b"P;"),
        (b"i=1+#", b"P;"),
        (b"boolean signal L combine ", b"+;"),
        (b"boolean signal L combine ", b"max;"),
    ];
    for case in cases {
        let (source, place) = joined(rt.alloc(), case)?;
        let failed = Outcome::Failed(TypeFailure::Mismatch(place));
        assert_eq!(rt; outcome_of(rt.alloc(), &source)?, failed);
    }
    Ok(())
}

#[test]
fn divisors(rt: HostRuntime) -> Result<(), Fail> {
    let cases: [(&[u8], &[u8]); 15] = [
        (b"i=1/", b"0;"),
        (b"l=1/", b"0L;"),
        (b"i=1/", b"0x0;"),
        (b"i=1/", b"(0);"),
        (b"i=1/", b"-0;"),
        (b"i=1/", b"-(5);"),
        (b"i=1/", b"-'a';"),
        (b"i=1/", b"+5;"),
        (b"i=1/", b"- -2147483648;"),
        (b"i=1%", b"i;"),
        (b"i=1/", b"(i+1);"),
        (b"i=1/", b"0+t;"),
        (b"y=1/", b"0L;"),
        (b"i/=", b"0;"),
        (b"i%=", b"i;"),
    ];
    for case in cases {
        let (source, place) = joined(rt.alloc(), case)?;
        let failed = Outcome::Failed(TypeFailure::Divisor(place));
        assert_eq!(rt; outcome_of(rt.alloc(), &source)?, failed);
    }
    Ok(())
}

// The first failure in the order of reading; operands come before their operator, and its kinds before its divisor.
#[test]
fn the_first_of_several(rt: HostRuntime) -> Result<(), Fail> {
    let cases: [(&[u8], &[u8]); 10] = [
        (b"i=1", b"+t;y=128;"),
        (b"if(1", b"+t){y=128;}"),
        (b"if(t){y=", b"128;}else{y=129;}"),
        (b"{y=", b"128;}||{y=129;}"),
        (b"i=(1", b"+t)+(t+1);"),
        (b"i=t+(1", b"+t);"),
        (b"i=i/(1", b"+t);"),
        (b"i=1/", b"-t;"),
        (b"t", b"/=0;"),
        (b"y=1+t", b"/0;"),
    ];
    for case in cases {
        let (source, place) = joined(rt.alloc(), case)?;
        let failed = Outcome::Failed(TypeFailure::Mismatch(place));
        assert_eq!(rt; outcome_of(rt.alloc(), &source)?, failed);
    }
    Ok(())
}

#[test]
fn values_for_a_channel(rt: HostRuntime) -> Result<(), Fail> {
    let fine = b"system{interface{byte channel C;}{send C(127);}><{receive C;short s=#C;}}";
    assert_eq!(rt; outcome_of(rt.alloc(), fine)?, Outcome::Typed);
    let sent = b"system{interface{byte channel C;}{send C(128);}><{receive C;}}";
    let failed = Outcome::Failed(TypeFailure::Mismatch(41));
    assert_eq!(rt; outcome_of(rt.alloc(), sent)?, failed);
    let taken = b"system{interface{int channel C;}{send C(1);}><{receive C;short s=#C;}}";
    let failed = Outcome::Failed(TypeFailure::Mismatch(65));
    assert_eq!(rt; outcome_of(rt.alloc(), taken)?, failed);
    Ok(())
}

// A value that is too wide for a signal of a block is wrong, and the widest that fits isn't.
#[test]
fn values_for_a_local_signal(rt: HostRuntime) -> Result<(), Fail> {
    let fine = b"system{interface{}{byte signal L;emit L(127);}}";
    assert_eq!(rt; outcome_of(rt.alloc(), fine)?, Outcome::Typed);
    let cast = b"system{interface{}{int x=0;byte signal L;emit L((byte)x);}}";
    assert_eq!(rt; outcome_of(rt.alloc(), cast)?, Outcome::Typed);
    let cases: [(&[u8], u32); 3] = [
        (b"system{interface{}{byte signal L;emit L(128);}}", 40),
        (b"system{interface{}{int x=0;byte signal L;emit L(x);}}", 48),
        (b"system{interface{}{int signal L;emit L(5L);}}", 39),
    ];
    for (source, place) in cases {
        let failed = Outcome::Failed(TypeFailure::Mismatch(place));
        assert_eq!(rt; outcome_of(rt.alloc(), source)?, failed);
    }
    Ok(())
}

#[test]
fn combinations_of_the_interface(rt: HostRuntime) -> Result<(), Fail> {
    let fine =
        b"system{interface{output boolean signal A combine ^;output byte signal D combine +;}{}}";
    assert_eq!(rt; outcome_of(rt.alloc(), fine)?, Outcome::Typed);
    let wrong = b"system{interface{output signal A;output boolean signal D combine min;}{if(1){}}}";
    let failed = Outcome::Failed(TypeFailure::Mismatch(65));
    assert_eq!(rt; outcome_of(rt.alloc(), wrong)?, failed);
    Ok(())
}

fn word_of(kind: Kind) -> &'static [u8] {
    match kind {
        Kind::Boolean => b"boolean",
        Kind::Byte => b"byte",
        Kind::Short => b"short",
        Kind::Char => b"char",
        Kind::Int => b"int",
        Kind::Long => b"long",
    }
}

// The kinds of an expression and its parts: parts of an operator in `[]`, of a cast in `()`.
fn print(out: &mut Vec<u8>, expr: &Expr) -> Result<(), AllocError> {
    out.extend_from_slice(word_of(expr.kind))?;
    match &expr.form {
        ExprForm::Unary(_, part) => {
            out.push(b'[')?;
            print(out, part.get())?;
            out.push(b']')?;
        }
        ExprForm::Binary(_, left, right) => {
            out.push(b'[')?;
            print(out, left.get())?;
            out.push(b' ')?;
            print(out, right.get())?;
            out.push(b']')?;
        }
        ExprForm::Cast(part) => {
            out.push(b'(')?;
            print(out, part.get())?;
            out.push(b')')?;
        }
        _ => {}
    }
    Ok(())
}

fn value_of(statement: &Stmt<u32, Expr>) -> Option<&Expr> {
    match &statement.form {
        Form::Assign { value, .. } => Some(value),
        Form::Emit { value, .. } => value.as_ref(),
        _ => None,
    }
}

// The kinds of the value of a program's last statement.
fn kinds_of(alloc: Global, program: &Typed) -> Result<Vec<u8>, AllocError> {
    let mut out = Vec::new(alloc);
    if let Some(domain) = program.tree.domains.as_slice().last()
        && let Some(statement) = domain.statements.as_slice().last()
        && let Some(value) = value_of(statement)
    {
        print(&mut out, value)?;
    }
    Ok(out)
}

#[test]
fn casts_are_written(rt: HostRuntime) -> Result<(), Fail> {
    let cases: [(&[u8], &[u8]); 11] = [
        (b"i=1;", b"int"),
        (b"y=1;", b"byte(int)"),
        (b"s='a';", b"short(char)"),
        (b"l=y;", b"long(byte)"),
        (b"y=-(5);", b"byte(int[int])"),
        (b"y+=1;", b"byte(int[byte int])"),
        (b"i+=1;", b"int(int[int int])"),
        (b"l=l<<i;", b"long[long int]"),
        (b"i=i<<l;", b"int[int long]"),
        (b"t=c<l;", b"boolean[char long]"),
        (b"emit S(y);", b"int(byte)"),
    ];
    for (case, kinds) in cases {
        let (source, _) = joined(rt.alloc(), (b"", case))?;
        let Some(bound) = bound(rt.alloc(), &source) else {
            return Err(AllocError.into());
        };
        let program = typed(rt.alloc(), &bound).map_err(|_| AllocError)?;
        assert_eq!(rt; kinds_of(rt.alloc(), &program)?.as_slice(), kinds);
    }
    Ok(())
}
