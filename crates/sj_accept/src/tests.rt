use crate::{AcceptError, MOST_SOURCE_BYTES, Refusal, accept};
use java_types::TypeFailure;
use sj_names::{Failure, FailureKind};
use std::alloc::{AllocError, Global};
use std::test::Fail;

// The refusal of a source; None where it is accepted.
fn refusal_of(alloc: Global, source: &[u8]) -> Result<Option<Refusal>, Fail> {
    if source.len() > MOST_SOURCE_BYTES {
        return Ok(Some(Refusal::Later));
    }
    match accept(alloc, source) {
        Ok(_system) => Ok(None),
        Err(AcceptError::Refused(refusal)) => Ok(Some(refusal)),
        Err(AcceptError::NoMemory) => Err(AllocError.into()),
    }
}

fn failure(fault: FailureKind, at: u32) -> Option<Refusal> {
    Some(Refusal::Names(Failure { at, fault }))
}

// So many times this statement and then the others in a domain, beside one that receives on C in a loop.
fn repeated(
    alloc: Global,
    statement: &[u8],
    times: usize,
    others: &[u8],
) -> Result<Vec<u8>, AllocError> {
    let mut source = Vec::from_slice(alloc, b"system{interface{int channel C;}{send C(1);")?;
    for _ in 0..times {
        source.extend_from_slice(statement)?;
    }
    source.extend_from_slice(others)?;
    source.extend_from_slice(b"}><{while(true){receive C;}}}")?;
    Ok(source)
}

#[test]
fn accepts_built_forms(rt: HostRuntime) -> Result<(), Fail> {
    let sources: [&[u8]; 8] = [
        b"system{interface{}{}}",
        b"system{interface{output signal A;}{emit A;pause;;emit A;}}",
        b"system{interface{output signal A;}{while(true){emit A;pause;}}}",
        b"system{interface{int channel C;}{send C(5);}><{receive C;}}",
        b"system{interface{int channel C;}{send C((1));}><{receive C;}}",
        b"system{interface{int channel C;}{send C(-2147483648);}><{receive C;}}",
        b"system{interface{int channel C;}{while(true){send C(1);}}><{while(true){receive C;}}}",
        b"/* a */ system { interface { } // b\n { pause; } }",
    ];
    for source in sources {
        assert_eq!(rt; refusal_of(rt.alloc(), source)?, None);
    }
    Ok(())
}

#[test]
fn tells_the_first_reason(rt: HostRuntime) -> Result<(), Fail> {
    let cases: [(&[u8], Refusal); 12] = [
        (b"", Refusal::Syntax(0)),
        (b"system{interface{}{@}}", Refusal::BadByte(19)),
        (b"system{interface{}{pause;} 08", Refusal::BadNumber(27)),
        (b"system /*", Refusal::OpenComment(7)),
        (b"system{interface{}{emit}}", Refusal::Syntax(23)),
        (b"system{interface{}{}", Refusal::Syntax(20)),
        (
            b"system{interface{int channel C;}{send C(2147483648);}}",
            Refusal::Syntax(40),
        ),
        (
            b"system{interface{int channel C;}{send C(4294967296);}}",
            Refusal::BadNumber(40),
        ),
        (
            b"system{interface{output signal A;}{emit A(1);}}",
            Refusal::Kinds(TypeFailure::Mismatch(40)),
        ),
        (
            b"system{interface{output int signal A;}{emit A(1/0);}}",
            Refusal::Kinds(TypeFailure::Divisor(48)),
        ),
        (b"system{interface{}{halt;}}", Refusal::Later),
        (
            b"system{interface{int channel C;}{send C(-1);}><{receive C;}}",
            Refusal::Later,
        ),
    ];
    for (source, refusal) in cases {
        assert_eq!(rt; refusal_of(rt.alloc(), source)?, Some(refusal));
    }
    Ok(())
}

#[test]
fn looks_at_names(rt: HostRuntime) -> Result<(), Fail> {
    let cases: [(&[u8], FailureKind, u32); 11] = [
        (
            b"system{interface{output signal A;}{emit B;}}",
            FailureKind::Unknown,
            40,
        ),
        (
            b"system{interface{}{halt;emit B;}}",
            FailureKind::Unknown,
            29,
        ),
        (
            b"system{interface{int channel C;int channel C;}{send C(1);}><{receive C;}}",
            FailureKind::Twice,
            43,
        ),
        (
            b"system{interface{int channel C;output signal C;}{send C(1);}><{receive C;}}",
            FailureKind::Twice,
            45,
        ),
        (
            b"system{interface{int channel C;}{emit C;}><{receive C;}}",
            FailureKind::ChannelEnds,
            29,
        ),
        (
            b"system{interface{int channel C;}{send D(1);}><{receive C;}}",
            FailureKind::ChannelEnds,
            29,
        ),
        (
            b"system{interface{output signal A;}{send A(1);}><{receive A;}}",
            FailureKind::Unknown,
            40,
        ),
        (
            b"system{interface{output signal A;}{receive A;}}",
            FailureKind::Unknown,
            43,
        ),
        (
            b"system{interface{input signal A;}{emit A;}}",
            FailureKind::EmitInput,
            39,
        ),
        (
            b"system{interface{input signal A;}{sustain A;}}",
            FailureKind::EmitInput,
            42,
        ),
        (
            b"system{interface{int channel C;}{int C=1;send C(1);}><{receive C;}}",
            FailureKind::Twice,
            37,
        ),
    ];
    for (source, fault, at) in cases {
        assert_eq!(rt; refusal_of(rt.alloc(), source)?, failure(fault, at));
    }
    Ok(())
}

#[test]
fn looks_at_owners(rt: HostRuntime) -> Result<(), Fail> {
    let cases: [(&[u8], FailureKind, u32); 7] = [
        (
            b"system{interface{int channel C;}{}}",
            FailureKind::ChannelEnds,
            29,
        ),
        (
            b"system{interface{int channel C;}{}><{receive C;}}",
            FailureKind::ChannelEnds,
            29,
        ),
        (
            b"system{interface{int channel C;}{send C(1);}><{int x=#C;}}",
            FailureKind::ChannelEnds,
            29,
        ),
        (
            b"system{interface{output signal A;}{emit A;}><{emit A;}}",
            FailureKind::SignalShared,
            51,
        ),
        (
            b"system{interface{int channel C;}{send C(1);}}",
            FailureKind::ChannelEnds,
            29,
        ),
        (
            b"system{interface{int channel C;}{send C(1);receive C;}}",
            FailureKind::ChannelEnds,
            51,
        ),
        (
            b"system{interface{int channel C;}{send C(1);}><{receive C;}><{receive C;}}",
            FailureKind::ChannelEnds,
            69,
        ),
    ];
    for (source, fault, at) in cases {
        assert_eq!(rt; refusal_of(rt.alloc(), source)?, failure(fault, at));
    }
    Ok(())
}

// An input of an earlier domain is emitted: of the two failures at one place the first kind is told.
#[test]
fn tells_the_first_kind_at_one_place(rt: HostRuntime) -> Result<(), Fail> {
    let source = b"system{interface{input signal A;}{await(A);}><{emit A;}}";
    assert_eq!(rt;
        refusal_of(rt.alloc(), source)?,
        failure(FailureKind::SignalShared, 52)
    );
    Ok(())
}

// The failure at the least place is told, of whatever kind it is.
#[test]
fn tells_the_failure_at_the_least_place(rt: HostRuntime) -> Result<(), Fail> {
    let cases: [(&[u8], FailureKind, u32); 6] = [
        (
            b"system{interface{}{signal A;signal A;emit B;}}",
            FailureKind::Twice,
            35,
        ),
        (
            b"system{interface{}{emit B;signal A;signal A;}}",
            FailureKind::Unknown,
            24,
        ),
        (
            b"system{interface{output signal A;output signal A;}{emit B;}}",
            FailureKind::Twice,
            47,
        ),
        (
            b"system{interface{int channel C;}{emit B;}><{send C(1);}}",
            FailureKind::ChannelEnds,
            29,
        ),
        (
            b"system{interface{int channel C;}{send C(1);}><{int x=#C;emit B;}}",
            FailureKind::ChannelEnds,
            29,
        ),
        (
            b"system{interface{output signal A;}{emit A;}><{emit A;emit B;}}",
            FailureKind::SignalShared,
            51,
        ),
    ];
    for (source, fault, at) in cases {
        assert_eq!(rt; refusal_of(rt.alloc(), source)?, failure(fault, at));
    }
    Ok(())
}

// A signal is visible behind its declaration, up to the end of its block.
// There its name may not be declared again.
#[test]
fn looks_at_local_signals(rt: HostRuntime) -> Result<(), Fail> {
    let cases: [(&[u8], FailureKind, u32); 9] = [
        (
            b"system{interface{}{signal L;signal L;}}",
            FailureKind::Twice,
            35,
        ),
        (
            b"system{interface{}{signal L;{signal L;}}}",
            FailureKind::Twice,
            36,
        ),
        (
            b"system{interface{}{signal L;{emit L;{signal L;}}}}",
            FailureKind::Twice,
            44,
        ),
        (
            b"system{interface{}{signal L;{pause;}||{signal L;}}}",
            FailureKind::Twice,
            46,
        ),
        (
            b"system{interface{}{emit L;signal L;}}",
            FailureKind::Unknown,
            24,
        ),
        (
            b"system{interface{}{{emit L;}signal L;}}",
            FailureKind::Unknown,
            25,
        ),
        (
            b"system{interface{}{{signal L;}emit L;}}",
            FailureKind::Unknown,
            35,
        ),
        (
            b"system{interface{}{{signal L;emit L;}emit L;}}",
            FailureKind::Unknown,
            42,
        ),
        (
            b"system{interface{}{if(true){signal L;}emit L;}}",
            FailureKind::Unknown,
            43,
        ),
    ];
    for (source, fault, at) in cases {
        assert_eq!(rt; refusal_of(rt.alloc(), source)?, failure(fault, at));
    }
    Ok(())
}

// Blocks beside each other may declare one name; their names are right, and the form isn't built.
#[test]
fn scopes_that_ended_give_names_back(rt: HostRuntime) -> Result<(), Fail> {
    let sources: [&[u8]; 3] = [
        b"system{interface{}{{signal L;}{signal L;}}}",
        b"system{interface{}{{signal L;}signal L;}}",
        b"system{interface{}{{signal L;}||{signal L;}}}",
    ];
    for source in sources {
        assert_eq!(rt; refusal_of(rt.alloc(), source)?, Some(Refusal::Later));
    }
    Ok(())
}

// A status of a channel receives on it, so that its sender may not read it.
#[test]
fn a_sender_reads_no_status_of_its_channel(rt: HostRuntime) -> Result<(), Fail> {
    let cases: [(&[u8], u32); 2] = [
        (
            b"system{interface{int channel C;}{send C(#C);}><{receive C;}}",
            41,
        ),
        (
            b"system{interface{int channel C;}{send C(1);}><{receive C;send C(#C);}}",
            62,
        ),
    ];
    for (source, at) in cases {
        assert_eq!(rt;
            refusal_of(rt.alloc(), source)?,
            failure(FailureKind::ChannelEnds, at)
        );
    }
    Ok(())
}

#[test]
fn looks_at_loops(rt: HostRuntime) -> Result<(), Fail> {
    let sources: [&[u8]; 3] = [
        b"system{interface{output signal A;}{while(true){emit A;}}}",
        b"system{interface{}{}><{pause;while(true){;}}}",
        b"system{interface{}{while(true){while(true){}}}}",
    ];
    for source in sources {
        assert_eq!(rt; refusal_of(rt.alloc(), source)?, Some(Refusal::Later));
    }
    Ok(())
}

// A send weighs 2 in the starting tree and 1 in the resuming one, and is started again behind
// each that comes before it: n sends weigh 3 n, and n pauses behind a send 3 + 2 n. A `;` weighs 1 behind them.
#[test]
fn looks_at_the_weight(rt: HostRuntime) -> Result<(), Fail> {
    let cases: [(&[u8], usize, &[u8], bool); 5] = [
        (b"send C(1);", 33_332, b"", true),
        (b"send C(1);", 33_333, b"", false),
        (b"pause;", 49_998, b"", true),
        (b"pause;", 49_998, b";", true),
        (b"pause;", 49_998, b";;", false),
    ];
    for (statement, times, others, fits) in cases {
        let source = repeated(rt.alloc(), statement, times, others)?;
        assert_eq!(rt; refusal_of(rt.alloc(), &source)?.is_none(), fits);
    }
    Ok(())
}

#[test]
fn tells_who_owns_what(rt: HostRuntime) -> Result<(), Fail> {
    let source =
        b"system{interface{output signal A;int channel C;output signal B;output signal D;}{send C(1);emit B;}><{receive C;emit A;}}".as_slice();
    let Ok(system) = accept(rt.alloc(), source) else {
        return Err("refused".into());
    };
    let signals = system.tables().signals.as_slice();
    assert_eq!(rt; signals.len(), 3);
    assert_eq!(rt; signals[0].domain, 1);
    assert_eq!(rt; signals[1].domain, 0);
    assert_eq!(rt; signals[2].domain, 0);
    let channels = system.tables().channels.as_slice();
    assert_eq!(rt; channels.len(), 1);
    assert_eq!(rt; channels[0].name.bytes(), b"C".as_slice());
    assert_eq!(rt; channels[0].sender, 0);
    assert_eq!(rt; channels[0].receiver, 1);
    assert_eq!(rt; system.domains().len(), 2);
    Ok(())
}

// A program of so many loops, one in another.
fn nested(alloc: Global, loops: usize) -> Result<Vec<u8>, AllocError> {
    let mut source = Vec::from_slice(alloc, b"system{interface{}{")?;
    for _ in 0..loops {
        source.extend_from_slice(b"while(true){")?;
    }
    source.extend_from_slice(b"pause;")?;
    for _ in 0..loops {
        source.extend_from_slice(b"}")?;
    }
    source.extend_from_slice(b"}}")?;
    Ok(source)
}

#[test]
fn accepts_loops_up_to_the_limit(rt: HostRuntime) -> Result<(), Fail> {
    let deepest = nested(rt.alloc(), 62)?;
    assert_eq!(rt; refusal_of(rt.alloc(), &deepest)?, None);
    let deeper = nested(rt.alloc(), 63)?;
    assert_eq!(rt;
        refusal_of(rt.alloc(), &deeper)?,
        Some(Refusal::TooDeep(768))
    );
    Ok(())
}

#[test]
fn accepts_sixteen_domains(rt: HostRuntime) -> Result<(), Fail> {
    let mut source = Vec::from_slice(rt.alloc(), b"system{interface{}{}")?;
    for _ in 0..15 {
        source.extend_from_slice(b"><{}")?;
    }
    let mut more = source.clone()?;
    source.extend_from_slice(b"}")?;
    assert_eq!(rt; refusal_of(rt.alloc(), &source)?, None);
    more.extend_from_slice(b"><{}}")?;
    assert_eq!(rt;
        refusal_of(rt.alloc(), &more)?,
        failure(FailureKind::TooMany, 82)
    );
    Ok(())
}

// Two domains joined by 64 channels; there is one more channel where `more` is set, with both ends where `ends` is.
fn joined(alloc: Global, more: bool, ends: bool) -> Result<Vec<u8>, AllocError> {
    let mut source = Vec::from_slice(alloc, b"system{interface{")?;
    let mut sends = Vec::from_slice(alloc, b"{")?;
    let mut receives = Vec::from_slice(alloc, b"><{")?;
    for first in b"abcdefgh" {
        for second in b"abcdefgh" {
            let name = [*first, *second];
            source.extend_from_slice(b"int channel ")?;
            source.extend_from_slice(&name)?;
            source.extend_from_slice(b";")?;
            sends.extend_from_slice(b"send ")?;
            sends.extend_from_slice(&name)?;
            sends.extend_from_slice(b"(1);")?;
            receives.extend_from_slice(b"receive ")?;
            receives.extend_from_slice(&name)?;
            receives.extend_from_slice(b";")?;
        }
    }
    if more {
        source.extend_from_slice(b"int channel z;")?;
    }
    if ends {
        sends.extend_from_slice(b"send z(1);")?;
        receives.extend_from_slice(b"receive z;")?;
    }
    source.extend_from_slice(b"}")?;
    source.extend_from_slice(&sends)?;
    source.extend_from_slice(b"}")?;
    source.extend_from_slice(&receives)?;
    source.extend_from_slice(b"}}")?;
    Ok(source)
}

#[test]
fn accepts_64_channels(rt: HostRuntime) -> Result<(), Fail> {
    let most = joined(rt.alloc(), false, false)?;
    assert_eq!(rt; refusal_of(rt.alloc(), &most)?, None);
    let more = joined(rt.alloc(), true, true)?;
    assert_eq!(rt;
        refusal_of(rt.alloc(), &more)?,
        failure(FailureKind::TooMany, 989)
    );
    // Its ends come before the limit.
    let without_ends = joined(rt.alloc(), true, false)?;
    assert_eq!(rt;
        refusal_of(rt.alloc(), &without_ends)?,
        failure(FailureKind::ChannelEnds, 989)
    );
    Ok(())
}

// A program of 16 domains, of which each emits so many signals of its own.
fn emitting(alloc: Global, signals: u32) -> Result<String, Fail> {
    let mut source = String::from_str(alloc, "system{interface{")?;
    let mut domains = String::new(alloc);
    for domain in 0..16u32 {
        domains.push_str(if domain == 0 { "{" } else { "><{" })?;
        for signal in 0..signals {
            source.push_str(format!(in alloc; "output signal A{domain}_{signal};")?.as_str())?;
            domains.push_str(format!(in alloc; "emit A{domain}_{signal};")?.as_str())?;
        }
        domains.push_str("}")?;
    }
    source.push_str("}")?;
    source.push_str(domains.as_str())?;
    source.push_str("}")?;
    Ok(source)
}

#[test]
fn accepts_1024_signals_of_each_domain(rt: HostRuntime) -> Result<(), Fail> {
    let most = emitting(rt.alloc(), 1024)?;
    assert_eq!(rt; refusal_of(rt.alloc(), most.as_bytes())?, None);
    let more = emitting(rt.alloc(), 1025)?;
    assert_eq!(rt;
        refusal_of(rt.alloc(), more.as_bytes())?,
        failure(FailureKind::TooMany, 21449)
    );
    Ok(())
}

// Signals of an interface, so many of which the second domain emits; it declares one more, whose place is told.
fn with_a_later_domain(alloc: Global, signals: u32) -> Result<(String, u32), Fail> {
    let mut source = String::from_str(alloc, "system{interface{output signal B;")?;
    for signal in 0..signals {
        source.push_str(format!(in alloc; "output signal A{signal};")?.as_str())?;
    }
    source.push_str("}{emit B;}><{")?;
    for signal in 0..signals {
        source.push_str(format!(in alloc; "emit A{signal};")?.as_str())?;
    }
    source.push_str("signal ")?;
    let place = u32::try_from(source.len()).map_err(|_| AllocError)?;
    source.push_str("L;}}")?;
    Ok((source, place))
}

// The signals of an interface count for the domain that mentions them.
#[test]
fn counts_signals_of_a_later_domain(rt: HostRuntime) -> Result<(), Fail> {
    let (most, _) = with_a_later_domain(rt.alloc(), 1023)?;
    assert_eq!(rt;
        refusal_of(rt.alloc(), most.as_bytes())?,
        Some(Refusal::Later)
    );
    let (more, place) = with_a_later_domain(rt.alloc(), 1024)?;
    assert_eq!(rt;
        refusal_of(rt.alloc(), more.as_bytes())?,
        failure(FailureKind::TooMany, place)
    );
    Ok(())
}

// A domain's local signal is declared before it mentions the signals of the interface, which count first.
#[test]
fn counts_signals_that_are_mentioned_later(rt: HostRuntime) -> Result<(), Fail> {
    let mut source = String::from_str(rt.alloc(), "system{interface{")?;
    for signal in 0..1024u32 {
        source.push_str(format!(in rt.alloc(); "output signal A{signal};")?.as_str())?;
    }
    source.push_str("}{signal ")?;
    let place = u32::try_from(source.len()).map_err(|_| AllocError)?;
    source.push_str("L;")?;
    for signal in 0..1024u32 {
        source.push_str(format!(in rt.alloc(); "emit A{signal};")?.as_str())?;
    }
    source.push_str("}}")?;
    assert_eq!(rt;
        refusal_of(rt.alloc(), source.as_bytes())?,
        failure(FailureKind::TooMany, place)
    );
    Ok(())
}

#[test]
fn refuses_40_000_signals(rt: HostRuntime) -> Result<(), Fail> {
    let mut source = String::from_str(rt.alloc(), "system{interface{")?;
    for signal in 0..40_000u32 {
        source.push_str(format!(in rt.alloc(); "output signal A{signal};")?.as_str())?;
    }
    source.push_str("}{}}")?;
    assert_eq!(rt;
        refusal_of(rt.alloc(), source.as_bytes())?,
        failure(FailureKind::TooMany, 19401)
    );
    Ok(())
}
