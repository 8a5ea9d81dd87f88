use crate::serve::serve_plain;
use sj_io::{MemFile, MemFiles, MemSink};
use std::alloc::Global;
use std::process::Abort;
use std::test::Fail;

const BLINK: &[u8] = b"system{interface{output signal A;}{emit A;pause;emit A;}}";

const EMPTY: &[u8] = b"system{interface{}{}}";

const USAGE: &[u8] =
    b"usage: check FILE | order FILE TURNS INPUTS | run FILE TICKS INPUTS | verify FILE TICKS INPUTS RUN | gen NUMBER TICKS\n";

fn words(alloc: Global, texts: &[&str]) -> Result<Vec<String>, Fail> {
    let mut words = Vec::new(alloc);
    for text in texts {
        words.push(String::from_str(alloc, *text)?)?;
    }
    Ok(words)
}

fn files(alloc: Global, source: &[u8], fail: Vec<u64>) -> Result<MemFiles, Fail> {
    let mut files = Vec::new(alloc);
    files.push(MemFile {
        name: String::from_str(alloc, "F")?,
        bytes: Vec::from_slice(alloc, source)?,
        faults: 0,
    })?;
    Ok(MemFiles::new(files, 1000, fail))
}

// What a command answers and writes over a sink that takes so many bytes a call.
fn serve(
    alloc: Global,
    command: &[&str],
    source: &[u8],
    piece: usize,
) -> Result<(u8, Vec<u8>), Fail> {
    let mut files = files(alloc, source, Vec::new(alloc))?;
    let space = vec![in alloc; 0u8; 200_000]?;
    let mut sink = MemSink::new(piece.max(1), Vec::new(alloc), space);
    let status = serve_plain(alloc, &words(alloc, command)?, &mut files, &mut sink);
    Ok((status, Vec::from_slice(alloc, sink.bytes())?))
}

// An order of a source and turns succeeds, and writes this text.
fn prints<R: Abort>(
    rt: &R,
    alloc: Global,
    source: &[u8],
    turns: &str,
    text: &[u8],
) -> Result<(), Fail> {
    let (status, written) = serve(alloc, &["order", "F", turns, "-"], source, 7)?;
    assert_eq!(rt; status, 0);
    assert_eq!(rt; written.as_slice(), text);
    Ok(())
}

#[test]
fn prints_the_run_of_one_domain(rt: HostRuntime) -> Result<(), Fail> {
    let cases: [(&[u8], &str, &[u8]); 7] = [
        (BLINK, "0,0,0", b"domain 0 ticks 2 ended\n1 @1 A\n2 @2 A\n"),
        (BLINK, "rr:3", b"domain 0 ticks 2 ended\n1 @1 A\n2 @2 A\n"),
        (BLINK, "0", b"domain 0 ticks 1 paused\n1 @1 A\n"),
        (EMPTY, "0", b"domain 0 ticks 1 ended\n1 @1\n"),
        (EMPTY, "-", b"domain 0 ticks 0 paused\n"),
        (
            b"system{interface{output signal A;output signal B;}{while(true){emit A;pause;emit B;}}}",
            "0,0,0",
            b"domain 0 ticks 3 paused\n1 @1 A\n2 @2 A B\n3 @3 A B\n",
        ),
        (
            b"system{interface{output signal A;output signal B;}{while(true){pause;while(true){emit B;pause;}}emit A;}}",
            "0,0",
            b"domain 0 ticks 2 paused\n1 @1\n2 @2 B\n",
        ),
    ];
    for (source, turns, text) in cases {
        prints(&rt, rt.alloc(), source, turns, text)?;
    }
    Ok(())
}

#[test]
fn one_rendezvous(rt: HostRuntime) -> Result<(), Fail> {
    prints(
        &rt,
        rt.alloc(),
        b"system{interface{output signal D;output signal B;int channel C;}{send C(5); emit D;}><{receive C; emit B;}}",
        "0,1,0,1",
        b"domain 0 ticks 2 ended\n1 @1\n2 @3 D\ndomain 1 ticks 2 ended\n1 @1\n2 @3 B\nchannel C 1\n1 5 1 1 @2\n",
    )
}

#[test]
fn three_joins_of_one_channel(rt: HostRuntime) -> Result<(), Fail> {
    prints(
        &rt,
        rt.alloc(),
        b"system{interface{output signal B;int channel C;}{send C(1);send C(2147483647);send C(0xffffffff);}><{receive C;emit B;receive C;emit B;receive C;emit B;}}",
        "rr:4",
        b"domain 0 ticks 4 ended\n1 @1\n2 @3\n3 @5\n4 @7\ndomain 1 ticks 4 ended\n1 @1\n2 @3 B\n3 @5 B\n4 @7 B\nchannel C 3\n1 1 1 1 @2\n2 2147483647 2 2 @4\n3 -1 3 3 @6\n",
    )
}

#[test]
fn numbers_are_sent_in_parentheses_and_the_least_one(rt: HostRuntime) -> Result<(), Fail> {
    prints(
        &rt,
        rt.alloc(),
        b"system{interface{output signal B;int channel C;}{send C((1));send C(-2147483648);}><{receive C;emit B;receive C;emit B;}}",
        "rr:3",
        b"domain 0 ticks 3 ended\n1 @1\n2 @3\n3 @5\ndomain 1 ticks 3 ended\n1 @1\n2 @3 B\n3 @5 B\nchannel C 2\n1 1 1 1 @2\n2 -2147483648 2 2 @4\n",
    )
}

#[test]
fn joins_of_three_domains(rt: HostRuntime) -> Result<(), Fail> {
    prints(
        &rt,
        rt.alloc(),
        b"system{interface{output signal A;output signal B;int channel C;int channel D;}{while(true){send C(1);emit A;}}><{while(true){receive C;send D(2);}}><{while(true){receive D;emit B;}}}",
        "rr:5",
        b"domain 0 ticks 5 paused\n1 @1\n2 @3 A\n3 @4\n4 @7 A\n5 @8\ndomain 1 ticks 5 paused\n1 @1\n2 @3\n3 @5\n4 @7\n5 @9\ndomain 2 ticks 5 paused\n1 @1\n2 @5 B\n3 @6\n4 @9 B\n5 @10\nchannel C 3\n1 1 1 1 @2\n2 1 3 3 @6\n3 1 5 5 @10\nchannel D 2\n1 2 2 1 @4\n2 2 4 3 @8\n",
    )
}

#[test]
fn an_offer_stands_until_the_other_end_comes(rt: HostRuntime) -> Result<(), Fail> {
    let source =
        b"system{interface{output signal A;int channel C;}{send C(7);emit A;}><{pause;pause;receive C;}}";
    prints(
        &rt,
        rt.alloc(),
        source,
        "0,0,0",
        b"domain 0 ticks 3 paused\n1 @1\n2 @2\n3 @3\ndomain 1 ticks 0 paused\nchannel C 0\n",
    )?;
    prints(
        &rt,
        rt.alloc(),
        source,
        "0,0,0,1,1,0,1,0,1",
        b"domain 0 ticks 5 ended\n1 @1\n2 @2\n3 @3\n4 @4\n5 @6 A\ndomain 1 ticks 4 ended\n1 @1\n2 @2\n3 @3\n4 @6\nchannel C 1\n1 7 4 3 @5\n",
    )
}

#[test]
fn turns_of_no_domain_do_not_fit(rt: HostRuntime) -> Result<(), Fail> {
    let cases: [(&[u8], &str); 3] = [
        (BLINK, "1"),
        (b"system{interface{}{}><{}}", "0,1,2"),
        (EMPTY, "0,0,15"),
    ];
    for (source, turns) in cases {
        let (status, written) = serve(rt.alloc(), &["order", "F", turns, "-"], source, 100)?;
        assert_eq!(rt; status, 2);
        assert_eq!(rt; written.as_slice(), b"domains do not fit\n".as_slice());
    }
    prints(
        &rt,
        rt.alloc(),
        b"system{interface{}{}><{}}",
        "1",
        b"domain 0 ticks 0 paused\ndomain 1 ticks 1 ended\n1 @1\n",
    )
}

// Domain 0 has 39 outputs, and domain 1 none.
fn wide_source(alloc: Global) -> Result<String, Fail> {
    let mut source = String::from_str(alloc, "system{interface{")?;
    for number in 0..39u32 {
        source.push_str(format!(in alloc; "output signal A{number};")?.as_str())?;
    }
    source.push_str("}{}><{}}")?;
    Ok(source)
}

#[test]
fn a_run_weighs_at_most_four_millions(rt: HostRuntime) -> Result<(), Fail> {
    let source = wide_source(rt.alloc())?;
    let source = source.as_bytes();
    prints(
        &rt,
        rt.alloc(),
        source,
        "rr:97560",
        b"domain 0 ticks 1 ended\n1 @1\ndomain 1 ticks 1 ended\n1 @1\n",
    )?;
    let order = ["order", "F", "rr:97561", "-"];
    let (status, written) = serve(rt.alloc(), &order, source, 100)?;
    assert_eq!(rt; status, 7);
    assert_eq!(rt;
        written.as_slice(),
        b"over the run weight 4000001\n".as_slice()
    );
    Ok(())
}

// In each turn domain 0 weighs 40, since the signals that no domain emits are its own, and domain 1 weighs 1.
#[test]
fn signals_that_none_emits_are_of_domain_0(rt: HostRuntime) -> Result<(), Fail> {
    let source = wide_source(rt.alloc())?;
    let source = source.as_bytes();
    let mut turns = String::from_str(rt.alloc(), "0")?;
    for _ in 1..100_000 {
        turns.push_str(",0")?;
    }
    let text = b"domain 0 ticks 1 ended\n1 @1\ndomain 1 ticks 0 paused\n";
    prints(&rt, rt.alloc(), source, turns.as_str(), text)?;
    turns.push_str(",1")?;
    let order = ["order", "F", turns.as_str(), "-"];
    let (status, written) = serve(rt.alloc(), &order, source, 100)?;
    assert_eq!(rt; status, 7);
    assert_eq!(rt;
        written.as_slice(),
        b"over the run weight 4000001\n".as_slice()
    );
    Ok(())
}

// An order of a source without a turn is refused with this line.
fn refuses<R: Abort>(rt: &R, alloc: Global, source: &[u8], line: &[u8]) -> Result<(), Fail> {
    let (status, written) = serve(alloc, &["order", "F", "-", "-"], source, 7)?;
    assert_eq!(rt; status, 1);
    assert_eq!(rt; written.as_slice(), line);
    Ok(())
}

#[test]
fn refuses_bad_tokens_at_their_places(rt: HostRuntime) -> Result<(), Fail> {
    let cases: [(&[u8], &[u8]); 7] = [
        (b"system{interface{}{@}}", b"refused BadByte at 19\n"),
        (b"system{interface{}{}}'", b"refused BadByte at 21\n"),
        (
            b"system{interface{output signal a123456789b123456789c123456789d123456789e123456789f123456789g1234;}{}}",
            b"refused BadByte at 95\n",
        ),
        (
            b"system{interface{output int signal A;}{emit A(4294967296);}}",
            b"refused BadNumber at 46\n",
        ),
        (
            b"system{interface{int channel C;}{send C(01);}><{receive C;}}",
            b"refused BadNumber at 40\n",
        ),
        (b"system{/*", b"refused OpenComment at 7\n"),
        (
            b"system{interface{}{} // } */ /* \n/* * /",
            b"refused OpenComment at 33\n",
        ),
    ];
    for (source, line) in cases {
        refuses(&rt, rt.alloc(), source, line)?;
    }
    Ok(())
}

#[test]
fn refuses_other_tokens_at_their_places(rt: HostRuntime) -> Result<(), Fail> {
    let cases: [(&[u8], &[u8]); 7] = [
        (b"", b"refused Syntax at 0\n"),
        (b" // none", b"refused Syntax at 8\n"),
        (b"system{interface{}}", b"refused Syntax at 18\n"),
        (b"system{interface{}{emit}}", b"refused Syntax at 23\n"),
        (
            b"system{interface{output int signal A;}{emit A(2147483648);}}",
            b"refused Syntax at 46\n",
        ),
        (b"system{interface{}{}} {", b"refused Syntax at 22\n"),
        (
            b"system{interface{output signal loop;}{}}",
            b"refused Syntax at 31\n",
        ),
    ];
    for (source, line) in cases {
        refuses(&rt, rt.alloc(), source, line)?;
    }
    Ok(())
}

fn push_times(bytes: &mut Vec<u8>, byte: u8, times: usize) -> Result<(), Fail> {
    for _ in 0..times {
        bytes.push(byte)?;
    }
    Ok(())
}

#[test]
fn at_most_64_levels_are_open(rt: HostRuntime) -> Result<(), Fail> {
    let cases: [(usize, &[u8]); 2] = [(63, b"refused Later\n"), (64, b"refused TooDeep at 81\n")];
    for (blocks, line) in cases {
        let mut source = Vec::from_slice(rt.alloc(), b"system{interface{}")?;
        push_times(&mut source, b'{', blocks)?;
        push_times(&mut source, b'}', blocks + 1)?;
        refuses(&rt, rt.alloc(), &source, line)?;
    }
    Ok(())
}

#[test]
fn an_expression_has_at_most_256_operators(rt: HostRuntime) -> Result<(), Fail> {
    let cases: [(usize, &[u8]); 2] = [
        (256, b"refused Later\n"),
        (257, b"refused TooDeep at 302\n"),
    ];
    for (signs, line) in cases {
        let mut source = Vec::from_slice(
            rt.alloc(),
            b"system{interface{output int signal A;}{emit A(",
        )?;
        push_times(&mut source, b'-', signs)?;
        source.extend_from_slice(b"1);}}")?;
        refuses(&rt, rt.alloc(), &source, line)?;
    }
    Ok(())
}

#[test]
fn refuses_names_and_kinds_at_their_places(rt: HostRuntime) -> Result<(), Fail> {
    let cases: [(&[u8], &[u8]); 13] = [
        (b"system{interface{}{emit Q;}}", b"refused Unknown at 24\n"),
        (
            b"system{interface{}{halt;abort(A){x=1;}}}",
            b"refused Unknown at 30\n",
        ),
        (
            b"system{interface{output signal A;output signal A;}{}}",
            b"refused Twice at 47\n",
        ),
        (
            b"system{interface{output signal A;}{emit A;}><{emit A;}}",
            b"refused SignalShared at 51\n",
        ),
        (
            b"system{interface{input signal A;}{emit A;}}",
            b"refused EmitInput at 39\n",
        ),
        (
            b"system{interface{int channel C;}{send C(1);}><{}}",
            b"refused ChannelEnds at 29\n",
        ),
        (
            b"system{interface{int channel C;}{send C(1);receive C;}}",
            b"refused ChannelEnds at 51\n",
        ),
        (
            b"system{interface{int channel C;}{emit C;}><{receive C;}}",
            b"refused ChannelEnds at 29\n",
        ),
        (
            b"system{interface{}{}><{}><{}><{}><{}><{}><{}><{}><{}><{}><{}><{}><{}><{}><{}><{}><{}}",
            b"refused TooMany at 82\n",
        ),
        (
            b"system{interface{output signal A;}{emit B;}}}",
            b"refused Syntax at 44\n",
        ),
        (
            b"system{interface{output int signal A;}{emit A(true);}}",
            b"refused Mismatch at 46\n",
        ),
        (
            b"system{interface{output int signal A;}{emit A(1/0);}}",
            b"refused Divisor at 48\n",
        ),
        (
            b"system{interface{output int signal A;}{emit A(true);emit B;}}",
            b"refused Unknown at 57\n",
        ),
    ];
    for (source, line) in cases {
        refuses(&rt, rt.alloc(), source, line)?;
    }
    Ok(())
}

// In each source the name stands for something, but not there, or the channel has another domain there.
#[test]
fn refuses_names_out_of_their_place(rt: HostRuntime) -> Result<(), Fail> {
    let cases: [(&[u8], &[u8]); 10] = [
        (
            b"system{interface{}{{signal A;}emit A;}}",
            b"refused Unknown at 35\n",
        ),
        (
            b"system{interface{}{trap(T){emit T;}}}",
            b"refused Unknown at 32\n",
        ),
        (
            b"system{interface{}{trap(T){}exit(T);}}",
            b"refused Unknown at 33\n",
        ),
        (b"system{interface{}{int x=x;}}", b"refused Unknown at 25\n"),
        (
            b"system{interface{}{signal A;{int A=1;}}}",
            b"refused Twice at 33\n",
        ),
        (
            b"system{interface{}{emit A;}><{emit B;signal B;}}",
            b"refused Unknown at 24\n",
        ),
        (
            b"system{interface{input signal A;}{present(A){}}><{emit A;}}",
            b"refused SignalShared at 55\n",
        ),
        (
            b"system{interface{int channel C;}{send C(1);}><{receive C;}><{send C(2);}}",
            b"refused ChannelEnds at 66\n",
        ),
        (
            b"system{interface{int channel C;}{send C(1);}><{receive C;}><{if(#C==1){}}}",
            b"refused ChannelEnds at 65\n",
        ),
        (
            b"system{interface{int channel C;}{send C(1);}><{if(#C==1){}}}",
            b"refused ChannelEnds at 29\n",
        ),
    ];
    for (source, line) in cases {
        refuses(&rt, rt.alloc(), source, line)?;
    }
    Ok(())
}

// In each source all names are right.
#[test]
fn refuses_each_use_of_a_wrong_kind(rt: HostRuntime) -> Result<(), Fail> {
    let cases: [(&[u8], &[u8]); 13] = [
        (b"system{interface{}{if(1){}}}", b"refused Mismatch at 22\n"),
        (
            b"system{interface{output signal A;}{emit A(1);}}",
            b"refused Mismatch at 40\n",
        ),
        (
            b"system{interface{output int signal A;}{emit A;}}",
            b"refused Mismatch at 44\n",
        ),
        (
            b"system{interface{input signal A;}{int x=1+#A;}}",
            b"refused Mismatch at 43\n",
        ),
        (
            b"system{interface{output boolean signal A combine max;}{}}",
            b"refused Mismatch at 49\n",
        ),
        (
            b"system{interface{}{boolean b=true;b+=1;}}",
            b"refused Mismatch at 35\n",
        ),
        (
            b"system{interface{}{byte b=-129;}}",
            b"refused Mismatch at 26\n",
        ),
        (
            b"system{interface{}{int x=1L;}}",
            b"refused Mismatch at 25\n",
        ),
        (
            b"system{interface{int channel C;}{send C(true);}><{receive C;}}",
            b"refused Mismatch at 40\n",
        ),
        (
            b"system{interface{}{int x=(int)true;}}",
            b"refused Mismatch at 25\n",
        ),
        (
            b"system{interface{}{int x=1+(2<3)*4;}}",
            b"refused Mismatch at 32\n",
        ),
        (
            b"system{interface{}{int x=1;int y=2/x;}}",
            b"refused Divisor at 35\n",
        ),
        (
            b"system{interface{}{int x=1;x/=-(2);}}",
            b"refused Divisor at 30\n",
        ),
    ];
    for (source, line) in cases {
        refuses(&rt, rt.alloc(), source, line)?;
    }
    Ok(())
}

// Right names and kinds in forms that don't run yet are refused for the forms alone.
#[test]
fn refuses_no_right_name_or_kind(rt: HostRuntime) -> Result<(), Fail> {
    let cases: [&[u8]; 4] = [
        b"system{interface{}{byte b=(-(128));short s='a';long l=1;char c=65535;}}",
        b"system{interface{}{int y=2/(-2)+2%'a'/-2147483648;y%=(3L);}}",
        b"system{interface{}{{signal A;emit A;}{int A=1;A<<=2L;}trap(A){exit(A);}}}",
        b"system{interface{input int signal I;output boolean signal O combine ^;long channel C;}{int x=1;trap(T){abort(immediate I||!I){send C(x);exit(T);}}}><{receive C;every(O){sustain O(#C>0L&&!false);}}}",
    ];
    for source in cases {
        refuses(&rt, rt.alloc(), source, b"refused Later\n")?;
    }
    Ok(())
}

// A domain with so many variables.
fn variables_source(alloc: Global, count: u32) -> Result<String, Fail> {
    let mut source = String::from_str(alloc, "system{interface{}{")?;
    for number in 0..count {
        source.push_str(format!(in alloc; "int v{number}=1;")?.as_str())?;
    }
    source.push_str("}}")?;
    Ok(source)
}

#[test]
fn a_domain_has_at_most_1_024_variables(rt: HostRuntime) -> Result<(), Fail> {
    let cases: [(u32, &[u8]); 2] = [
        (1024, b"refused Later\n"),
        (1025, b"refused TooMany at 11201\n"),
    ];
    for (count, line) in cases {
        let source = variables_source(rt.alloc(), count)?;
        refuses(&rt, rt.alloc(), source.as_bytes(), line)?;
    }
    Ok(())
}

#[test]
fn refuses_other_sources_as_not_built_yet(rt: HostRuntime) -> Result<(), Fail> {
    let cases: [&[u8]; 4] = [
        b"system{interface{output signal A;}{while(true){emit A;}}}",
        b"system{interface{}{signal A;}}",
        b"system{interface{input signal A;}{}}",
        b"system{interface{output signal A;}{halt;emit A;}}",
    ];
    for source in cases {
        refuses(&rt, rt.alloc(), source, b"refused Later\n")?;
    }
    Ok(())
}

#[test]
fn comments_stand_between_tokens(rt: HostRuntime) -> Result<(), Fail> {
    let cases: [&[u8]; 3] = [
        b"// a\nsystem{interface{}{}}",
        b"system/* { */{interface{}{/**/}}//",
        b"system{interface{}{;/* ; // */;}} // none",
    ];
    for source in cases {
        prints(
            &rt,
            rt.alloc(),
            source,
            "0",
            b"domain 0 ticks 1 ended\n1 @1\n",
        )?;
    }
    Ok(())
}

#[test]
fn a_source_has_at_most_1_048_576_bytes(rt: HostRuntime) -> Result<(), Fail> {
    let cases: [(usize, &[u8]); 3] = [
        (600_000, b"refused Syntax at 600000\n"),
        (1_048_576, b"refused Syntax at 1048576\n"),
        (1_048_577, b"refused Size\n"),
    ];
    for (bytes, line) in cases {
        let spaces = vec![in rt.alloc(); b' '; bytes]?;
        let (status, written) = serve(rt.alloc(), &["order", "F", "0", "-"], &spaces, 100)?;
        assert_eq!(rt; status, 1);
        assert_eq!(rt; written.as_slice(), line);
    }
    Ok(())
}

// So many turns of domain 0.
fn zeros(alloc: Global, turns: u32) -> Result<String, Fail> {
    let mut word = String::from_str(alloc, "0")?;
    for _turn in 1..turns {
        word.push_str(",0")?;
    }
    Ok(word)
}

#[test]
fn other_words_are_no_command(rt: HostRuntime) -> Result<(), Fail> {
    let cases: [&[&str]; 9] = [
        &[],
        &["order", "F", "0"],
        &["order", "F", "0", "I"],
        &["order", "F", "0,", "-"],
        &["order", "F", "16", "-"],
        &["order", "F", "", "-"],
        &["order", "F", "0", "-", "-"],
        &["check", "F"],
        &["--help"],
    ];
    for command in cases {
        let (status, written) = serve(rt.alloc(), command, BLINK, 100)?;
        assert_eq!(rt; status, 2);
        assert_eq!(rt; written.as_slice(), USAGE);
    }
    Ok(())
}

#[test]
fn a_domain_has_at_most_100_000_turns(rt: HostRuntime) -> Result<(), Fail> {
    let most = zeros(rt.alloc(), 100_000)?;
    let (status, _) = serve(rt.alloc(), &["order", "F", most.as_str(), "-"], BLINK, 100)?;
    assert_eq!(rt; status, 0);
    let more = zeros(rt.alloc(), 100_001)?;
    let (status, written) = serve(rt.alloc(), &["order", "F", more.as_str(), "-"], BLINK, 100)?;
    assert_eq!(rt; status, 2);
    assert_eq!(rt; written.as_slice(), USAGE);
    Ok(())
}

#[test]
fn a_read_fault_is_told(rt: HostRuntime) -> Result<(), Fail> {
    let alloc = rt.alloc();
    let mut files = files(alloc, BLINK, vec![in alloc; 1u64]?)?;
    let mut sink = MemSink::new(100, Vec::new(alloc), vec![in alloc; 0u8; 100]?);
    let order = words(alloc, &["order", "F", "0", "-"])?;
    assert_eq!(rt; serve_plain(alloc, &order, &mut files, &mut sink), 3);
    assert_eq!(rt; sink.bytes(), b"read fault\n".as_slice());
    Ok(())
}

#[test]
fn a_write_fault_leaves_a_prefix(rt: HostRuntime) -> Result<(), Fail> {
    let alloc = rt.alloc();
    let mut files = files(alloc, BLINK, Vec::new(alloc))?;
    let mut sink = MemSink::new(1, vec![in alloc; 2u64]?, vec![in alloc; 0u8; 100]?);
    let order = words(alloc, &["order", "F", "0,0,0", "-"])?;
    assert_eq!(rt; serve_plain(alloc, &order, &mut files, &mut sink), 4);
    assert_eq!(rt; sink.bytes(), b"d".as_slice());
    Ok(())
}
