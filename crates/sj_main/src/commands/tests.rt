use crate::commands::{Turns, read_order};
use std::alloc::Global;
use std::test::Fail;

fn words(alloc: Global, texts: &[&str]) -> Result<Vec<String>, Fail> {
    let mut words = Vec::new(alloc);
    for text in texts {
        words.push(String::from_str(alloc, *text)?)?;
    }
    Ok(words)
}

fn is_order(alloc: Global, turns: &str) -> Result<bool, Fail> {
    let words = words(alloc, &["order", "F", turns, "-"])?;
    Ok(read_order(alloc, &words)?.is_some())
}

#[test]
fn reads_turns(rt: HostRuntime) -> Result<(), Fail> {
    let words = words(rt.alloc(), &["order", "F", "0,15,9,10", "-"])?;
    let order = read_order(rt.alloc(), &words)?.ok_or("no order")?;
    match &order.turns {
        Turns::Each(turns) => assert_eq!(rt; turns.as_slice(), [0, 15, 9, 10].as_slice()),
        Turns::Rounds(_) => assert!(rt; false),
    }
    Ok(())
}

#[test]
fn reads_rounds(rt: HostRuntime) -> Result<(), Fail> {
    let words = words(rt.alloc(), &["order", "F", "rr:97561", "-"])?;
    let order = read_order(rt.alloc(), &words)?.ok_or("no order")?;
    match &order.turns {
        Turns::Rounds(rounds) => assert_eq!(rt; *rounds, 97561),
        Turns::Each(_) => assert!(rt; false),
    }
    Ok(())
}

#[test]
fn refuses_other_turns(rt: HostRuntime) -> Result<(), Fail> {
    for turns in ["-", "1", "rr:0", "rr:100000", "15"] {
        assert!(rt; is_order(rt.alloc(), turns)?);
    }
    for turns in [
        "",
        ",",
        "0,",
        ",0",
        "16",
        "00",
        "01",
        "0,-",
        "rr:",
        "rr:00",
        "rr:100001",
        "+1",
        "0 1",
    ] {
        assert!(rt; !is_order(rt.alloc(), turns)?);
    }
    Ok(())
}
