use crate::{
    Failed, Files, Gathered, HostFiles, HostName, HostSink, MemFile, MemFiles, MemSink, ReadError,
    Sink, WriteError, read_all, write_all,
};
use std::alloc::{AllocError, Global};
use std::fs;
use std::test::Fail;

// The file `a` in memory, read a byte at a time.
fn file_of(alloc: Global, text: &[u8], fail: &[u64]) -> Result<MemFiles, AllocError> {
    let mut files = Vec::new(alloc);
    files.push(MemFile {
        name: String::from_str(alloc, "a")?,
        bytes: text.to_vec(alloc)?,
        faults: 0,
    })?;
    Ok(MemFiles::new(files, 1, fail.to_vec(alloc)?))
}

#[test]
fn reads_the_whole_file_byte_by_byte(rt: HostRuntime) -> Result<(), Fail> {
    let mut files = file_of(rt.alloc(), b"hello", &[])?;
    let bytes = read_all(rt.alloc(), &mut files, "a", 5)?;
    assert_eq!(rt; bytes.as_slice(), b"hello".as_slice());
    Ok(())
}

#[test]
fn stops_at_the_first_byte_beyond_the_limit(rt: HostRuntime) -> Result<(), Fail> {
    let mut files = file_of(rt.alloc(), b"hello!", &[6])?;
    let answer = read_all(rt.alloc(), &mut files, "a", 4);
    assert_eq!(rt; answer.err(), Some(ReadError::TooBig));
    Ok(())
}

// A file without end, which keeps the end of the furthest read that was asked for.
#[derive(Drop)]
struct Endless {
    asked: usize,
}

impl Files for Endless {
    ghost use Rattle.std.specs.Prelude.{None, []};

    ghost known = { λ e. [] };

    ghost told = { λ e name. None };

    ghost faults = { λ e name. 0 };

    fn read(&mut self, _name: &str, at: u64, buf: &mut [u8]) -> Result<usize, Failed> {
        self.asked = self.asked.max((at as usize).saturating_add(buf.len()));
        Ok(buf.len())
    }
}

#[test]
fn asks_for_no_more_than_one_byte_beyond_the_limit(rt: HostRuntime) -> Result<(), Fail> {
    let mut files = Endless { asked: 0 };
    let answer = read_all(rt.alloc(), &mut files, "a", 100);
    assert_eq!(rt; answer.err(), Some(ReadError::TooBig));
    assert_eq!(rt; files.asked, 101);
    let mut files = Endless { asked: 0 };
    let answer = read_all(rt.alloc(), &mut files, "a", 10_000);
    assert_eq!(rt; answer.err(), Some(ReadError::TooBig));
    assert_eq!(rt; files.asked, 10_001);
    Ok(())
}

#[test]
fn reads_again_after_a_fault_in_mid_stream(rt: HostRuntime) -> Result<(), Fail> {
    let mut files = file_of(rt.alloc(), b"hello", &[3])?;
    let answer = read_all(rt.alloc(), &mut files, "a", 5);
    assert_eq!(rt; answer.err(), Some(ReadError::Fault));
    let bytes = read_all(rt.alloc(), &mut files, "a", 5)?;
    assert_eq!(rt; bytes.as_slice(), b"hello".as_slice());
    Ok(())
}

#[test]
fn an_unlisted_name_is_a_fault(rt: HostRuntime) -> Result<(), Fail> {
    let mut files = file_of(rt.alloc(), b"hello", &[])?;
    let answer = read_all(rt.alloc(), &mut files, "b", 5);
    assert_eq!(rt; answer.err(), Some(ReadError::Fault));
    Ok(())
}

#[test]
fn a_failed_write_leaves_a_prefix(rt: HostRuntime) -> Result<(), Fail> {
    let space = [0u8; 8].to_vec(rt.alloc())?;
    let mut sink = MemSink::new(1, [2u64].to_vec(rt.alloc())?, space);
    assert_eq!(rt; write_all(&mut sink, b"hello"), Err(WriteError::Fault));
    assert_eq!(rt; sink.bytes(), b"h".as_slice());
    Ok(())
}

#[test]
fn reads_a_real_file_in_several_reads(rt: HostRuntime) -> Result<(), Fail> {
    let mut text = Vec::new(rt.alloc());
    for i in 0..10_000u32 {
        text.push((i % 251) as u8)?;
    }
    fs::write(&rt, "whole.bin", text.as_slice())?;
    let mut names = Vec::new(rt.alloc());
    names.push(HostName {
        name: String::from_str(rt.alloc(), "whole.bin")?,
        faults: 0,
    })?;
    let mut files = HostFiles::new(&rt, names);
    let bytes = read_all(rt.alloc(), &mut files, "whole.bin", 10_000)?;
    fs::remove_file(&rt, "whole.bin")?;
    assert_eq!(rt; bytes.as_slice(), text.as_slice());
    Ok(())
}

#[test]
fn a_missing_real_file_is_a_fault(rt: HostRuntime) -> Result<(), Fail> {
    let mut files = HostFiles::new(&rt, Vec::new(rt.alloc()));
    let answer = read_all(rt.alloc(), &mut files, "missing.bin", 10);
    assert_eq!(rt; answer.err(), Some(ReadError::Fault));
    Ok(())
}

#[test]
fn writes_to_standard_output(rt: HostRuntime) {
    let mut out = HostSink::new(&rt);
    assert_eq!(rt; write_all(&mut out, b"a short text\n"), Ok(()));
}

// A sink that takes all, and counts its calls.
#[derive(Drop)]
struct Counting {
    calls: u64,
    bytes: u64,
}

impl Sink for Counting {
    ghost use Rattle.std.specs.Prelude.{None};

    ghost taken = { λ s. None };

    ghost faults = { λ s. 0 };

    fn write(&mut self, buf: &[u8]) -> Result<usize, Failed> {
        self.calls = self.calls.saturating_add(1);
        self.bytes = self.bytes.saturating_add(buf.len() as u64);
        Ok(buf.len())
    }
}

#[test]
fn gathered_bytes_make_few_calls(rt: HostRuntime) -> Result<(), Fail> {
    let mut sink = Counting { calls: 0, bytes: 0 };
    let mut gathered = Gathered::new();
    for _ in 0..10_000u32 {
        gathered.put(&mut sink, b"seven, ")?;
    }
    gathered.flush(&mut sink)?;
    assert_eq!(rt; sink.bytes, 70_000);
    assert!(rt; sink.calls <= 70_000 / 4096 + 1);
    Ok(())
}

#[test]
fn gathered_bytes_wait_until_the_sink_takes_them(rt: HostRuntime) -> Result<(), Fail> {
    for fail in [1u64, 2].as_slice() {
        let space = [0u8; 8].to_vec(rt.alloc())?;
        let mut sink = MemSink::new(1, [*fail].to_vec(rt.alloc())?, space);
        let mut gathered = Gathered::new();
        assert_eq!(rt; gathered.put(&mut sink, b"he"), Ok(()));
        assert_eq!(rt; gathered.put(&mut sink, b"llo"), Ok(()));
        assert_eq!(rt; sink.bytes(), b"".as_slice());
        assert_eq!(rt; gathered.flush(&mut sink), Err(WriteError::Fault));
        assert_eq!(rt; sink.bytes().len() as u64, *fail - 1);
        assert_eq!(rt; gathered.flush(&mut sink), Ok(()));
        assert_eq!(rt; sink.bytes(), b"hello".as_slice());
    }
    Ok(())
}

// The third call fails, after two of 700 bytes. What had been put is the first 4,096 bytes.
#[test]
fn a_failed_call_in_mid_stream_loses_no_byte(rt: HostRuntime) -> Result<(), Fail> {
    let mut text = Vec::new(rt.alloc());
    for i in 0..10_000u32 {
        text.push((i % 251) as u8)?;
    }
    let space = [0u8; 10_000].to_vec(rt.alloc())?;
    let mut sink = MemSink::new(700, [3u64].to_vec(rt.alloc())?, space);
    let mut gathered = Gathered::new();
    assert_eq!(rt;
        gathered.put(&mut sink, text.as_slice()),
        Err(WriteError::Fault)
    );
    assert_eq!(rt; sink.bytes().len(), 1400);
    assert!(rt; text.as_slice().starts_with(sink.bytes()));
    assert_eq!(rt; gathered.flush(&mut sink), Ok(()));
    assert_eq!(rt; sink.bytes().len(), 4096);
    assert!(rt; text.as_slice().starts_with(sink.bytes()));
    Ok(())
}
