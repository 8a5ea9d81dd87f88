// Files and a sink in memory, which fail where they are told to.

ghost use Rattle.std.specs.Prelude.{◌≡◌, List, ℕ, ◌++◌, ◌+◌, ◌-◌, ◌^◌, ◌≤◌, ◌<◌, [], length, take, vec_len, min, Some, position, string_bytes};
ghost use Rattle.std.specs.Str.{bytes_eq};
ghost use Rattle.sj_io.specs.definitions.Files.{ReadsAt};

use crate::files::{Failed, Files};
use crate::sink::Sink;

/// A file in memory, with its count of failed calls so far, up to 2^64 - 1.
#[derive(Debug, Drop)]
pub struct MemFile {
    pub name: String,
    pub bytes: Vec<u8>,
    pub faults: u64,
}

/// Files in memory, of which the first of each name counts. A read gives at most `piece` bytes. The
/// calls whose numbers, from 1, stand in `fail` fail, and so does each call of a name that isn't
/// listed.
#[derive(Drop)]
pub struct MemFiles {
    files: Vec<MemFile>,
    piece: usize,
    fail: Vec<u64>,
    calls: u64,
    others: u64,
    ghost moves: { 1 ≤ piece },
}

/// A sink over the bytes of `space`. A write takes at most `piece` bytes. The calls whose numbers,
/// from 1, stand in `fail` fail, and so does each call with bytes once all of `space` is used.
#[derive(Drop)]
pub struct MemSink {
    piece: usize,
    fail: Vec<u64>,
    space: Vec<u8>,
    used: usize,
    calls: u64,
    faults: u64,
    ghost within: { used ≤ vec_len space },
    ghost moves: { 1 ≤ piece },
}

// Copies the bytes from place `at` on, at most `piece` of them, and answers how many.
#[tactic(auto, using(crate::proofs::Pieces::copies))]
fn copy_from(bytes: &[u8], at: u64, piece: usize, buf: &mut [u8]) -> usize
    requires { 1 ≤ piece }
    ensures count { result ≡ min (min (length buf.new) piece) (length bytes.now - at) }
    ensures bytes { ReadsAt bytes.now at result buf.new }
{
    let start = bytes.len().min(at as usize);
    let n = buf.len().min(piece).min(bytes.len() - start);
    buf[..n].copy_from_slice(&bytes[start..start + n]);
    n
}

// The first file of the name.
fn file_at(files: &[MemFile], name: &str) -> Option<usize>
    ensures { result ≡ position (λ f. bytes_eq (string_bytes f.name) name.now) files.now }
{
    files.iter().position(|file| file.name.as_str() == name)
}

impl MemFiles {
    ghost use Rattle.sj_io.specs.definitions.Memory.{file_names, file_counts, file_count, bytes_of, mem_known, mem_told, mem_faults, IsSetUp};
    ghost use Rattle.sj_io.specs.Raised.{IsRaised, Raises};

    /// Files whose reads give at most `piece` bytes, at least 1, and of whose calls those numbered in
    /// `fail`, from 1, fail. The files bring their own counts of faults.
    pub fn new(files: Vec<MemFile>, piece: usize, fail: Vec<u64>) -> MemFiles
        requires { 1 ≤ piece }
        ensures known { mem_known result ≡ file_names files.items }
        ensures told { (name : List ℕ) → mem_told result name ≡ bytes_of files.items name }
        ensures faults { (name : List ℕ) → mem_faults result name ≡ file_count files.items 0 name }
        ensures rest { IsSetUp result piece fail.items 0 }
    {
        MemFiles {
            files,
            piece,
            fail,
            calls: 0,
            others: 0,
        }
    }

    // Raises the count of the file at that place.
    fn raise(files: &mut Vec<MemFile>, place: usize)
        requires { place < vec_len files.old }
        ensures counts { IsRaised (file_names files.old.items) (file_names files.new.items)
            (file_counts files.old.items) (file_counts files.new.items) place }
        ensures bytes { (name : List ℕ) →
            bytes_of files.new.items name ≡ bytes_of files.old.items name }
    {
        let file = &mut files[place];
        file.faults = file.faults.saturating_add(1);
    }

    // Raises the count of the name.
    fn failure(&mut self, name: &str) -> Failed
        ensures known { mem_known self.new ≡ mem_known self.old }
        ensures told { (other : List ℕ) → mem_told self.new other ≡ mem_told self.old other }
        ensures raises { Raises (mem_known self.old) (mem_faults self.old) (mem_faults self.new)
            name.now }
        ensures rest { IsSetUp self.new self.old.piece self.old.fail.items self.old.calls }
    {
        match file_at(&self.files, name) {
            Some(place) => MemFiles::raise(&mut self.files, place),
            None => self.others = self.others.saturating_add(1),
        }
        Failed
    }
}

impl Files for MemFiles {
    ghost use Rattle.std.specs.Prelude.{◌≡◌, List, ℕ, ◌-◌, ◌≤◌, length, min, IfOk, IfSome, OnOk, OnErr, is_err};
    ghost use Rattle.sj_io.specs.definitions.Causes.{Rose};
    ghost use Rattle.sj_io.specs.definitions.Files.{ReadsAt, CountsApart, CountsStay};
    ghost use Rattle.sj_io.specs.definitions.Memory.{mem_known, mem_told, mem_faults, mem_piece, mem_fails, CallsOn};

    ghost known = { mem_known };

    ghost told = { mem_told };

    ghost faults = { mem_faults };

    fn read(&mut self, name: &str, at: u64, buf: &mut [u8]) -> Result<usize, Failed>
        ensures known { mem_known self.new ≡ mem_known self.old }
        ensures told { (other : List ℕ) → mem_told self.new other ≡ mem_told self.old other }
        ensures bound { IfOk result (λ n. n ≤ length buf.new) }
        ensures bytes { IfOk result (λ n. IfSome (mem_told self.old name.now)
            (λ all. ReadsAt all at n buf.new)) }
        ensures later { (other : List ℕ) → mem_faults self.old other ≤ mem_faults self.new other }
        ensures apart { (other : List ℕ) → CountsApart (mem_known self.old) name.now other →
            mem_faults self.new other ≡ mem_faults self.old other }
        ensures cause { OnErr result (Rose (mem_faults self.old name.now)
            (mem_faults self.new name.now)) }
        ensures counts_stay { OnOk result (CountsStay (mem_faults self.old) (mem_faults self.new)) }

        // It fails exactly where it is told to, and else gives as much as it may.
        ensures exact { is_err result ≡ mem_fails self.old name.now }
        ensures count { IfOk result (λ n. IfSome (mem_told self.old name.now) (λ all. n ≡
            min (min (length buf.new) (mem_piece self.old)) (length all - at))) }
        ensures calls { CallsOn self.old self.new }
    {
        self.calls = self.calls.saturating_add(1);
        let Some(place) = file_at(&self.files, name) else {
            return Err(self.failure(name));
        };
        if self.fail.as_slice().contains(&self.calls) {
            return Err(self.failure(name));
        }
        let file = &self.files[place];
        Ok(copy_from(&file.bytes, at, self.piece, buf))
    }
}

impl MemSink {
    ghost use Rattle.sj_io.specs.definitions.Memory.{sink_bytes, sink_faults, IsSinkSetUp};

    /// A sink that has taken nothing. One write takes at most `piece` bytes, at least 1, and all of
    /// them as many as `space` has. The calls numbered in `fail`, from 1, fail.
    pub fn new(piece: usize, fail: Vec<u64>, space: Vec<u8>) -> MemSink
        requires { 1 ≤ piece }
        ensures bytes { sink_bytes result ≡ [] }
        ensures faults { sink_faults result ≡ 0 }
        ensures rest { IsSinkSetUp result piece fail.items 0 (vec_len space) }
    {
        MemSink {
            piece,
            fail,
            space,
            used: 0,
            calls: 0,
            faults: 0,
        }
    }

    /// The bytes taken so far.
    pub fn bytes(&self) -> &[u8]
        ensures { result.now ≡ sink_bytes self.now }
    {
        &self.space[..self.used]
    }

    fn failure(&mut self) -> Failed
        ensures { self.new ≡ record self.old { faults = min (self.old.faults + 1) (2 ^ 64 - 1) } }
    {
        self.faults = self.faults.saturating_add(1);
        Failed
    }
}

impl Sink for MemSink {
    ghost use Rattle.std.specs.Prelude.{◌≡◌, ◌≤◌, Some, length, min, IfOk, OnErr, is_err};
    ghost use Rattle.sj_io.specs.definitions.Causes.{Rose};
    ghost use Rattle.sj_io.specs.definitions.Sinks.{Takes};
    ghost use Rattle.sj_io.specs.definitions.Memory.{sink_bytes, sink_faults, sink_piece, sink_room, sink_fails, SinkCallsOn};

    ghost taken = { λ s. Some (sink_bytes s) };

    ghost faults = { sink_faults };

    fn write(&mut self, buf: &[u8]) -> Result<usize, Failed>
        ensures bound { IfOk result (λ n. n ≤ length buf.now) }
        ensures moves { IfOk result (λ n. 1 ≤ length buf.now → 1 ≤ n) }
        ensures takes { Takes (Some (sink_bytes self.old)) (Some (sink_bytes self.new)) result
            buf.now }
        ensures later { sink_faults self.old ≤ sink_faults self.new }
        ensures cause { OnErr result (Rose (sink_faults self.old) (sink_faults self.new)) }

        // It fails exactly where it is told to, and else takes as much as it may.
        ensures exact { is_err result ≡ sink_fails self.old (length buf.now) }
        ensures count { IfOk result (λ n. n ≡
            min (min (length buf.now) (sink_piece self.old)) (sink_room self.old)) }
        ensures calls { SinkCallsOn self.old self.new }
    {
        self.calls = self.calls.saturating_add(1);
        if self.fail.as_slice().contains(&self.calls) {
            return Err(self.failure());
        }
        let room = self.space.len() - self.used;
        if room == 0 && !buf.is_empty() {
            return Err(self.failure());
        }
        let n = buf.len().min(self.piece).min(room);
        let end = self.used + n;
        self.space[self.used..end].copy_from_slice(&buf[..n]);
        self.used = end;
        Ok(n)
    }
}
