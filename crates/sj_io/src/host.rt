// The real files and standard output. What they hold is not told.

ghost use Rattle.std.specs.Prelude.{◌≡◌, List, ℕ, ◌+◌, ◌-◌, ◌^◌, ◌≤◌, ◌<◌, length, vec_len, min, IfOk, IfSome, Some, None, position, string_bytes};
ghost use Rattle.std.specs.Str.{bytes_eq};
ghost use Rattle.sj_io.specs.Raised.{IsRaised, Raises};
ghost use Rattle.sj_io.specs.definitions.Host.{host_names, host_counts, host_count, host_known, host_faults, print_faults};
ghost use Rattle.sj_io.specs.WriteAnswers.{IsCount};

use crate::files::{Failed, Files};
use crate::sink::Sink;
use std::fs::File;
use std::io;
use std::io::{Read, Seek, SeekFrom};

/// A name that the host's files know, with its count of failed calls so far, up to 2^64 - 1.
#[derive(Debug, Drop)]
pub struct HostName {
    pub name: String,
    pub faults: u64,
}

/// The files of the host. Of two equal names the first entry counts, and all names that aren't
/// listed share one count. A failed call is one whose file could not be opened, or read from there.
#[derive(Drop)]
pub struct HostFiles<'a, R: std::rt::Files> {
    rt: &'a R,
    names: Vec<HostName>,
    others: u64,
}

/// Standard output. A failed call is one that answers an error, or takes none of its bytes.
#[derive(Drop)]
pub struct HostSink<'a, R: Print> {
    rt: &'a R,
    faults: u64,
}

// How many bytes were read.
fn read_host<R: std::rt::Files>(rt: &R, name: &str, at: u64, buf: &mut [u8]) -> io::Result<usize>
    ensures { IfOk result (λ n. n ≤ length buf.new) }
{
    let mut file = File::open(rt, name)?;
    file.seek(SeekFrom::Start(at))?;
    file.read(buf)
}

// The first entry of the name.
fn entry_at(names: &[HostName], name: &str) -> Option<usize>
    ensures { result ≡ position (λ n. bytes_eq (string_bytes n.name) name.now) names.now }
{
    names.iter().position(|entry| entry.name.as_str() == name)
}

// Raises the count of the entry at that place.
fn raise(names: &mut Vec<HostName>, place: usize)
    requires { place < vec_len names.old }
    ensures { IsRaised (host_names names.old.items) (host_names names.new.items)
        (host_counts names.old.items) (host_counts names.new.items) place }
{
    let entry = &mut names[place];
    entry.faults = entry.faults.saturating_add(1);
}

impl<'a, R: std::rt::Files> HostFiles<'a, R> {
    /// The files of the host, of which these names have counts of their own. No call of another name
    /// has failed yet.
    pub fn new(rt: &'a R, names: Vec<HostName>) -> HostFiles<'a, R>
        ensures known { host_known result ≡ host_names names.items }
        ensures faults { (name : List ℕ) → host_faults result name ≡ host_count names.items 0 name }
    {
        HostFiles {
            rt,
            names,
            others: 0,
        }
    }

    // Raises the count of the name.
    fn failure(&mut self, name: &str) -> Failed
        ensures known { host_known self.new ≡ host_known self.old }
        ensures raises { Raises (host_known self.old) (host_faults self.old) (host_faults self.new)
            name.now }
    {
        match entry_at(&self.names, name) {
            Some(place) => raise(&mut self.names, place),
            None => self.others = self.others.saturating_add(1),
        }
        Failed
    }
}

impl<'a, R: std::rt::Files> Files for HostFiles<'a, R> {
    ghost use Rattle.std.specs.Prelude.{None};

    ghost known = { host_known };

    ghost told = { λ h name. None };

    ghost faults = { host_faults };

    fn read(&mut self, name: &str, at: u64, buf: &mut [u8]) -> Result<usize, Failed> {
        match read_host(self.rt, name, at, buf) {
            Ok(n) => Ok(n),
            Err(_) => Err(self.failure(name)),
        }
    }
}

// How many of so many bytes a call took that answered this, where that is an answer of a sink.
fn accepted(answered: Option<usize>, len: usize) -> Option<usize>
    ensures count { IfSome result (λ n. (answered ≡ Some n) × IsCount n len) }
    ensures none { result ≡ None → IfSome answered (λ n. IsCount n len → ⊥) }
{
    match answered {
        Some(n) if n <= len && (n > 0 || len == 0) => Some(n),
        _ => None,
    }
}

impl<'a, R: Print> HostSink<'a, R> {
    /// Standard output, with no fault counted.
    pub fn new(rt: &'a R) -> HostSink<'a, R>
        ensures { print_faults result ≡ 0 }
    {
        HostSink { rt, faults: 0 }
    }

    fn failure(&mut self) -> Failed
        ensures count { print_faults self.new ≡ min (print_faults self.old + 1) (2 ^ 64 - 1) }
        ensures later { print_faults self.old ≤ print_faults self.new }
    {
        self.faults = self.faults.saturating_add(1);
        Failed
    }
}

impl<'a, R: Print> Sink for HostSink<'a, R> {
    ghost use Rattle.std.specs.Prelude.{None};

    ghost taken = { λ s. None };

    ghost faults = { print_faults };

    fn write(&mut self, buf: &[u8]) -> Result<usize, Failed> {
        match accepted(self.rt.write_some(buf).ok(), buf.len()) {
            Some(n) => Ok(n),
            None => Err(self.failure()),
        }
    }
}
