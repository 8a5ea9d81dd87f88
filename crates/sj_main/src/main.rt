//! The command: compiles a program to equations over wires, and runs it.
#![tactic(auto)]

mod commands;
mod laws;
mod numbers;
mod order;
mod rows;
mod serve;
#[cfg(test)]
mod tests;
mod turns;

use serve::serve_plain;
use sj_io::{HostFiles, HostName, HostSink};
use std::alloc::{AllocError, Global};
use std::process::ExitCode;
use std::{env, io};

// The words after the program's name.
fn command_words(rt: &HostRuntime) -> io::Result<Vec<String>> {
    let mut words = Vec::new(rt.alloc());
    for word in env::args(rt)?.skip(1) {
        words.push(word)?;
    }
    Ok(words)
}

fn host_names(alloc: Global, words: &[String]) -> Result<Vec<HostName>, AllocError> {
    let mut names = Vec::new(alloc);
    for word in words {
        names.push(HostName {
            name: word.clone()?,
            faults: 0,
        })?;
    }
    Ok(names)
}

fn main(rt: HostRuntime) -> ExitCode {
    let Ok(words) = command_words(&rt) else {
        return ExitCode::from(5);
    };
    let mut out = HostSink::new(&rt);
    let Ok(names) = host_names(rt.alloc(), &words) else {
        return ExitCode::from(5);
    };
    let mut files = HostFiles::new(&rt, names);
    ExitCode::from(serve_plain(rt.alloc(), &words, &mut files, &mut out))
}
