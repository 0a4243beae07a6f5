//! The program: checks, normalises, compares, analyses and lists inputs in the LLVM bitstream container, from the command line.
//! Begin with `run`.
//!
//! `parse` makes a task of the arguments, `perform` carries it out and returns how it ended, and `run` does both and writes the
//! line to the errors, with a tip (`tip_of`) by what `look_at` saw first. All work with any source and sinks; `main` alone opens
//! standard input, output and errors. `Runs` and `Does` in `specs/` define what a run takes from the input and leaves on the
//! output. That good arguments give a task is proved over `clap`'s own definitions (`proofs/Walked`, `proofs/Given`).
#![tactic(auto)]

mod beginning;
mod devices;
mod differences;
#[cfg(test)]
mod failing_tests;
mod json_differences;
mod keeper;
mod names;
mod noted;
mod outcome;
mod parse;
mod perform;
mod run;
mod task;
#[cfg(test)]
mod tests;
mod tips;

use crate::devices::{Output, put_all};
use crate::keeper::ErrorKeeper;
use crate::noted::{BINARY, Noted, READING};
use crate::outcome::Outcome;
use crate::run::{Ran, run_with_hasher};
use bit_fields::{BufSource, WriteSink};
use std::alloc::Global;
use std::hash::RandomState;
use std::io::{BufReader, BufWriter};
use std::process::ExitCode;
use std::{env, io};

/// The number of bytes that are read or written at once.
const CHUNK: usize = 65536;

/// The arguments of the command line, without the program's name.
fn words_of(alloc: Global, rt: &HostRuntime) -> io::Result<Vec<String>> {
    let mut words = Vec::new(alloc);
    for word in env::args(rt)?.skip(1) {
        words.push(word)?;
    }
    Ok(words)
}

/// Writes to the errors what the system says of a failure. A failure there changes nothing.
fn tell_system(rt: &HostRuntime, error: Option<io::Error>) {
    if let Some(error) = error {
        let _ = eprintln!(rt; "  system: {error}");
    }
}

/// Runs the program on standard input, output and errors. All but the last have a buffer.
fn run_here(
    alloc: Global,
    rt: &HostRuntime,
    hasher: RandomState,
    words: Vec<String>,
) -> io::Result<u8> {
    let input = ErrorKeeper::new(Noted::new(rt.stdin(), rt.stderr(), READING));
    let output = ErrorKeeper::new(Noted::new(rt.stdout(), rt.stderr(), BINARY));
    let reader = BufReader::with_capacity(alloc, CHUNK, input)?;
    let writer = BufWriter::with_capacity(alloc, CHUNK, output)?;
    let mut errors = WriteSink::new(rt.stderr());
    let (source, sink) = (BufSource::new(reader), Output::new(writer));
    let Ran {
        status,
        source,
        sink,
    } = run_with_hasher(alloc, hasher, words, source, sink, &mut errors);
    let (reader, writer) = (source.into_inner(), sink.into_inner());
    if status == Outcome::Read.status() {
        tell_system(rt, writer.get_ref().error().or(reader.get_ref().error()));
    }
    Ok(status)
}

/// Reports that the run could not begin.
fn refuse(rt: &HostRuntime, error: io::Error) -> u8 {
    let mut errors = WriteSink::new(rt.stderr());
    let outcome = match error.kind() {
        io::ErrorKind::OutOfMemory => Outcome::Memory,
        _ => {
            let _ = put_all(&mut errors, b"error: an argument is not text\n");
            Outcome::Usage
        }
    };
    let _ = outcome.report(&mut errors);
    outcome.status()
}

/// Reports that the system gives no keys for a hasher.
fn refuse_without_keys(rt: &HostRuntime) -> u8 {
    let _ = put_all(
        &mut WriteSink::new(rt.stderr()),
        b"fault: no random bytes\n",
    );
    Outcome::Read.status()
}

fn main(rt: HostRuntime) -> ExitCode {
    let alloc = rt.alloc();
    let status = match RandomState::new(&rt) {
        Ok(hasher) => words_of(alloc, &rt)
            .and_then(|words| run_here(alloc, &rt, hasher, words))
            .unwrap_or_else(|error| refuse(&rt, error)),
        Err(_) => refuse_without_keys(&rt),
    };
    ExitCode::from(status)
}
