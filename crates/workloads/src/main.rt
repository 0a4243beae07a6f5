//! The jobs that users of the libraries wait for, to be timed: bench/run runs them in two builds by turns.
//!
//! `workloads JOB SEED ROUNDS [FILE..]` does a job in so many rounds, each on an input of its own, and writes a digest of all
//! results. Inputs are made of the blocks of the files, which are samples of what compilers write, in an order and with values that
//! the seed gives; without files, of blocks that no compiler writes (`awkward`). With ROUNDS/PART their sizes are divided by PART.
#![tactic(auto)]

mod awkward;
mod digest;
mod jobs;
mod maker;
mod pieces;
mod random;
mod results;
#[cfg(test)]
mod results_tests;
mod tails;
mod unit;

use crate::jobs::{Other, Worker};
use crate::maker::Maker;
use crate::pieces::Flow;
use crate::unit::Unit;
use anyhow::{Context, Result, bail};
use bit_fields::Fault;
use bit_scan::Format;
use std::process::ExitCode;
use std::{env, fs};

/// How many rounds differ in what is done, or in the size of the input.
const KINDS: u64 = 8;

/// The least bytes of the inputs of rounds one after the other, for jobs on files that are written once and kept, on those of a
/// build, and on those whose text is read.
const ARTEFACTS: [usize; 8] = [
    200_000, 4_000_000, 1_000_000, 500_000, 24_000_000, 2_000_000, 300_000, 8_000_000,
];

const OBJECTS: [usize; 8] = [
    20_000, 400_000, 1_000_000, 60_000, 2_000_000, 150_000, 300_000, 12_000_000,
];

const TEXTS: [usize; 8] = [
    100_000, 800_000, 20_000, 400_000, 2_000_000, 200_000, 1_000_000, 50_000,
];

/// What inputs are compared with, by turns.
const OTHERS: [Other; 4] = [Other::Itself, Other::Longer, Other::Altered, Other::Form];

/// How the bytes of pipes come, by turns.
const FLOWS: [Flow; 3] = [Flow::Whole, Flow::Pages, Flow::Some];

/// Writes the events of an input, in one of two formats.
fn tell(worker: &mut Worker, way: u64, least: usize) -> Result<(), Fault> {
    let format = if way % 2 == 0 {
        Format::Text
    } else {
        Format::JsonLines
    };
    worker.events(least, format)
}

/// A round of the job on texts: listings, which are read back, and events.
fn write(worker: &mut Worker, way: u64, least: usize) -> Result<(), Fault> {
    if way % 2 == 0 {
        worker.show(least, true)
    } else {
        tell(worker, way / 2, least)
    }
}

/// A round of the job on small modules, of which a build writes many.
fn small(worker: &mut Worker, way: u64, least: usize) -> Result<(), Fault> {
    if way % 2 == 0 {
        worker.check(least, false)
    } else {
        worker.normal(least)
    }
}

/// A round of all jobs by turns.
fn mix(worker: &mut Worker, kind: u64, way: u64, least: usize) -> Result<(), Fault> {
    match kind {
        0 => worker.check(least, way % 2 == 1),
        1 => worker.normal(least),
        2 => worker.analyse(least),
        3 => worker.same(least, OTHERS[(way % 4) as usize]),
        4 => worker.walk(least),
        5 => worker.show(least, true),
        6 => worker.refuse(least),
        _ => tell(worker, way, least),
    }
}

/// A round of a job; `None` if there is no such job.
fn round(worker: &mut Worker, job: &str, round: u64) -> Option<Result<(), Fault>> {
    let kind = round % KINDS;
    let way = round / KINDS % 4;
    // Each size meets each unit.
    worker.turn_to(kind.wrapping_add(round / KINDS) as usize);
    let artefact = ARTEFACTS[kind as usize];
    let object = OBJECTS[kind as usize];
    let text = TEXTS[kind as usize];
    let other = OTHERS[way as usize];
    Some(match job {
        "inputs" => worker.inputs(artefact),
        "check" => worker.check(artefact, way % 2 == 1),
        "analyse" => worker.analyse(artefact),
        "normal" => worker.normal(object),
        "same" => worker.same(object, other),
        "pipes" => worker.pipes(object, other, FLOWS[(round % 3) as usize]),
        "text" => write(worker, way, text),
        "small" => small(worker, way, object),
        "mix" => mix(worker, kind, way, text),
        _ => return None,
    })
}

/// The units of files, or the awkward ones if there are none.
fn units_of(rt: &HostRuntime, files: &[String], seed: u64) -> Result<Vec<Unit>> {
    if files.is_empty() {
        return Ok(awkward::units(rt.alloc(), seed)?);
    }
    let mut units = Vec::new(rt.alloc());
    for file in files {
        let bytes = fs::read(rt, file.as_str()).context("a file")?;
        units.push(Unit::of(rt.alloc(), bytes.as_slice())?)?;
    }
    Ok(units)
}

/// Does a job in so many rounds, on inputs of a part of the size, and returns the digest.
fn work(
    rt: &HostRuntime,
    job: &str,
    seed: u64,
    (rounds, part): (u64, usize),
    files: &[String],
) -> Result<u64> {
    let units = units_of(rt, files, seed)?;
    let maker = Maker::new(rt.alloc(), units, seed, part);
    let mut worker = Worker::new(rt.alloc(), maker);
    for turn in 0..rounds {
        match round(&mut worker, job, turn) {
            Some(done) => done?,
            None => bail!("no such job"),
        }
    }
    Ok(worker.digest.state())
}

/// Does what the words of the command line say.
fn run(rt: &HostRuntime) -> Result<()> {
    let mut words = Vec::new(rt.alloc());
    for word in env::args(rt)?.skip(1) {
        words.push(word)?;
    }
    match words.as_slice() {
        [job, seed, rounds, files @ ..] => {
            let (rounds, part) = rounds.split_once("/").unwrap_or((rounds.as_str(), "1"));
            let amount = (rounds.parse::<u64>()?, part.parse::<usize>()?);
            let seed = seed.parse::<u64>()?;
            let digest = work(rt, job.as_str(), seed, amount, files)?;
            println!(rt; "{job} {digest:016x}")?;
            Ok(())
        }
        _ => bail!("words: JOB SEED ROUNDS[/PART] [FILE..]"),
    }
}

fn main(rt: HostRuntime) -> ExitCode {
    match run(&rt) {
        Ok(()) => ExitCode::SUCCESS,
        Err(error) => {
            let _ = eprintln!(rt; "{error:#}");
            ExitCode::from(1)
        }
    }
}
