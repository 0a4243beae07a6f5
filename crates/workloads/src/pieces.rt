//! Inputs in pieces.

use crate::random::Random;
use bit_fields::{BufSource, Fault};
use std::alloc::Global;
use std::io;
use std::io::{BufReader, Read};

/// The number of bytes that a program reads at once.
const CHUNK: usize = 65536;

/// A source of bytes as a program has one: over a reader with a buffer.
pub fn buffered<R: Read + Drop>(
    alloc: Global,
    reader: R,
) -> Result<BufSource<BufReader<R>>, Fault> {
    match BufReader::with_capacity(alloc, CHUNK, reader) {
        Ok(reader) => Ok(BufSource::new(reader)),
        Err(_) => Err(Fault::Memory),
    }
}

/// A reader of bytes in memory.
pub trait Rest {
    /// How many bytes were not read yet.
    fn rest(&self) -> usize;
}

impl Rest for &[u8] {
    fn rest(&self) -> usize {
        self.len()
    }
}

/// How many bytes a source still has: in its buffer, and behind.
pub fn left_in<R: Read + Rest + Drop>(source: BufSource<BufReader<R>>) -> usize {
    let reader = source.into_inner();
    reader
        .buffer()
        .len()
        .saturating_add(reader.get_ref().rest())
}

/// Gives bytes in pieces of one to seven.
#[derive(Drop)]
pub struct Pieces<'a> {
    rest: &'a [u8],
    turn: usize,
}

impl<'a> Pieces<'a> {
    /// The pieces of these bytes.
    pub fn new(bytes: &'a [u8]) -> Pieces<'a> {
        Pieces {
            rest: bytes,
            turn: 0,
        }
    }
}

impl Read for Pieces<'_> {
    fn read(&mut self, buf: &mut [u8]) -> io::Result<usize> {
        self.turn = self.turn.wrapping_add(1);
        let most = (1 + self.turn % 7).min(buf.len());
        self.rest.read(&mut buf[..most])
    }
}

/// The number of bytes of a page of memory.
const PAGE: usize = 4096;

/// How many reads of `cat` may find less than the buffer takes.
const FIRST_READS: usize = 3;

/// How the bytes of a pipe come.
#[derive(Clone, Copy)]
pub enum Flow {
    /// As `cat` writes them: as many as the buffer takes, but for the first few reads, which meet some pages.
    Whole,
    /// A page at a time.
    Pages,
    /// Some bytes at a time, at most as many as the buffer takes.
    Some,
}

/// Gives bytes as a pipe does.
#[derive(Drop)]
pub struct Pipe<'a> {
    rest: &'a [u8],
    flow: Flow,
    random: Random,
    reads: usize,
}

impl<'a> Pipe<'a> {
    /// A pipe of these bytes, by a seed.
    pub fn new(bytes: &'a [u8], flow: Flow, seed: u64) -> Pipe<'a> {
        Pipe {
            rest: bytes,
            flow,
            random: Random::new(seed),
            reads: 0,
        }
    }

    /// The most bytes of the next read.
    fn most(&mut self) -> usize {
        self.reads = self.reads.saturating_add(1);
        match self.flow {
            Flow::Whole if self.reads > FIRST_READS => CHUNK,
            Flow::Whole => PAGE * (1 + (self.random.next() % 16) as usize),
            Flow::Pages => PAGE,
            Flow::Some => 1 + (self.random.next() % 65536) as usize,
        }
    }
}

impl Read for Pipe<'_> {
    fn read(&mut self, buf: &mut [u8]) -> io::Result<usize> {
        let most = self.most().min(buf.len());
        self.rest.read(&mut buf[..most])
    }
}

impl Rest for Pipe<'_> {
    fn rest(&self) -> usize {
        self.rest.len()
    }
}
