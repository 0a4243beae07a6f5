//! Sources of tests, whose readers give bytes in pieces, are interrupted and fail.

use bit_fields::{BufSource, FrontSource, KeptSource};
use std::alloc::Global;
use std::io;
use std::io::{BufReader, Error, ErrorKind, Read};
use std::process::Abort;

/// A reader that gives at most so many bytes at its reads, by turns; 0 means that it is interrupted. It fails at one read, if
/// `fails_at` is not 0.
#[derive(Drop)]
pub(crate) struct Uneven<'a> {
    rest: &'a [u8],
    sizes: &'static [usize],
    reads: u64,
    fails_at: u64,
}

impl<'a> Read for Uneven<'a> {
    fn read(&mut self, buf: &mut [u8]) -> io::Result<usize> {
        let turn = self.reads.checked_rem(self.sizes.len() as u64).unwrap_or(0) as usize;
        let most = self.sizes.get(turn).copied().unwrap_or(1);
        self.reads = self.reads.saturating_add(1);
        if self.reads == self.fails_at {
            return Err(Error::from(ErrorKind::Other));
        }
        if most == 0 {
            return Err(Error::from(ErrorKind::Interrupted));
        }
        let most = buf.len().min(most);
        self.rest.read(&mut buf[..most])
    }
}

/// A source with a buffer over a reader.
pub(crate) type Lender<'a> = BufSource<BufReader<Uneven<'a>>>;

/// How a source lends bytes: it has a buffer of `room` bytes, and its reader gives `sizes` by turns and fails at one read.
#[derive(Clone, Copy, Debug)]
pub(crate) struct Lending {
    pub(crate) room: usize,
    pub(crate) sizes: &'static [usize],
    pub(crate) fails_at: u64,
}

impl Lending {
    pub(crate) fn source<'a>(&self, rt: &impl Abort, alloc: Global, bytes: &'a [u8]) -> Lender<'a> {
        let reader = Uneven {
            rest: bytes,
            sizes: self.sizes,
            reads: 0,
            fails_at: self.fails_at,
        };
        BufSource::new(BufReader::with_capacity(alloc, self.room, reader).expect(rt, "memory"))
    }
}

/// How often a source was read, and how many bytes it still has: in its buffer, and behind.
pub(crate) type State = (u64, usize, usize);

pub(crate) fn state_of(source: Lender<'_>) -> State {
    let reader = source.into_inner();
    let uneven = reader.get_ref();
    (uneven.reads, reader.buffer().len(), uneven.rest.len())
}

/// The same of the source whose bytes another one keeps.
pub(crate) fn kept_state(source: KeptSource<Lender<'_>>) -> State {
    let (_, source) = source.into_parts();
    state_of(source)
}

/// The same of the source whose first bytes another one gives.
pub(crate) fn front_state(source: FrontSource<Lender<'_>>) -> State {
    state_of(source.into_inner())
}

/// Buffers, and what their readers give.
pub(crate) static LENDINGS: [(usize, &[usize]); 16] = [
    (1, &[1]),
    (3, &[3]),
    (8, &[8]),
    (13, &[13]),
    (24, &[24]),
    (64, &[64]),
    (40, &[7]),
    (32, &[7, 32, 32]),
    (32, &[16, 16, 9]),
    (32, &[16, 30]),
    (8, &[8, 8, 8, 0]),
    (13, &[13, 13, 0]),
    (24, &[24, 24, 0]),
    (100, &[100]),
    (64, &[9, 9, 9, 30, 30, 2, 64]),
    (16, &[16, 1, 0, 16, 7]),
];
