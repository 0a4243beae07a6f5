//! Sources over readers that a signal interrupts, or that fail.

use crate::chopped::after_magic;
use crate::words::{FIELDS, some_fields};
use bit_fields::{BufSource, ReadSource, Source, SourceFailed};
use std::io;
use std::io::{BufRead, Error, ErrorKind, Read};

/// A reader that a signal interrupts every other time.
#[derive(Drop)]
struct Signalled<'a> {
    rest: &'a [u8],
    interrupted: bool,
}

impl<'a> Signalled<'a> {
    fn check(&mut self) -> io::Result<()> {
        self.interrupted = !self.interrupted;
        if self.interrupted {
            return Err(Error::from(ErrorKind::Interrupted));
        }
        Ok(())
    }
}

impl<'a> Read for Signalled<'a> {
    fn read(&mut self, buf: &mut [u8]) -> io::Result<usize> {
        self.check()?;
        self.rest.read(buf)
    }
}

impl<'a> BufRead for Signalled<'a> {
    fn fill_buf(&mut self) -> io::Result<&[u8]> {
        self.check()?;
        Ok(self.rest)
    }

    fn consume(&mut self, amount: usize) {
        let count = amount.min(self.rest.len());
        self.rest = &self.rest[count..];
    }
}

#[test]
fn interrupted_buffers(rt: HostRuntime) {
    let mut source = BufSource::new(Signalled {
        rest: &[1, 2, 3, 4, 5, 6, 7, 8, 9, 10],
        interrupted: false,
    });
    let mut into = [0; 2];
    assert!(rt; source.look() == Ok(false) && source.pull(&mut into) == Ok(2) && into == [1, 2]);
    assert!(rt; source.look() == Ok(false) && source.look() == Ok(true));
    assert!(rt; source.look() == Ok(false) && source.pull(&mut into) == Ok(2) && into == [3, 4]);
    assert!(rt; source.pass(2) == Ok(1) && source.failure().is_none());
}

#[test]
fn fields_of_interrupted_readers(rt: HostRuntime) {
    let (input, answer) = (after_magic(&FIELDS.0), FIELDS.1);
    let read = some_fields(ReadSource::new(Signalled {
        rest: &input[..11],
        interrupted: false,
    }));
    let shown = some_fields(BufSource::new(Signalled {
        rest: &input[..11],
        interrupted: false,
    }));
    assert!(rt; read == answer && shown == answer);
}

/// A reader whose reads are interrupted once, and then fail.
#[derive(Drop)]
struct Broken {
    interrupted: bool,
}

impl Broken {
    fn error(&mut self) -> Error {
        let kind = if self.interrupted {
            ErrorKind::BrokenPipe
        } else {
            ErrorKind::Interrupted
        };
        self.interrupted = !self.interrupted;
        Error::from(kind)
    }
}

impl Read for Broken {
    fn read(&mut self, _buf: &mut [u8]) -> io::Result<usize> {
        Err(self.error())
    }
}

impl BufRead for Broken {
    fn fill_buf(&mut self) -> io::Result<&[u8]> {
        Err(self.error())
    }

    fn consume(&mut self, _amount: usize) {}
}

#[test]
fn failures_of_readers(rt: HostRuntime) {
    let mut source = ReadSource::new(Broken { interrupted: false });
    let broken = Some(ErrorKind::BrokenPipe);
    assert!(rt; source.pull(&mut [0]) == Err(SourceFailed) && source.failure() == broken);
    let mut source = BufSource::new(Broken { interrupted: false });
    assert!(rt; source.look() == Ok(false) && source.failure() == None);
    assert!(rt; source.look() == Err(SourceFailed) && source.failure() == broken);
    assert!(rt; source.pass(1) == Err(SourceFailed) && source.failure() == broken);
}
