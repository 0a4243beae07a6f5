//! Devices that keep their last error.

use std::io;
use std::io::{Error, ErrorKind, Read, Write};

/// A device that keeps its last error, but for interruptions by a signal, after which a call is tried again.
#[derive(Drop)]
pub struct ErrorKeeper<D> {
    device: D,
    error: Option<Error>,
}

impl<D> ErrorKeeper<D> {
    ghost use Rattle.std.specs.Prelude.{◌≡◌};

    /// A keeper of the errors of this device.
    pub fn new(device: D) -> ErrorKeeper<D>
        ensures { result.device ≡ device }
    {
        ErrorKeeper {
            device,
            error: None,
        }
    }

    /// The last error.
    pub fn error(&self) -> Option<Error>
        ensures { result ≡ self.now.error }
    {
        self.error
    }

    /// Keeps the error of a call that failed.
    fn keep(&mut self, answer: &io::Result<usize>)
        ensures { self.new.device ≡ self.old.device }
    {
        if let Err(error) = answer
            && error.kind() != ErrorKind::Interrupted
        {
            self.error = Some(*error);
        }
    }
}

impl<R: Read> Read for ErrorKeeper<R> {
    ghost remaining = { λ keeper. R.remaining keeper.device };

    fn read(&mut self, into: &mut [u8]) -> io::Result<usize> {
        let answer = self.device.read(into);
        self.keep(&answer);
        answer
    }
}

impl<W: Write> Write for ErrorKeeper<W> {
    ghost contents = { λ keeper. W.contents keeper.device };

    fn write(&mut self, from: &[u8]) -> io::Result<usize> {
        let answer = self.device.write(from);
        self.keep(&answer);
        answer
    }

    fn flush(&mut self) -> io::Result<()> {
        self.device.flush()
    }
}
