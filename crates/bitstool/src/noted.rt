//! Standard input and output where they are terminals.

use crate::beginning::is_text;
use std::io;
use std::io::{IsTerminal, Read, Write};

/// What is said before a terminal is read.
pub const READING: &str = "note: reading the terminal, up to Ctrl-D\n";

/// What is said before a terminal gets bytes that are no text.
pub const BINARY: &str = "note: the output is binary; '> FILE' writes it to a file\n";

/// A device with a note. If the device is a terminal, the note is written to the errors once: before the first read, or before the first
/// bytes that are no text.
#[derive(Drop)]
pub struct Noted<D, E> {
    device: D,
    errors: E,
    note: Option<&'static str>,
}

impl<D, E: Write> Noted<D, E> {
    ghost use Rattle.std.specs.Prelude.{◌≡◌};

    /// This device, with a note.
    pub fn new(device: D, errors: E, note: &'static str) -> Noted<D, E>
    where
        D: IsTerminal,
        ensures { result.device ≡ device }
    {
        let note = if device.is_terminal() {
            Some(note)
        } else {
            None
        };
        Noted {
            device,
            errors,
            note,
        }
    }

    /// Writes the note, if it was not written yet. A failure there changes nothing.
    fn tell(&mut self)
        ensures { self.new.device ≡ self.old.device }
    {
        if let Some(note) = self.note.take() {
            let _ = self.errors.write_all(note.as_bytes());
        }
    }
}

impl<R: Read, E: Write> Read for Noted<R, E> {
    ghost remaining = { λ noted. R.remaining noted.device };

    fn read(&mut self, into: &mut [u8]) -> io::Result<usize> {
        self.tell();
        self.device.read(into)
    }
}

impl<W: Write, E: Write> Write for Noted<W, E> {
    ghost contents = { λ noted. W.contents noted.device };

    fn write(&mut self, from: &[u8]) -> io::Result<usize> {
        if self.note.is_some() && !is_text(from) {
            self.tell();
        }
        self.device.write(from)
    }

    fn flush(&mut self) -> io::Result<()> {
        self.device.flush()
    }
}
