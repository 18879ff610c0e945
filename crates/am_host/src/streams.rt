//! Readers and writers, as the standard streams and those of a connection.
ghost use Rattle.std.specs.Prelude.{◌≡◌, None, ◌<◌, ◌≤◌, length};
ghost use Rattle.std.specs.Io.{ReadsAtMost, WritesAtMost};

use am_outside::{Failed, Sink, Source};
use std::io;
use std::io::{ErrorKind, Read, Write};

// What a read or a write answers. It is made again when a signal interrupts it.
macro_rules! uninterrupted {
    ($call:expr) => {{
        for _ in 0..u64::MAX {
            match $call {
                Err(error) if error.kind() == ErrorKind::Interrupted => {}
                done => return done,
            }
        }
        Err(io::Error::from(ErrorKind::Interrupted))
    }};
}

fn read_some<R: Read>(reader: &mut R, into: &mut [u8]) -> io::Result<usize>
    ensures { ReadsAtMost result into.new }
{
    uninterrupted!(reader.read(into))
}

fn write_some<W: Write>(writer: &mut W, from: &[u8]) -> io::Result<usize>
    ensures { WritesAtMost result from.now }
{
    uninterrupted!(writer.write(from))
}

/// A stream with its count of faults: a reader, such as standard input, as a source, or a writer, such as standard
/// output, as a sink. A write that takes nothing is a fault.
#[derive(Drop)]
pub struct Counted<S> {
    stream: S,
    /// How many reads and writes failed. It stays at the greatest 64-bit number.
    pub faults: u64,
}

impl<S> Counted<S> {
    /// A source of what the reader gives, or a sink whose bytes go to the writer.
    pub fn new(stream: S) -> Counted<S>
        ensures { result.faults ≡ 0 }
    {
        Counted { stream, faults: 0 }
    }

    /// The reader or the writer.
    pub fn get_ref(&self) -> &S {
        &self.stream
    }
}

impl<R: Read> Source for Counted<R> {
    ghost given = { λ s. None };

    ghost left = { λ s. None };

    ghost faults = { λ s. s.faults };

    ghost mark = { λ s. 0 };

    fn read(&mut self, into: &mut [u8]) -> Result<usize, Failed> {
        match read_some(&mut self.stream, into) {
            Ok(count) => Ok(count),
            Err(_) => {
                self.faults = self.faults.saturating_add(1);
                Err(Failed)
            }
        }
    }
}

impl<W: Write> Sink for Counted<W> {
    ghost taken = { λ s. None };

    ghost faults = { λ s. s.faults };

    ghost mark = { λ s. 0 };

    fn write(&mut self, from: &[u8]) -> Result<usize, Failed> {
        match write_some(&mut self.stream, from) {
            Ok(count) if count > 0 || from.is_empty() => Ok(count),
            _ => {
                self.faults = self.faults.saturating_add(1);
                Err(Failed)
            }
        }
    }
}
