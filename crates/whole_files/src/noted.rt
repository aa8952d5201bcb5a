//! Readers and writers of which it is known why they failed.
ghost use Rattle.std.specs.Prelude.{◌≡◌, ◌+◌, ◌-◌, ◌<◌, ◌≤◌, ◌^◌, min, option_map, None, IsSome, IfOk, OnErr, OnOk};
ghost use Rattle.std.specs.Io.{ReadsAtMost, WritesAtMost};
ghost use Rattle.std.specs.IoError.{error_kind};
ghost use Rattle.std.specs.Io.KnownBytes.{ReadConsumes, WriteAppends};

use crate::obstacle::Reason;
use std::io;
use std::io::{Read, Write};

/// Keeps the error, and answers one of its kind.
fn note(kept: &mut Option<io::Error>, error: io::Error) -> io::Error
    ensures kept { IsSome kept.new }
    ensures kind { error_kind result ≡ error_kind error }
{
    let kind = error.kind();
    *kept = Some(error);
    io::Error::from(kind)
}

/// A reader, how many bytes it has given, and why it failed last.
#[derive(Debug, Drop)]
pub struct NotedReader<R> {
    reader: R,
    bytes: u64,
    error: Option<io::Error>,
}

impl<R> NotedReader<R> {
    /// A reader that has given nothing yet.
    pub fn new(reader: R) -> NotedReader<R>
        ensures { result ≡ record { reader = reader; bytes = 0; error = None } }
    {
        NotedReader {
            reader,
            bytes: 0,
            error: None,
        }
    }

    /// Why no more of it is read: it has given more than so many bytes, or it has failed.
    pub(crate) fn reason(&mut self, most: u64) -> Option<Reason>
        ensures too_long { most < self.old.bytes → result ≡ Some (Reason.TooLong most) }
        ensures failed { self.old.bytes ≤ most → result ≡ option_map (λ error. Reason.Unread error) self.old.error }
    {
        if self.bytes > most {
            return Some(Reason::TooLong(most));
        }
        match self.error.take() {
            Some(error) => Some(Reason::Unread(error)),
            None => None,
        }
    }
}

impl<R: Read> Read for NotedReader<R> {
    ghost remaining = { λ s. R.remaining s.reader };

    fn read(&mut self, buffer: &mut [u8]) -> io::Result<usize>
        ensures bound { ReadsAtMost result buffer.new }
        ensures bytes { ReadConsumes (R.remaining self.old.reader) (R.remaining self.new.reader) result buffer.new }
        ensures noted { OnErr result (IsSome self.new.error) }
        ensures same { OnOk result (self.new.error ≡ self.old.error) }
        ensures counted { IfOk result (λ n. self.new.bytes ≡ min (self.old.bytes + n) (2 ^ 64 - 1)) }
    {
        match self.reader.read(buffer) {
            Ok(count) => {
                self.bytes = self.bytes.saturating_add(count as u64);
                Ok(count)
            }
            Err(error) => Err(note(&mut self.error, error)),
        }
    }
}

/// A writer, and why it failed last.
#[derive(Debug, Drop)]
pub struct NotedWriter<'a, W> {
    writer: &'a mut W,
    error: Option<io::Error>,
}

impl<'a, W> NotedWriter<'a, W> {
    /// A writer that hasn't failed yet.
    pub fn new(writer: &'a mut W) -> NotedWriter<'a, W>
        ensures { result ≡ record { writer = writer.entry; error = None } }
    {
        NotedWriter {
            writer,
            error: None,
        }
    }

    /// Why no more is written to it, if it has failed.
    pub(crate) fn reason(&mut self) -> Option<Reason>
        ensures { result ≡ option_map (λ error. Reason.Unwritten error) self.old.error }
    {
        match self.error.take() {
            Some(error) => Some(Reason::Unwritten(error)),
            None => None,
        }
    }
}

impl<W: Write> Write for NotedWriter<'_, W> {
    ghost contents = { λ s. W.contents s.writer.now };

    fn write(&mut self, bytes: &[u8]) -> io::Result<usize>
        ensures bound { WritesAtMost result bytes.now }
        ensures bytes { WriteAppends (W.contents self.old.writer.now) (W.contents self.new.writer.now) result bytes.now }
        ensures noted { OnErr result (IsSome self.new.error) }
        ensures same { OnOk result (self.new.error ≡ self.old.error) }
    {
        match self.writer.write(bytes) {
            Ok(count) => Ok(count),
            Err(error) => Err(note(&mut self.error, error)),
        }
    }

    fn flush(&mut self) -> io::Result<()> {
        self.writer.flush()
    }
}
