//! Readers and writers that are asked through a count.
ghost use Rattle.std.specs.Prelude.{◌≡◌, ◌≤◌, ◌<◌, ◌+◌, ◌^◌};
ghost use Rattle.std.specs.Io.{ReadsAtMost};
ghost use Rattle.std.specs.Io.KnownBytes.{ReadConsumes};
ghost use Rattle.rdl_run.specs.Turns.{Counted, CountedRead, IsOpen, MayBeRead, WritesOnce, unread, unwritten};

use crate::status::MOST_INTERRUPTS;
use std::io;
use std::io::{ErrorKind, Read, Write};

/// How often a reader was asked, how many of these reads were interrupted, and whether one has failed.
#[derive(Clone, Copy, Debug, Drop)]
pub struct Reads {
    reads: usize,
    interrupts: usize,
    failed: bool,
}

/// A reader, and how often it was asked.
#[derive(Drop)]
pub struct CountedReader<'a, R> {
    reader: &'a mut R,
    counts: Reads,
}

impl<'a, R: Read> CountedReader<'a, R> {
    /// A reader that wasn't asked yet.
    pub fn new(reader: &'a mut R) -> CountedReader<'a, R>
        ensures { result ≡ record { reader = reader.entry; counts = unread } }
    {
        let counts = Reads {
            reads: 0,
            interrupts: 0,
            failed: false,
        };
        CountedReader { reader, counts }
    }

    pub(crate) fn interrupts(&self) -> usize
        ensures { result ≡ self.now.counts.interrupts }
    {
        self.counts.interrupts
    }

    pub(crate) fn has_failed(&self) -> bool
        ensures { result ≡ self.now.counts.failed }
    {
        self.counts.failed
    }

    /// Asks the reader once. The read has failed if it answers an error that is no interruption.
    pub(crate) fn read(&mut self, buffer: &mut [u8]) -> io::Result<usize>
        requires room { self.old.counts.reads + 1 < 2 ^ 64 }
        requires asked { MayBeRead self.old.counts }
        ensures bound { ReadsAtMost result buffer.new }
        ensures bytes { ReadConsumes (R.remaining self.old.reader.now) (R.remaining self.new.reader.now) result buffer.new }
        ensures counted { CountedRead self.old.counts self.new.counts result }
        ensures same_reference { self.new.reader.ghost_name ≡ self.old.reader.ghost_name }
    {
        self.counts.reads += 1;
        let answer = self.reader.read(buffer);
        if let Err(e) = &answer {
            if e.kind() == ErrorKind::Interrupted {
                self.counts.interrupts += 1;
            } else {
                self.counts.failed = true;
            }
        }
        answer
    }
}

/// What became of one write.
#[derive(Clone, Copy, Debug, Drop)]
pub(crate) enum Outcome {
    /// It took so many bytes, one at least.
    Took(usize),
    /// It was interrupted, and may be tried again.
    Interrupted,
    /// It took nothing or failed, and is the last.
    Refused,
    /// It was interrupted as so many before it, and is the last.
    Exhausted,
}

/// How often a writer was asked: writes that took a byte, and how many bytes they took, both counted up to the greatest
/// number; writes that were interrupted and may be tried again; whether one took nothing or failed; and whether one has
/// ended the output.
#[derive(Clone, Copy, Debug, Drop)]
pub struct Counts {
    takes: u64,
    taken: u64,
    interrupts: usize,
    refused: bool,
    ended: bool,
}

/// A writer, and how often it was asked.
#[derive(Drop)]
pub struct CountedWriter<'a, W> {
    writer: &'a mut W,
    counts: Counts,
}

impl<'a, W: Write> CountedWriter<'a, W> {
    /// A writer that was interrupted so often.
    pub fn new(writer: &'a mut W, interrupts: usize) -> CountedWriter<'a, W>
        ensures { result ≡ record { writer = writer.entry; counts = record unwritten { interrupts = interrupts } } }
    {
        let counts = Counts {
            takes: 0,
            taken: 0,
            interrupts,
            refused: false,
            ended: false,
        };
        CountedWriter { writer, counts }
    }

    pub(crate) fn interrupts(&self) -> usize
        ensures { result ≡ self.now.counts.interrupts }
    {
        self.counts.interrupts
    }

    /// Writes once. An output that was interrupted 1,000 times ends where it is interrupted again.
    pub(crate) fn write(&mut self, bytes: &[u8]) -> Outcome
        requires asked { IsOpen self.old.counts }
        ensures wrote { WritesOnce (W.contents self.old.writer.now) (W.contents self.new.writer.now) bytes.now result }
        ensures counted { Counted self.old.counts self.new.counts result }
        ensures same_reference { self.new.writer.ghost_name ≡ self.old.writer.ghost_name }
        ensures few { self.new.counts.interrupts ≤ 1000 }
    {
        match self.writer.write(bytes) {
            Ok(n) if n > 0 => {
                self.counts.takes = self.counts.takes.saturating_add(1);
                self.counts.taken = self.counts.taken.saturating_add(n as u64);
                Outcome::Took(n)
            }
            Err(e) if e.kind() == ErrorKind::Interrupted => {
                if self.counts.interrupts < MOST_INTERRUPTS {
                    self.counts.interrupts += 1;
                    Outcome::Interrupted
                } else {
                    self.counts.ended = true;
                    Outcome::Exhausted
                }
            }
            _ => {
                self.counts.refused = true;
                self.counts.ended = true;
                Outcome::Refused
            }
        }
    }
}
