//! What an input is read from.
ghost use Rattle.regedit.specs.Source.{remaining_of};

use std::io;
use std::io::Read;

/// What an input is read from: a file, or standard input.
#[derive(Debug, Drop)]
pub(crate) enum Source<F, S> {
    File(F),
    Standard(S),
}

impl<F: Read, S: Read> Read for Source<F, S> {
    ghost remaining = { remaining_of F.remaining S.remaining };

    fn read(&mut self, buffer: &mut [u8]) -> io::Result<usize> {
        match self {
            Source::File(file) => file.read(buffer),
            Source::Standard(input) => input.read(buffer),
        }
    }
}
