//! At which file a program stopped, and why.
use crate::noted::{NotedReader, NotedWriter};
use crate::shown::Shown;
use std::fs::{File, Files};
use std::{fmt, io};

/// Why something can't be done with a file.
#[derive(Debug, Drop)]
pub enum Reason {
    /// It can't be read, as the system says.
    Unread(io::Error),
    /// It can't be written, as the system says.
    Unwritten(io::Error),
    /// It can't be read, since it has more than so many bytes.
    TooLong(u64),
    /// It can't be written, since it leads to the same file as what this word names.
    SameFile(&'static str),
}

/// At which file a program stopped, and why.
#[derive(Debug, Drop)]
pub struct Obstacle<'a> {
    /// The path of the file, or what else stands for it.
    pub path: &'a str,
    /// Why it stopped there.
    pub reason: Reason,
}

impl fmt::Display for Obstacle<'_> {
    fn fmt<W: fmt::Write>(&self, f: &mut fmt::Formatter<W>) -> fmt::Result {
        let path = Shown(self.path);
        match &self.reason {
            Reason::Unread(error) => write!(f, "cannot read {path}: {error}"),
            Reason::Unwritten(error) => write!(f, "cannot write {path}: {error}"),
            Reason::TooLong(most) => write!(f, "cannot read {path}: more than {most} bytes"),
            Reason::SameFile(word) => write!(f, "cannot write {path}: it is the file of {word}"),
        }
    }
}

/// Opens a file to read it.
pub fn open_input<'a, R: Files>(
    rt: &R,
    path: &'a str,
) -> Result<NotedReader<R::File>, Obstacle<'a>> {
    match File::open(rt, path) {
        Ok(file) => Ok(NotedReader::new(file)),
        Err(error) => Err(Obstacle {
            path,
            reason: Reason::Unread(error),
        }),
    }
}

/// At which of two inputs a program stopped that reads the second one behind the first, and of each at most so many bytes. What
/// the first has said counts only where the second has said nothing.
pub fn obstacle_of_inputs<'a, F>(
    most: u64,
    first_path: &'a str,
    first: &mut NotedReader<F>,
    second_path: &'a str,
    second: &mut NotedReader<F>,
) -> Option<Obstacle<'a>> {
    match second.reason(most) {
        Some(reason) => Some(Obstacle {
            path: second_path,
            reason,
        }),
        None => Some(Obstacle {
            path: first_path,
            reason: first.reason(most)?,
        }),
    }
}

/// That standard output can't be written, if it has failed.
pub fn obstacle_of_output<W>(output: &mut NotedWriter<'_, W>) -> Option<Obstacle<'static>> {
    Some(Obstacle {
        path: "standard output",
        reason: output.reason()?,
    })
}
