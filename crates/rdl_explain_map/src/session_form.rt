//! Where a text isn't of the form of a session.

use crate::fixed;
use rdl_parse::parse::parse;
use std::alloc::{AllocError, Global};
use std::str;

/// The line at which a text leaves the form of a session.
#[derive(Drop)]
pub(crate) struct Break {
    /// The byte at which it begins.
    pub offset: usize,
    /// What is wrong there.
    pub wanted: &'static str,
}

/// A text that is read line by line.
#[derive(Drop)]
struct Reader<'a> {
    bytes: &'a [u8],
    /// The byte at which the line begins that was read last.
    begin: usize,
    at: usize,
}

impl<'a> Reader<'a> {
    fn broken(&self, wanted: &'static str) -> Break {
        Break {
            offset: self.begin,
            wanted,
        }
    }

    /// The next line, without its line feed.
    fn line(&mut self) -> Result<&'a str, Break> {
        self.begin = self.at;
        let rest = self.bytes.get(self.at..).unwrap_or(&[]);
        let Some(len) = rest.iter().position(|byte| *byte == b'\n') else {
            return Err(self.broken("the text ends in this line"));
        };
        self.at = self.at.saturating_add(len).saturating_add(1);
        match str::from_utf8(rest.get(..len).unwrap_or(&[])) {
            Ok(line) => Ok(line),
            Err(_) => Err(self.broken("this is no UTF-8")),
        }
    }

    /// So many bytes.
    fn take(&mut self, count: usize) -> Result<&'a [u8], Break> {
        let end = self.at.saturating_add(count);
        match self.bytes.get(self.at..end) {
            Some(bytes) => {
                self.at = end;
                Ok(bytes)
            }
            None => Err(self.broken("so many bytes don't follow")),
        }
    }

    /// The number behind a word that makes a line with it.
    fn count(&mut self, word: &str, wanted: &'static str) -> Result<usize, Break> {
        let line = self.line()?;
        let Some((first, number)) = line.split_once(' ') else {
            return Err(self.broken(wanted));
        };
        match number.parse::<usize>() {
            Ok(count) if first == word => Ok(count),
            _ => Err(self.broken(wanted)),
        }
    }

    fn patch(&mut self) -> Result<(), Break> {
        let line = self.line()?;
        let (verb, rest) = line.split_once(' ').unwrap_or((line, ""));
        match verb {
            "delete" | "shift" | "type" | "name" => Ok(()),
            "insert" | "shell" | "value" | "target" => {
                let (_, number) = rest.rsplit_once(' ').unwrap_or(("", ""));
                let Ok(count) = number.parse::<usize>() else {
                    return Err(self.broken("a count of bytes is wanted at the end of this line"));
                };
                self.take(count)?;
                Ok(())
            }
            _ => Err(self.broken("this line is no patch")),
        }
    }

    fn steps(&mut self, word: &str, wanted: &'static str) -> Result<(), Break> {
        let steps = self.count(word, wanted)?;
        for _ in 0..steps {
            let patches = self.count("back", "a line `back COUNT` is wanted here")?;
            for _ in 0..patches {
                self.patch()?;
            }
        }
        Ok(())
    }
}

/// Reads what stands around the map, whose text is handed out.
fn read<'a>(reader: &mut Reader<'a>) -> Result<&'a [u8], Break> {
    let first = reader.line()?;
    if first != "regedit session 1" {
        return Err(reader.broken("the line `regedit session 1` is wanted here"));
    }
    let count = reader.count("map", "a line `map BYTES` is wanted here")?;
    reader.take(count)
}

fn read_steps(reader: &mut Reader<'_>) -> Result<(), Break> {
    reader.steps("undo", "a line `undo COUNT` is wanted here")?;
    reader.steps("redo", "a line `redo COUNT` is wanted here")?;
    if reader.line()? != "end" {
        return Err(reader.broken("the line `end` is wanted here"));
    }
    reader.begin = reader.at;
    if reader.at < reader.bytes.len() {
        return Err(reader.broken("nothing stands after the line `end`"));
    }
    Ok(())
}

/// What is wrong with the text of the map, which begins at this byte.
fn map_break(alloc: Global, map: &[u8], start: usize) -> Option<Break> {
    let Ok(text) = str::from_utf8(map) else {
        return Some(Break {
            offset: start,
            wanted: "the map is no UTF-8",
        });
    };
    match parse(alloc, text) {
        Ok(_) => None,
        Err(fault) => Some(Break {
            offset: start.saturating_add(fault.offset),
            wanted: fixed::parse_fault(fault.kind),
        }),
    }
}

/// The first line at which a text isn't of the form of a session, as far as that is found.
pub(crate) fn break_of(alloc: Global, bytes: &[u8]) -> Result<Option<Break>, AllocError> {
    let mut reader = Reader {
        bytes,
        begin: 0,
        at: 0,
    };
    let map = match read(&mut reader) {
        Ok(map) => map,
        Err(found) => return Ok(Some(found)),
    };
    let start = reader.at.saturating_sub(map.len());
    if let Some(found) = map_break(alloc, map, start) {
        return Ok(Some(found));
    }
    match read_steps(&mut reader) {
        Ok(()) => Ok(None),
        Err(found) => Ok(Some(found)),
    }
}
