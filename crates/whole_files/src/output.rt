//! Texts, and the files to which they go.
ghost use Rattle.std.specs.Prelude.{IfErr, OnOk};
ghost use Rattle.whole_files.specs.Outputs.{AreOf, IsAt, IsAtOne, IsAtWaiting};

use crate::beside::Beside;
use crate::leftover::take_leftovers;
use crate::limit::check_length;
use crate::plain::plain_file;
use crate::same::holds;
use crate::written::write_text;
use std::alloc::Global;
use std::fs::{File, Files, OpenFile, OpenOptions};
use std::io;
use std::io::ErrorKind;

/// A text, and the path of the file to which it goes.
#[derive(Clone, Copy, Debug, PartialEq, Eq, Drop)]
pub struct Output<'p, 't> {
    /// The path of the file.
    pub path: &'p str,
    /// All the bytes of the file.
    pub text: &'t [u8],
}

/// Why files can't be written.
#[derive(Debug, Drop)]
pub enum OutputFault<'p> {
    /// There isn't enough memory.
    Memory,
    /// The file of this path can't be written, as the system says.
    Unwritten {
        /// The path of the file.
        path: &'p str,
        /// Why it can't be written.
        error: io::Error,
    },
}

fn fault_at(path: &str, error: io::Error) -> OutputFault<'_>
    ensures { IsAt path.now result }
{
    if error.kind() == ErrorKind::OutOfMemory {
        OutputFault::Memory
    } else {
        OutputFault::Unwritten { path, error }
    }
}

/// Appends the text to what is there, which may be a device, a pipe, or what a process has open.
fn write_in_place<R: Files<File = File>>(
    rt: &R,
    alloc: Global,
    output: Output<'_, '_>,
) -> io::Result<()> {
    let mut file = OpenOptions::new().append(true).open(rt, output.path)?;
    let found = file.metadata()?;
    if found.is_file() {
        check_length(
            rt,
            alloc,
            found.len().saturating_add(output.text.len() as u64),
        )?;
    }
    write_text(&mut file, output.text)
}

/// Writes the text in place, or to a new file beside the one that it replaces. A file that holds it already stays.
fn prepare<R: Files<File = File>>(
    rt: &R,
    alloc: Global,
    output: Output<'_, '_>,
) -> io::Result<Option<Beside>> {
    let Some(old) = plain_file(rt, alloc, output.path)? else {
        write_in_place(rt, alloc, output)?;
        return Ok(None);
    };
    take_leftovers(rt, alloc, old.as_str())?;
    if holds(rt, old.as_str(), output.text) {
        return Ok(None);
    }
    Ok(Some(Beside::write(rt, alloc, old, output.text)?))
}

/// A new file that is written, and the path of its output.
#[derive(Drop)]
struct Waiting<'p> {
    path: &'p str,
    beside: Beside,
}

/// Writes each text in place or beside its old file, up to the first that can't be written.
fn prepare_all<'p, R: Files<File = File>>(
    rt: &R,
    alloc: Global,
    outputs: &[Output<'p, '_>],
    waiting: &mut Vec<Waiting<'p>>,
) -> Result<(), OutputFault<'p>>
    ensures named { IfErr result (IsAtOne outputs.now) }
    ensures of { AreOf outputs.now waiting.old.items → OnOk result (AreOf outputs.now waiting.new.items) }
{
    'outputs: for output in outputs {
        let path = output.path;
        match prepare(rt, alloc, *output) {
            Ok(Some(beside)) => {
                if let Err(kept) = waiting.push(Waiting { path, beside }) {
                    kept.value.beside.remove(rt);
                    return Err(OutputFault::Memory);
                }
            }
            Ok(None) => {}
            Err(error) => return Err(fault_at(path, error)),
        }
    }
    Ok(())
}

fn remove_all<R: Files>(rt: &R, waiting: &[Waiting<'_>]) {
    for one in waiting {
        one.beside.remove(rt);
    }
}

fn take_place<'p, R: Files>(rt: &R, one: &Waiting<'p>) -> Result<(), OutputFault<'p>>
    ensures { IfErr result (IsAt one.now.path.now) }
{
    match one.beside.take_place(rt) {
        Ok(()) => Ok(()),
        Err(error) => Err(fault_at(one.path, error)),
    }
}

/// Puts each new file into the place of its old one. At the first where that fails, those that have none yet are taken away.
fn take_places<'p, R: Files>(rt: &R, waiting: &[Waiting<'p>]) -> Result<(), OutputFault<'p>>
    ensures { IfErr result (IsAtWaiting waiting.now) }
{
    for one in waiting {
        if let Err(fault) = take_place(rt, one) {
            remove_all(rt, waiting);
            return Err(fault);
        }
    }
    Ok(())
}

/// Writes to the disk which names stand in the folder, where it may be read and the system can do that.
fn sync_folder<R: Files>(rt: &R, folder: &str) -> io::Result<()> {
    let Ok(folder) = File::open(rt, folder) else {
        return Ok(());
    };
    match folder.sync_all() {
        Err(error) if error.kind() != ErrorKind::InvalidInput => Err(error),
        _ => Ok(()),
    }
}

/// Syncs the folder of a file that was replaced.
fn sync_folder_of<'p, R: Files>(rt: &R, one: &Waiting<'p>) -> Result<(), OutputFault<'p>>
    ensures { IfErr result (IsAt one.now.path.now) }
{
    match sync_folder(rt, one.beside.folder()) {
        Ok(()) => Ok(()),
        Err(error) => Err(fault_at(one.path, error)),
    }
}

/// Syncs the folder of each file that was replaced, once where files of one folder follow each other.
fn sync_folders<'p, R: Files>(rt: &R, waiting: &[Waiting<'p>]) -> Result<(), OutputFault<'p>>
    ensures { IfErr result (IsAtWaiting waiting.now) }
{
    let mut synced = "";
    for one in waiting {
        let folder = one.beside.folder();
        if folder != synced {
            if let Err(fault) = sync_folder_of(rt, one) {
                return Err(fault);
            }
        }
        synced = folder;
    }
    Ok(())
}

/// Puts the new files into the places of their old ones, and writes to the disk that they stand there.
fn replace_all<'p, R: Files>(rt: &R, waiting: &[Waiting<'p>]) -> Result<(), OutputFault<'p>>
    ensures { IfErr result (IsAtWaiting waiting.now) }
{
    match take_places(rt, waiting) {
        Ok(()) => sync_folders(rt, waiting),
        Err(fault) => Err(fault),
    }
}

/// Replaces the files by the texts, each file whole. Before the first is replaced all texts are on the disk, so that want of
/// room leaves every old file as it was; then each takes its place, in their order, and at last the folders are synced. No new
/// file is left beside the old ones. A file that holds its text already isn't touched. A device, a pipe, and what a process has
/// open is written in place, before any file is replaced.
pub fn write_whole<'p, R: Files<File = File>>(
    rt: &R,
    alloc: Global,
    outputs: &[Output<'p, '_>],
) -> Result<(), OutputFault<'p>>
    // A fault that names a file names that of one of these outputs.
    ensures named { IfErr result (IsAtOne outputs.now) }
{
    let mut waiting = Vec::new(alloc);
    if let Err(fault) = prepare_all(rt, alloc, outputs, &mut waiting) {
        remove_all(rt, waiting.as_slice());
        return Err(fault);
    }
    replace_all(rt, waiting.as_slice())
}
