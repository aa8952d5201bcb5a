//! A new file beside an old one, whose place it takes.
use crate::leftover::leads_to;
use crate::limit::check_length;
use crate::names::{MOST_NEW_FILES, folder_of, new_name};
use crate::written::write_text;
use std::alloc::Global;
use std::fs::{File, Files, OpenFile, OpenOptions, Permissions, TryLockError};
use std::io;
use std::io::ErrorKind;
use std::os::unix::fs::{OpenOptionsExt, PermissionsExt};

/// Who may read, write and run a file, without what else its mode may say.
const ALL_MAY: u32 = 0o777;

/// Its owner may read and write it.
const OWNER_MAY: u32 = 0o600;

/// A new file that holds its whole text, and the old file whose place it takes. While it is open it is locked, so that no other
/// run takes it away.
#[derive(Drop)]
pub(crate) struct Beside {
    old: String,
    new: String,
    file: File,
    /// Who may do what with the old file, if there is one.
    mode: Option<u32>,
}

/// Makes a new file that nobody may read who can't read the old one.
fn create<R: Files<File = File>>(rt: &R, name: &str, mode: Option<u32>) -> io::Result<File> {
    let mut options = OpenOptions::new();
    options.write(true).create_new(true);
    if let Some(mode) = mode {
        options.mode(mode | OWNER_MAY);
    }
    options.open(rt, name)
}

/// Locks the file that was made just now, unless another run has taken it for a leftover. Where the system has no locks, no run
/// takes one away.
fn is_kept<R: Files>(rt: &R, name: &str, file: &File) -> bool {
    match file.try_lock() {
        Err(TryLockError::WouldBlock) => false,
        _ => leads_to(rt, name, file),
    }
}

/// Makes the new file, under the first name that nothing has.
fn create_beside<R: Files<File = File>>(
    rt: &R,
    alloc: Global,
    old: &str,
    mode: Option<u32>,
) -> io::Result<(String, File)> {
    for number in 0..MOST_NEW_FILES {
        let name = new_name(alloc, old, number)?;
        match create(rt, name.as_str(), mode) {
            Ok(file) if is_kept(rt, name.as_str(), &file) => return Ok((name, file)),
            Ok(_) => {}
            Err(error) if error.kind() == ErrorKind::AlreadyExists => {}
            Err(error) => return Err(error),
        }
    }
    Err(io::Error::from(ErrorKind::ResourceBusy))
}

fn fill(file: &mut File, text: &[u8]) -> io::Result<()> {
    write_text(file, text)?;
    file.sync_all()
}

impl Beside {
    /// Writes the text to the disk, in a new file beside the old one. Where that fails, no new file is left.
    pub(crate) fn write<R: Files<File = File>>(
        rt: &R,
        alloc: Global,
        old: String,
        text: &[u8],
    ) -> io::Result<Beside> {
        check_length(rt, alloc, text.len() as u64)?;
        let mode = match rt.metadata(old.as_str()) {
            Ok(found) => Some(found.permissions().mode() & ALL_MAY),
            Err(_) => None,
        };
        let (new, file) = create_beside(rt, alloc, old.as_str(), mode)?;
        let mut beside = Beside {
            old,
            new,
            file,
            mode,
        };
        match fill(&mut beside.file, text) {
            Ok(()) => Ok(beside),
            Err(error) => {
                beside.remove(rt);
                Err(error)
            }
        }
    }

    /// Takes the new file away again, if it still stands beside the old one.
    pub(crate) fn remove<R: Files>(&self, rt: &R) {
        if leads_to(rt, self.new.as_str(), &self.file) {
            let _ = rt.remove_file(self.new.as_str());
        }
    }

    /// Puts the new file into the place of the old one, with its mode.
    pub(crate) fn take_place<R: Files>(&self, rt: &R) -> io::Result<()> {
        if let Some(mode) = self.mode {
            self.file.set_permissions(Permissions::from_mode(mode))?;
        }
        if !leads_to(rt, self.new.as_str(), &self.file) {
            return Err(io::Error::from(ErrorKind::NotFound));
        }
        rt.rename(self.new.as_str(), self.old.as_str())
    }

    /// The folder of both.
    pub(crate) fn folder(&self) -> &str {
        folder_of(self.old.as_str())
    }
}
