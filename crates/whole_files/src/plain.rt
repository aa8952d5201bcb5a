//! The plain file to which a path leads.
use std::alloc::Global;
use std::fs::Files;
use std::io;
use std::io::ErrorKind;

/// How many links are followed, one after the other.
const MOST_LINKS: u32 = 40;

/// To what a path leads, a link at its end not followed.
#[derive(Drop)]
enum End {
    /// A plain file of this whole path, or none yet.
    Plain(String),
    /// A link to this path.
    Link(String),
    /// A device, a pipe, a folder, or what a process has open.
    Other,
}

/// The folder and the name of a path.
fn parts(path: &str) -> (&str, &str) {
    match path.rsplit_once('/') {
        Some((folder, name)) if folder.is_empty() => ("/", name),
        Some(both) => both,
        None => (".", path),
    }
}

/// Whether what stands in this folder is what processes have open, or tells of them.
fn is_of_processes(folder: &str) -> bool {
    folder == "/proc" || folder.starts_with("/proc/")
}

fn end_of<R: Files>(rt: &R, alloc: Global, path: &str) -> io::Result<End> {
    let (folder, name) = parts(path);
    if name.is_empty() || name == "." || name == ".." {
        // only a folder is called so
        rt.metadata(path)?;
        return Ok(End::Other);
    }
    let folder = rt.canonicalize(alloc, folder)?;
    if is_of_processes(folder.as_str()) {
        return Ok(End::Other);
    }
    let whole = folder.as_path().join(alloc, name)?.into_string();
    match rt.symlink_metadata(whole.as_str()) {
        Ok(found) if found.is_symlink() => {
            let target = rt.read_link(alloc, whole.as_str())?;
            let whole = folder.as_path().join(alloc, target.as_str())?;
            Ok(End::Link(whole.into_string()))
        }
        Ok(found) if found.is_file() => Ok(End::Plain(whole)),
        Ok(_) => Ok(End::Other),
        Err(error) if error.kind() == ErrorKind::NotFound => Ok(End::Plain(whole)),
        Err(error) => Err(error),
    }
}

/// The whole path of the plain file to which a path leads, through links, also where it isn't there yet. There is none for a
/// device, a pipe, a folder, and what stands in a folder below `/proc`, as all that a process has open.
pub fn plain_file<R: Files>(rt: &R, alloc: Global, path: &str) -> io::Result<Option<String>> {
    let mut path = String::from_str(alloc, path)?;
    for _ in 0..MOST_LINKS {
        match end_of(rt, alloc, path.as_str())? {
            End::Plain(whole) => return Ok(Some(whole)),
            End::Link(target) => path = target,
            End::Other => return Ok(None),
        }
    }
    Err(io::Error::from(ErrorKind::FilesystemLoop))
}
