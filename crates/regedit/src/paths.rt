//! The paths of a line, what its run is asked, and whether two of the paths lead to one file.
ghost use Rattle.std.specs.Prelude.{◌≡◌, is_some};

use command_line::line::Line;
use command_line::streams::{is_standard_input, is_standard_output};
use rdl_run::run::Options;
use std::alloc::Global;
use std::rt::Files;
use whole_files::obstacle::{Obstacle, Reason};
use whole_files::plain::plain_file;

/// The paths of a line.
#[derive(Debug, Drop)]
pub(crate) struct Paths {
    pub(crate) map: String,
    pub(crate) script: String,
    pub(crate) rdl: String,
    pub(crate) header: String,
    pub(crate) session: Option<String>,
    pub(crate) edited: Option<String>,
}

/// What a line asks for.
#[derive(Debug, Drop)]
pub(crate) struct Asked {
    pub(crate) paths: Paths,
    /// What its run is asked.
    pub(crate) options: Options,
    /// Whether files change only where each line of the script was accepted.
    pub(crate) strict: bool,
    /// Whether no refusal is explained.
    pub(crate) quiet: bool,
}

/// What a line asks for.
pub(crate) fn parts(line: Line) -> Asked
    ensures paths { result.paths ≡ record { map = line.map; script = line.script; rdl = line.rdl; header = line.header; session = line.session; edited = line.edited } }
    ensures options { result.options ≡ record { top = line.top; history = line.history; session = is_some line.session; edited = is_some line.edited } }
    ensures strict { result.strict ≡ line.strict }
    ensures quiet { result.quiet ≡ line.quiet }
{
    let Line {
        map,
        script,
        rdl,
        header,
        session,
        edited,
        top,
        history,
        strict,
        quiet,
    } = line;
    let options = Options {
        top,
        history,
        session: session.is_some(),
        edited: edited.is_some(),
    };
    let paths = Paths {
        map,
        script,
        rdl,
        header,
        session,
        edited,
    };
    Asked {
        paths,
        options,
        strict,
        quiet,
    }
}

/// A path of a line, the word that stands for it in messages, and the plain file to which it leads, if it leads to one.
#[derive(Drop)]
struct Place<'a> {
    path: &'a str,
    word: &'static str,
    file: Option<String>,
}

impl<'a> Place<'a> {
    /// The place of an input. Standard input is no file.
    fn of_input<R: Files>(rt: &R, alloc: Global, path: &'a str, word: &'static str) -> Place<'a> {
        let file = if is_standard_input(path) {
            None
        } else {
            file_of(rt, alloc, path)
        };
        Place { path, word, file }
    }

    /// The place of an output. Standard output is no file.
    fn of_output<R: Files>(rt: &R, alloc: Global, path: &'a str, word: &'static str) -> Place<'a> {
        let file = if is_standard_output(path) {
            None
        } else {
            file_of(rt, alloc, path)
        };
        Place { path, word, file }
    }

    /// The place of an output that may not be asked for: then it is no file.
    fn of_optional<R: Files>(
        rt: &R,
        alloc: Global,
        path: &'a Option<String>,
        word: &'static str,
    ) -> Place<'a> {
        match path {
            Some(path) => Place::of_output(rt, alloc, path.as_str(), word),
            None => Place {
                path: "",
                word,
                file: None,
            },
        }
    }

    /// That this output can't be written, if it leads to the file of the other.
    fn meeting(&self, other: &Place<'_>) -> Option<Obstacle<'a>> {
        match (&self.file, &other.file) {
            (Some(one), Some(two)) if one.as_str() == two.as_str() => Some(Obstacle {
                path: self.path,
                reason: Reason::SameFile(other.word),
            }),
            _ => None,
        }
    }
}

/// The plain file to which a path leads. What can't be found out of it is left to its reading or writing.
fn file_of<R: Files>(rt: &R, alloc: Global, path: &str) -> Option<String> {
    plain_file(rt, alloc, path).unwrap_or(None)
}

/// That an output of a run over these paths would be written over what the run reads or writes besides, if one would: two paths
/// may lead to one file by other words, or through a link. The edited text may take the place of MAP.
pub(crate) fn meeting_of_files<'a, R: Files>(
    rt: &R,
    alloc: Global,
    paths: &'a Paths,
) -> Option<Obstacle<'a>> {
    let map = Place::of_input(rt, alloc, paths.map.as_str(), "MAP");
    let script = Place::of_input(rt, alloc, paths.script.as_str(), "SCRIPT");
    let rdl = Place::of_output(rt, alloc, paths.rdl.as_str(), "--rdl");
    let header = Place::of_output(rt, alloc, paths.header.as_str(), "--header");
    let session = Place::of_optional(rt, alloc, &paths.session, "--session");
    let edited = Place::of_optional(rt, alloc, &paths.edited, "--edited");
    header
        .meeting(&rdl)
        .or(rdl.meeting(&script))
        .or(header.meeting(&script))
        .or(header.meeting(&map))
        .or(session.meeting(&rdl))
        .or(session.meeting(&header))
        .or(session.meeting(&script))
        .or(edited.meeting(&rdl))
        .or(edited.meeting(&header))
        .or(edited.meeting(&session))
        .or(edited.meeting(&script))
}
