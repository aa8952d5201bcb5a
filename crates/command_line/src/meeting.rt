//! Which paths of a line lead to one file, so that a run would write over what it has.
ghost use Rattle.std.specs.Prelude.{◌≡◌, option_and_then, option_map};
ghost use Rattle.command_line.specs.Meetings.{are_one, input_named, meeting_at, meeting_between, meets_one, output_named};

use crate::streams::is_standard_input;
use std::fmt;

/// What would be written over, or read twice.
#[derive(Clone, Copy, Debug, PartialEq, Eq, Drop)]
pub enum Meeting {
    /// Two of the outputs are one file.
    TwoOutputs,
    /// An output is the script.
    OutputOverScript,
    /// The header is the map.
    HeaderOverMap,
    /// Standard input is both the map and the script.
    TwoInputs,
}

impl fmt::Display for Meeting {
    fn fmt<W: fmt::Write>(&self, f: &mut fmt::Formatter<W>) -> fmt::Result {
        f.write_str(match self {
            Meeting::TwoOutputs => "two outputs in one file",
            Meeting::OutputOverScript => "an output over SCRIPT",
            Meeting::HeaderOverMap => "header over MAP",
            Meeting::TwoInputs => "MAP and SCRIPT both from standard input",
        })
    }
}

/// The file that an output's path names: none where it lies below `/dev/` or `/proc/`, since what stands there may be written by
/// many. Standard output, `-`, counts as one.
fn output_named(path: &str) -> Option<&str>
    ensures { option_map (λ t. t.now) result ≡ output_named path.now }
{
    let bytes = path.as_bytes();
    if bytes.starts_with(b"/dev/") || bytes.starts_with(b"/proc/") {
        None
    } else {
        Some(path)
    }
}

/// The file that the path of an output names that is asked for.
fn optional_named(path: Option<&str>) -> Option<&str>
    ensures { option_map (λ t. t.now) result ≡ option_and_then output_named (option_map (λ t. t.now) path.entry) }
{
    match path {
        Some(path) => output_named(path),
        None => None,
    }
}

/// The file that an input's path names. Standard input is none.
fn input_named(path: &str) -> Option<&str>
    ensures { option_map (λ t. t.now) result ≡ input_named path.now }
{
    if is_standard_input(path) {
        None
    } else {
        output_named(path)
    }
}

fn are_one(a: Option<&str>, b: Option<&str>) -> bool
    ensures { result ≡ are_one (option_map (λ t. t.now) a.entry) (option_map (λ t. t.now) b.entry) }
{
    match (a, b) {
        (Some(a), Some(b)) => a == b,
        _ => false,
    }
}

/// Whether the file is the map's, the header's or the session's.
fn meets_one(
    file: Option<&str>,
    rdl: Option<&str>,
    header: Option<&str>,
    session: Option<&str>,
) -> bool
    ensures { result ≡ meets_one (option_map (λ t. t.now) file.entry) (option_map (λ t. t.now) rdl.entry) (option_map (λ t. t.now) header.entry) (option_map (λ t. t.now) session.entry) }
{
    are_one(file, rdl) || are_one(file, header) || are_one(file, session)
}

/// What a run over these files would write over, the worst first. A file that is none meets no other.
fn meeting_at(
    map: Option<&str>,
    script: Option<&str>,
    rdl: Option<&str>,
    header: Option<&str>,
    session: Option<&str>,
    edited: Option<&str>,
) -> Option<Meeting>
    ensures { result ≡ meeting_at (option_map (λ t. t.now) map.entry) (option_map (λ t. t.now) script.entry) (option_map (λ t. t.now) rdl.entry) (option_map (λ t. t.now) header.entry) (option_map (λ t. t.now) session.entry) (option_map (λ t. t.now) edited.entry) }
{
    if are_one(rdl, header)
        || are_one(rdl, session)
        || are_one(header, session)
        || meets_one(edited, rdl, header, session)
    {
        return Some(Meeting::TwoOutputs);
    }
    if are_one(edited, script) || meets_one(script, rdl, header, session) {
        return Some(Meeting::OutputOverScript);
    }
    if are_one(header, map) {
        return Some(Meeting::HeaderOverMap);
    }
    None
}

/// What a run over these paths would write over or read twice, as far as the words tell.
pub(crate) fn meeting_between(
    map: &str,
    script: &str,
    rdl: &str,
    header: &str,
    session: Option<&str>,
    edited: Option<&str>,
) -> Option<Meeting>
    ensures { result ≡ meeting_between map.now script.now rdl.now header.now (option_map (λ t. t.now) session.entry) (option_map (λ t. t.now) edited.entry) }
{
    if is_standard_input(map) && is_standard_input(script) {
        return Some(Meeting::TwoInputs);
    }
    meeting_at(
        input_named(map),
        input_named(script),
        output_named(rdl),
        output_named(header),
        optional_named(session),
        optional_named(edited),
    )
}
