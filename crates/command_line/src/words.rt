//! From words to a line of `regedit`.
ghost use Rattle.std.specs.Prelude.{◌≡◌, List, [], None, map, codes, string_bytes, IfOk, IfErr, MatchResult, OnOk, option_map};
ghost use Rattle.clap.specs.Words.{found_of, kind_of, rows_of};
ghost use Rattle.command_line.specs.Faults.{HasFault, IsTold, RefusesFound, value};
ghost use Rattle.command_line.specs.Faults.{IsBehindClap as AreBehindClap};
ghost use Rattle.command_line.specs.Meetings.{meeting_of};
ghost use Rattle.command_line.specs.Words.{AreTaken, HasHistory, IsBehindClap, IsWhole, Means, NumbersHistory, Refuses, found, mistakes};

use crate::arguments::regedit_command;
use crate::fault::WordsFault;
use crate::line::{Line, LineFault};
use crate::meeting::{Meeting, meeting_between};
use crate::values::{argument, is_set, top_of};
use clap::error::ErrorKind;
use clap::{ArgMatches, Error};
use std::alloc::{AllocError, Global};

/// What `clap` makes of the words.
fn matches<'a>(alloc: Global, words: &'a [&'a str]) -> Result<ArgMatches<'a>, Error>
    ensures ok { IfOk result (λ m. rows_of (found_of m) ≡ found (map (λ w. w.now) words.entry.now)) }
    ensures whole { IfOk result (λ m. IsWhole (rows_of (found_of m))) }
    ensures takes { AreTaken (map (λ w. w.now) words.entry.now) → IfErr result (λ e. kind_of e ≡ ErrorKind.OutOfMemory) }
    ensures told { MatchResult result (λ _. mistakes (map (λ w. w.now) words.entry.now) ≡ []) (IsTold (mistakes (map (λ w. w.now) words.entry.now))) }
{
    regedit_command(alloc)?.try_get_matches_from(words)
}

fn history_of(matches: &ArgMatches<'_>) -> u32
    requires { HasHistory (rows_of (found_of matches.now)) }
    ensures { NumbersHistory (rows_of (found_of matches.now)) result }
{
    matches.get_one::<u32>("history").unwrap()
}

fn edited_of(alloc: Global, matches: &ArgMatches<'_>) -> Result<Option<String>, AllocError>
    ensures { IfOk result (λ edited. value (codes "edited") (rows_of (found_of matches.now)) ≡ option_map string_bytes edited) }
{
    let Some(text) = matches.get_str("edited") else {
        return Ok(None);
    };
    Ok(Some(String::from_str(alloc, text)?))
}

fn session_of(alloc: Global, matches: &ArgMatches<'_>) -> Result<Option<String>, AllocError>
    ensures { IfOk result (λ session. value (codes "session") (rows_of (found_of matches.now)) ≡ option_map string_bytes session) }
{
    let Some(text) = matches.get_str("session") else {
        return Ok(None);
    };
    Ok(Some(String::from_str(alloc, text)?))
}

/// The path of an output that may not be asked for.
fn path_of(output: &Option<String>) -> Option<&str>
    ensures { option_map (λ t. t.now) result ≡ option_map string_bytes output.now }
{
    match output {
        Some(path) => Some(path.as_str()),
        None => None,
    }
}

/// What a run of the line would write over or read twice, as far as its words tell.
fn meeting_of(line: &Line) -> Option<Meeting>
    ensures { result ≡ meeting_of line.now }
{
    meeting_between(
        line.map.as_str(),
        line.script.as_str(),
        line.rdl.as_str(),
        line.header.as_str(),
        path_of(&line.session),
        path_of(&line.edited),
    )
}

fn line_of(alloc: Global, matches: &ArgMatches<'_>) -> Result<Line, WordsFault>
    requires { IsWhole (rows_of (found_of matches.now)) }
    ensures ok { IfOk result (Means (rows_of (found_of matches.now))) }
    ensures fault { IfErr result (RefusesFound (rows_of (found_of matches.now))) }
{
    let top = top_of(alloc, matches)?;
    Ok(Line {
        map: argument(alloc, matches, "map")?,
        script: argument(alloc, matches, "script")?,
        rdl: argument(alloc, matches, "rdl")?,
        header: argument(alloc, matches, "header")?,
        top,
        history: history_of(matches),
        session: session_of(alloc, matches)?,
        edited: edited_of(alloc, matches)?,
        strict: is_set(matches, "strict"),
        quiet: is_set(matches, "quiet"),
    })
}

/// The line that the words are, wherever its paths lead.
fn read_line<'a>(alloc: Global, words: &'a [&'a str]) -> Result<Line, WordsFault>
    ensures ok { IfOk result (Means (found (map (λ w. w.now) words.entry.now))) }
    ensures well { OnOk result (mistakes (map (λ w. w.now) words.entry.now) ≡ []) }
    ensures fault { IfErr result (HasFault (mistakes (map (λ w. w.now) words.entry.now)) (found (map (λ w. w.now) words.entry.now))) }
    ensures taken { AreTaken (map (λ w. w.now) words.entry.now) → IfErr result AreBehindClap }
{
    let matches = matches(alloc, words)?;
    line_of(alloc, &matches)
}

/// Reads the words behind the program's name.
pub fn line<'a>(alloc: Global, words: &'a [&'a str]) -> Result<Line, LineFault>
    ensures ok { IfOk result (Means (found (map (λ w. w.now) words.entry.now))) }
    ensures apart { IfOk result (λ line. meeting_of line ≡ None) }
    ensures well { OnOk result (mistakes (map (λ w. w.now) words.entry.now) ≡ []) }

    // Each fault has its reason in the words, but want of memory.
    ensures fault { IfErr result (Refuses (map (λ w. w.now) words.entry.now)) }
    ensures taken { AreTaken (map (λ w. w.now) words.entry.now) → IfErr result IsBehindClap }
{
    let line = read_line(alloc, words)?;
    match meeting_of(&line) {
        Some(meeting) => Err(LineFault::Meets(meeting)),
        None => Ok(line),
    }
}
