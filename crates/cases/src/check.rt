//! Whether a case passes, and what is said of it where it doesn't.
ghost use Rattle.std.specs.Prelude.{◌≡◌, ◌↔◌, [], ◌∷◌, ◌++◌, IsTrue};
ghost use Rattle.cases.specs.Exit.{status_code, comparison_code};
ghost use Rattle.cases.specs.Met.{EndsWith, HasLines, IsMet, IsWanted, IsWantedWhole};

use crate::case::{Case, Lines, Wanted};
use crate::found::{End, Found, find};
use crate::told::{told_of, warned_of};
use rdl_diff::status::Status as Comparison;
use rdl_run::status::Status;
use std::{io, str};

/// The exit status of a run.
fn status_code(status: Status) -> u8
    ensures { result ≡ status_code status }
{
    match status {
        Status::Accepted => 0,
        Status::LineRefused => 1,
        Status::MapRefused => 2,
        Status::Incomplete(_) => 3,
    }
}

/// The exit status of a comparison.
fn comparison_code(status: Comparison) -> u8
    ensures { result ≡ comparison_code status }
{
    match status {
        Comparison::Same => 0,
        Comparison::Different => 1,
        Comparison::MapRefused => 2,
    }
}

fn is_text(bytes: &[u8], text: &str) -> bool
    ensures { IsTrue result ↔ (bytes.now ≡ text.now) }
{
    bytes == text.as_bytes()
}

/// Whether a text is these lines, with their last line feed.
#[tactic(auto, using(crate::proofs::Lists::same_front, crate::proofs::Lists::same_last))]
fn are_lines(text: &[u8], lines: &str) -> bool
    ensures { IsTrue result ↔ (text.now ≡ lines.now ++ 10 ∷ []) }
{
    match text.split_last() {
        Some((last, front)) => *last == b'\n' && is_text(front, lines),
        None => false,
    }
}

/// Whether a text has these lines, each with its line feed, and nothing else.
fn has_lines(text: &[u8], lines: Lines) -> bool
    ensures { IsTrue result ↔ HasLines text.now lines.entry }
{
    match lines {
        Some(lines) => are_lines(text, lines),
        None => text.is_empty(),
    }
}

/// Whether a text is as it is wanted, if anything is said of it.
fn is_wanted(text: &Vec<u8>, wanted: Option<Lines>) -> bool
    ensures { IsTrue result ↔ IsWanted text.now.items wanted.entry }
{
    match wanted {
        Some(lines) => has_lines(text.as_slice(), lines),
        None => true,
    }
}

/// Whether a text is the whole text that is wanted, if anything is said of it.
fn is_wanted_whole(text: &Vec<u8>, wanted: Option<&str>) -> bool
    ensures { IsTrue result ↔ IsWantedWhole text.now.items wanted.entry }
{
    match wanted {
        Some(wanted) => is_text(text.as_slice(), wanted),
        None => true,
    }
}

/// Whether it ended with this exit status.
fn is_wanted_end(end: End, wanted: u8) -> bool
    ensures { IsTrue result ↔ EndsWith end wanted }
{
    match end {
        End::Ended(status) => status_code(status) == wanted,
        End::Compared(status) => comparison_code(status) == wanted,
        End::Stopped(_) | End::BadTop => false,
    }
}

fn text_of(bytes: &[u8]) -> &str {
    match str::from_utf8(bytes) {
        Ok(text) => text,
        Err(_) => "(no text)",
    }
}

fn print_part(
    rt: &HostRuntime,
    name: &str,
    text: &Vec<u8>,
    wanted: Option<Lines>,
) -> io::Result<()> {
    if is_wanted(text, wanted) {
        return Ok(());
    }
    let lines = wanted.flatten().unwrap_or("(none)");
    println!(rt;
        "wanted %{name}\n{lines}\ncame %{name}\n{}",
        text_of(text.as_slice())
    )
}

fn print_edited(rt: &HostRuntime, found: &Found, wanted: Option<&str>) -> io::Result<()> {
    if found.is_unwoven {
        return println!(rt; "came no edited text");
    }
    if is_wanted_whole(&found.edited, wanted) {
        return Ok(());
    }
    println!(rt;
        "wanted %edited\n{}\ncame %edited\n{}",
        wanted.unwrap_or(""),
        text_of(found.edited.as_slice())
    )
}

fn print_end(rt: &HostRuntime, end: End, wanted: u8) -> io::Result<()> {
    match end {
        End::Ended(status) => println!(rt; "wanted %status {wanted}, came {}", status_code(status)),
        End::Compared(status) => {
            println!(rt; "wanted %status {wanted}, came {}", comparison_code(status))
        }
        End::Stopped(fault) => println!(rt; "wanted %status {wanted}, came {fault}"),
        End::BadTop => println!(rt; "%top has no name"),
    }
}

/// Whether a run ended as is wanted, and its texts are as they are wanted.
fn is_met(found: &Found, wanted: &Wanted, status: u8) -> bool
    ensures { IsTrue result ↔ IsMet found.now wanted.now status }
{
    is_wanted_end(found.end, status)
        && is_wanted(&found.messages, wanted.prints)
        && is_wanted(&found.rdl, wanted.writes)
        && is_wanted(&found.header, wanted.header)
        && is_wanted(&found.session, wanted.session)
        && is_wanted(&found.saved, wanted.saved)
        && is_wanted_whole(&found.edited, wanted.edited)
        && !found.is_unwoven
        && !found.goes_astray
}

/// Prints what came in place of what is wanted.
fn print_found(rt: &HostRuntime, found: &Found, wanted: &Wanted, status: u8) -> io::Result<()> {
    if !is_wanted_end(found.end, status) {
        print_end(rt, found.end, status)?;
    }
    print_part(rt, "prints", &found.messages, wanted.prints)?;
    print_part(rt, "writes", &found.rdl, wanted.writes)?;
    print_part(rt, "header", &found.header, wanted.header)?;
    print_part(rt, "session", &found.session, wanted.session)?;
    print_part(rt, "saved", &found.saved, wanted.saved)?;
    if found.goes_astray {
        println!(rt; "came another map or edited text where the session goes on")?;
    }
    print_edited(rt, found, wanted.edited)
}

/// Whether the run on a map ends and says and writes as is wanted.
fn runs_as_wanted(rt: &HostRuntime, case: &Case, map: &str, status: u8) -> io::Result<bool> {
    let found = find(rt.alloc(), map, &case.given);
    let is_met = is_met(&found, &case.wanted, status);
    if !is_met {
        println!(rt; "failed: {}", case.words)?;
        print_found(rt, &found, &case.wanted, status)?;
    }
    Ok(is_met)
}

fn refuse(rt: &HostRuntime, case: &Case, why: &str, heading: &str) -> io::Result<bool> {
    println!(rt; "failed: {}\n{why} %{heading}", case.words)?;
    Ok(false)
}

/// Whether what is told is what is wanted. Where it isn't, it says so.
fn is_told(
    rt: &HostRuntime,
    case: &Case,
    name: &str,
    told: Option<Vec<u8>>,
    wanted: Option<Lines>,
) -> io::Result<bool> {
    let Some(told) = told else {
        return refuse(rt, case, "nothing came for", name);
    };
    let is_met = is_wanted(&told, wanted);
    if !is_met {
        println!(rt; "failed: {}", case.words)?;
        print_part(rt, name, &told, wanted)?;
    }
    Ok(is_met)
}

/// Whether of a run on a map is told what is wanted, and of the map warned.
fn tells_as_wanted(rt: &HostRuntime, case: &Case, map: &str) -> io::Result<bool> {
    let told = told_of(rt.alloc(), map, &case.given);
    let is_told_so = is_told(rt, case, "told", told, case.wanted.told)?;
    let warned = warned_of(rt.alloc(), map);
    let is_warned_so = is_told(rt, case, "warned", warned, case.wanted.warned)?;
    Ok(is_told_so && is_warned_so)
}

/// Whether a case with a map passes. Of one that doesn't it says why.
fn passes_on(rt: &HostRuntime, case: &Case, map: &str) -> io::Result<bool> {
    match (case.wanted.status, case.wanted.prints) {
        (Some(status), Some(_)) => runs_as_wanted(rt, case, map, status),
        (None, None) if case.wanted.is_of_told() => tells_as_wanted(rt, case, map),
        (None, _) => refuse(rt, case, "lacks", "status"),
        (_, None) => refuse(rt, case, "lacks", "prints"),
    }
}

/// Whether a case passes. Of one that doesn't it says why.
pub fn passes(rt: &HostRuntime, case: &Case) -> io::Result<bool> {
    if let Some(heading) = case.mistake {
        return refuse(rt, case, "no such heading, or not here:", heading);
    }
    match case.given.map {
        Some(map) => passes_on(rt, case, map),
        None => refuse(rt, case, "lacks", "map"),
    }
}
