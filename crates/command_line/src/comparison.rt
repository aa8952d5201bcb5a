//! What a command line of `regdiff` asks for, from its words.
ghost use Rattle.std.specs.Prelude.{◌≡◌, List, [], map, IfErr, IfOk, MatchResult, OnOk};
ghost use Rattle.clap.specs.Words.{found_of, kind_of, rows_of};
ghost use Rattle.command_line.specs.Faults.{HasFault, IsTold};
ghost use Rattle.command_line.specs.Faults.{IsBehindClap as AreBehindClap};
ghost use Rattle.command_line.specs.ComparisonWords.{AreTaken, HasOperands, IsBehindClap, Means, Refuses, RefusesFound, found, mistakes};

use crate::arguments::regdiff_command;
use crate::fault::WordsFault;
use crate::format::{Format, format_of};
use crate::ignored::ignored_of;
use crate::values::{argument, is_set, top_of};
use clap::error::ErrorKind;
use clap::{ArgMatches, Error};
use rdl_text::name::Name;
use rdl_tree::property::Property;
use std::alloc::{AllocError, Global};

/// What a command line asks for.
#[derive(Debug, Drop)]
pub struct Comparison {
    /// The file of the map or session that was.
    pub old: String,
    /// The file of the one that is.
    pub new: String,
    /// The name of both tops; with none it is the last address map of each root.
    pub top: Option<Name>,
    /// Each row is told that has another base, and not those alone that have another offset; and what is the same in several
    /// blocks of each.
    pub each: bool,
    /// Lines are told of what breaks software alone.
    pub breaking: bool,
    /// The properties whose differences aren't told.
    pub ignored: Vec<Property>,
    /// How the lines are written.
    pub format: Format,
}

/// Why words are no command line.
#[derive(Debug, Drop)]
pub enum ComparisonFault {
    /// L1 to L4, L6: they are none of any program.
    Words(WordsFault),
    /// L7: a property to ignore is unknown.
    BadProperty,
    /// L8: the format is unknown.
    BadFormat,
}

impl From<WordsFault> for ComparisonFault {
    ghost use Rattle.command_line.specs.declared.comparison.ComparisonFault.{ComparisonFault};
    ghost use Rattle.std.specs.Prelude.{◌≡◌};

    ghost from_gives = { λ fault f. f ≡ ComparisonFault.Words fault };

    fn from(fault: WordsFault) -> ComparisonFault {
        ComparisonFault::Words(fault)
    }
}

impl From<AllocError> for ComparisonFault {
    ghost use Rattle.command_line.specs.declared.comparison.ComparisonFault.{ComparisonFault};
    ghost use Rattle.command_line.specs.declared.fault.WordsFault.{WordsFault};
    ghost use Rattle.std.specs.Prelude.{◌≡◌};

    ghost from_gives = { λ _ f. f ≡ ComparisonFault.Words WordsFault.Memory };

    fn from(_error: AllocError) -> ComparisonFault {
        ComparisonFault::Words(WordsFault::Memory)
    }
}

/// What `clap` makes of the words.
fn matches<'a>(alloc: Global, words: &'a [&'a str]) -> Result<ArgMatches<'a>, Error>
    ensures ok { IfOk result (λ m. rows_of (found_of m) ≡ found (map (λ w. w.now) words.entry.now)) }
    ensures whole { IfOk result (λ m. HasOperands (rows_of (found_of m))) }
    ensures takes { AreTaken (map (λ w. w.now) words.entry.now) → IfErr result (λ e. kind_of e ≡ ErrorKind.OutOfMemory) }
    ensures told { MatchResult result (λ _. mistakes (map (λ w. w.now) words.entry.now) ≡ []) (IsTold (mistakes (map (λ w. w.now) words.entry.now))) }
{
    regdiff_command(alloc)?.try_get_matches_from(words)
}

/// What `clap` makes of the words, or why it makes nothing.
fn read<'a>(alloc: Global, words: &'a [&'a str]) -> Result<ArgMatches<'a>, WordsFault>
    ensures ok { IfOk result (λ m. rows_of (found_of m) ≡ found (map (λ w. w.now) words.entry.now)) }
    ensures whole { IfOk result (λ m. HasOperands (rows_of (found_of m))) }
    ensures well { OnOk result (mistakes (map (λ w. w.now) words.entry.now) ≡ []) }
    ensures fault { IfErr result (HasFault (mistakes (map (λ w. w.now) words.entry.now)) (found (map (λ w. w.now) words.entry.now))) }
    ensures taken { AreTaken (map (λ w. w.now) words.entry.now) → IfErr result AreBehindClap }
{
    Ok(matches(alloc, words)?)
}

fn line_of(alloc: Global, matches: &ArgMatches<'_>) -> Result<Comparison, ComparisonFault>
    requires { HasOperands (rows_of (found_of matches.now)) }
    ensures ok { IfOk result (Means (rows_of (found_of matches.now))) }
    ensures fault { IfErr result (RefusesFound (rows_of (found_of matches.now))) }
{
    let top = top_of(alloc, matches)?;
    let ignored = ignored_of(alloc, matches)?;
    let format = format_of(matches)?;
    Ok(Comparison {
        old: argument(alloc, matches, "old")?,
        new: argument(alloc, matches, "new")?,
        top,
        each: is_set(matches, "each"),
        breaking: is_set(matches, "breaking"),
        ignored,
        format,
    })
}

/// Reads the words behind the program's name.
pub fn line<'a>(alloc: Global, words: &'a [&'a str]) -> Result<Comparison, ComparisonFault>
    ensures ok { IfOk result (Means (found (map (λ w. w.now) words.entry.now))) }
    ensures well { OnOk result (mistakes (map (λ w. w.now) words.entry.now) ≡ []) }

    // Each fault has its reason in the words, but want of memory.
    ensures fault { IfErr result (Refuses (map (λ w. w.now) words.entry.now)) }
    ensures taken { AreTaken (map (λ w. w.now) words.entry.now) → IfErr result IsBehindClap }
{
    let matches = read(alloc, words)?;
    line_of(alloc, &matches)
}
