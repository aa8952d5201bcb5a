//! The values of arguments, of what is found among words.
ghost use Rattle.std.specs.Prelude.{◌≡◌, Some, codes, is_some, true, string_bytes, IfErr, IfOk, IfSome};
ghost use Rattle.clap.specs.Words.{found_of, rows_of};
ghost use Rattle.rdl_text.specs.Name.{IsName};
ghost use Rattle.command_line.specs.Faults.{RefusesFound, value};
ghost use Rattle.command_line.specs.Words.{says_true};

use crate::fault::WordsFault;
use clap::ArgMatches;
use rdl_text::name::{Name, NameFault};
use std::alloc::{AllocError, Global};

/// The value of an argument that has one.
pub(crate) fn argument(
    alloc: Global,
    matches: &ArgMatches<'_>,
    id: &str,
) -> Result<String, AllocError>
    requires { is_some (value id.now (rows_of (found_of matches.now))) ≡ true }
    ensures { IfOk result (λ text. value id.now (rows_of (found_of matches.now)) ≡ Some (string_bytes text)) }
{
    String::from_str(alloc, matches.get_str(id).unwrap())
}

/// The name of the top, if it is given.
pub(crate) fn top_of(alloc: Global, matches: &ArgMatches<'_>) -> Result<Option<Name>, WordsFault>
    ensures ok { IfOk result (λ top. value (codes "top") (rows_of (found_of matches.now)) ≡ top) }
    ensures is_name { IfOk result (λ top. IfSome top IsName) }
    ensures fault { IfErr result (RefusesFound (rows_of (found_of matches.now))) }
{
    let Some(text) = matches.get_str("top") else {
        return Ok(None);
    };
    match Name::new(alloc, text) {
        Ok(name) => Ok(Some(name)),
        Err(NameFault::NotSuch) => Err(WordsFault::BadTop),
        Err(NameFault::Memory) => Err(WordsFault::Memory),
    }
}

/// Whether an option is given that has no value.
pub(crate) fn is_set(matches: &ArgMatches<'_>, id: &str) -> bool
    ensures { result ≡ says_true (value id.now (rows_of (found_of matches.now))) }
{
    match matches.get_str(id) {
        Some(text) => text == "true",
        None => false,
    }
}
