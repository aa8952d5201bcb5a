//! How lines are written.
ghost use Rattle.std.specs.Prelude.{◌≡◌, None, Some, codes, IfErr, IfOk};
ghost use Rattle.clap.specs.Words.{found_of, rows_of};
ghost use Rattle.command_line.specs.Faults.{value};
ghost use Rattle.command_line.specs.ComparisonWords.{RefusesFound, format_named, format_of};

use crate::comparison::ComparisonFault;
use clap::ArgMatches;

/// How lines are written.
#[derive(Clone, Copy, Debug, PartialEq, Eq)]
pub enum Format {
    /// As text.
    Text,
    /// As a table in Markdown.
    Markdown,
    /// As objects in JSON.
    Json,
}

/// The format of this name.
fn format_named(name: &str) -> Option<Format>
    ensures { result ≡ format_named name.now }
{
    match name {
        "text" => Some(Format::Text),
        "markdown" => Some(Format::Markdown),
        "json" => Some(Format::Json),
        _ => None,
    }
}

/// The format that is asked, which is text where none is.
pub(crate) fn format_of(matches: &ArgMatches<'_>) -> Result<Format, ComparisonFault>
    ensures ok { IfOk result (λ format. format_of (value (codes "format") (rows_of (found_of matches.now))) ≡ Some format) }
    ensures fault { IfErr result (RefusesFound (rows_of (found_of matches.now))) }
{
    let Some(name) = matches.get_str("format") else {
        return Ok(Format::Text);
    };
    match format_named(name) {
        Some(format) => Ok(format),
        None => Err(ComparisonFault::BadFormat),
    }
}
