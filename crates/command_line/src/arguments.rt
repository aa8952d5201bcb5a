//! The arguments of the programs, as `clap` reads them and as their help shows them.
ghost use Rattle.std.specs.Prelude.{◌≡◌, IfOk, false};
ghost use Rattle.clap.specs.Words.{app_of, rule_of};
ghost use Rattle.command_line.specs.Arguments.{format_rule, history_rule, ignore_rule, operand_rule, optional_output_rule, output_rule, program_with, regdiff_command, regedit_command, switch_rule, top_rule};

use clap::{Arg, ArgAction, Command, value_parser};
use std::alloc::{AllocError, Global};

/// The version of the programs, which `--version` prints.
const VERSION: &str = "1.0.0";

const MAP_HELP: &str = "The register map to edit, or - for standard input";

const SCRIPT_HELP: &str = "The edits, one on each line, or - for standard input";

fn operand<'a>(alloc: Global, id: &'a str, name: &'a str, help: &'a str) -> Arg<'a>
    ensures rule { rule_of result ≡ operand_rule id.entry.now }
    ensures own { result.global ≡ false }
{
    Arg::new(alloc, id)
        .value_name(name)
        .action(ArgAction::Set)
        .required(true)
        .help(help)
}

fn output<'a>(alloc: Global, id: &'a str, help: &'a str) -> Arg<'a>
    ensures rule { rule_of result ≡ output_rule id.entry.now }
    ensures own { result.global ≡ false }
{
    Arg::new(alloc, id)
        .long(id)
        .value_name("OUT")
        .action(ArgAction::Set)
        .required(true)
        .help(help)
}

fn top<'a>(alloc: Global, help: &'a str) -> Arg<'a>
    ensures rule { rule_of result ≡ top_rule }
    ensures own { result.global ≡ false }
{
    Arg::new(alloc, "top")
        .long("top")
        .value_name("NAME")
        .action(ArgAction::Set)
        .help(help)
}

fn ignore<'a>(alloc: Global, help: &'a str) -> Arg<'a>
    ensures rule { rule_of result ≡ ignore_rule }
    ensures own { result.global ≡ false }
{
    Arg::new(alloc, "ignore")
        .long("ignore")
        .value_name("PROP,..")
        .action(ArgAction::Set)
        .help(help)
}

fn format<'a>(alloc: Global, help: &'a str) -> Arg<'a>
    ensures rule { rule_of result ≡ format_rule }
    ensures own { result.global ≡ false }
{
    Arg::new(alloc, "format")
        .long("format")
        .value_name("FORMAT")
        .action(ArgAction::Set)
        .help(help)
}

fn history<'a>(alloc: Global) -> Arg<'a>
    ensures rule { rule_of result ≡ history_rule }
    ensures own { result.global ≡ false }
{
    Arg::new(alloc, "history")
        .long("history")
        .value_name("N")
        .action(ArgAction::Set)
        .value_parser(value_parser!(u32).range(1..=1_000_000))
        .default_value("10000")
        .help("How many changes can be undone, from 1 to 1000000")
}

fn optional_output<'a>(alloc: Global, id: &'a str, help: &'a str) -> Arg<'a>
    ensures rule { rule_of result ≡ optional_output_rule id.entry.now }
    ensures own { result.global ≡ false }
{
    Arg::new(alloc, id)
        .long(id)
        .value_name("OUT")
        .action(ArgAction::Set)
        .help(help)
}

fn switch<'a>(alloc: Global, id: &'a str, help: &'a str) -> Arg<'a>
    ensures rule { rule_of result ≡ switch_rule id.entry.now }
    ensures own { result.global ≡ false }
{
    Arg::new(alloc, id)
        .long(id)
        .action(ArgAction::SetTrue)
        .help(help)
}

/// A program of this name with two operands.
fn program<'a>(
    alloc: Global,
    name: &'a str,
    about: &'a str,
    first: Arg<'a>,
    second: Arg<'a>,
) -> Result<Command<'a>, AllocError>
    requires first_own { first.global ≡ false }
    requires second_own { second.global ≡ false }
    ensures { IfOk result (λ command. app_of command ≡ program_with name.entry.now (rule_of first.entry) (rule_of second.entry)) }
{
    Command::new(alloc, name)
        .no_binary_name(true)
        .version(VERSION)
        .about(about)
        .arg(first)?
        .arg(second)
}

/// The command `regedit`, with its help.
pub(crate) fn regedit_command<'a>(alloc: Global) -> Result<Command<'a>, AllocError>
    ensures { IfOk result (λ command. app_of command ≡ regedit_command) }
{
    program(
        alloc,
        "regedit",
        "Edits a register map by a script, and writes the map and its C header",
        operand(alloc, "map", "MAP", MAP_HELP),
        operand(alloc, "script", "SCRIPT", SCRIPT_HELP),
    )?
    .arg(output(
        alloc,
        "rdl",
        "Where the edited map is written, or - for standard output",
    ))?
    .arg(output(
        alloc,
        "header",
        "Where the C header is written, or - for standard output",
    ))?
    .arg(optional_output(
        alloc,
        "edited",
        "Where MAP is written with only the edits woven in; OUT may be MAP",
    ))?
    .arg(top(
        alloc,
        "The address map of the root that is the top; with none, the last one",
    ))?
    .arg(history(alloc))?
    .arg(optional_output(
        alloc,
        "session",
        "Where the session is written: the map with its undos and redos",
    ))?
    .arg(switch(
        alloc,
        "strict",
        "Changes files only where each line was accepted",
    ))?
    .arg(switch(alloc, "quiet", "Explains no refusal on standard error"))
}

/// The command `regdiff`, with its help.
pub(crate) fn regdiff_command<'a>(alloc: Global) -> Result<Command<'a>, AllocError>
    ensures { IfOk result (λ command. app_of command ≡ regdiff_command) }
{
    program(
        alloc,
        "regdiff",
        "Says how the registers of one map differ from those of another",
        operand(alloc, "old", "OLD", "The register map or session that was"),
        operand(alloc, "new", "NEW", "The register map or session that is"),
    )?
    .arg(top(
        alloc,
        "The address map of the root that is the top of both; with none, the last one of each",
    ))?
    .arg(switch(
        alloc,
        "each",
        "Tells each row that has another base, and what is the same in several blocks of each",
    ))?
    .arg(switch(
        alloc,
        "breaking",
        "Tells what breaks software alone; the status is 1 only where something does",
    ))?
    .arg(ignore(
        alloc,
        "Tells no differences of these properties, as name,desc",
    ))?
    .arg(format(
        alloc,
        "How lines are written: text, markdown or json; with none, text",
    ))
}
