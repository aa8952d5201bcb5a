//! What is printed of a fault that the words name.
ghost use Rattle.std.specs.Prelude.{◌≡◌};
ghost use Rattle.regedit.specs.Explanation.{IsExplained};

use crate::command::print_text;
use rdl_faults::explained;
use std::io::Write;
use whole_files::shown::Shown;

/// The number of the fault that the words ask for, if they do: `--explain NUMBER`, or `--explain=NUMBER`. It is empty where it is left
/// out.
pub(crate) fn asked_number<'a>(words: &[&'a str]) -> Option<&'a str> {
    match words {
        ["--explain"] => Some(""),
        ["--explain", number] => Some(*number),
        [word] => word.strip_prefix("--explain="),
        _ => None,
    }
}

/// Prints what the fault of this number is, with an example and its cure, and answers the exit status: 5 where no fault has it.
pub(crate) fn explain<M: Write, E: Write>(number: &str, messages: &mut M, errors: &mut E) -> u8
    ensures { IsExplained result }
{
    match explained(number) {
        Some(text) => print_text(text, messages, errors),
        None => {
            let number = Shown(number);
            let _ = writeln!(
                errors,
                "regedit: no fault '{number}': --explain takes a number as E20"
            );
            5
        }
    }
}
