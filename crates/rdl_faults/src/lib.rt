//! What each fault and refusal is, with an example that gives it and its cure.
#![tactic(auto)]

ghost use Rattle.std.specs.Prelude.{IfSome};
ghost use Rattle.rdl_faults.specs.Titles.{Titles};

mod lines;
mod maps;
mod outputs;
mod words;

/// What the fault of this number is, as `E20`, with an example and its cure. There is none of another text.
pub fn explained(number: &str) -> Option<&'static str>
    ensures { IfSome result (λ text. Titles number.now text.now) }
{
    words::explained(number)
        .or(maps::explained(number))
        .or(lines::explained(number))
        .or(outputs::explained(number))
}
