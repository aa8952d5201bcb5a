//! Property assignments as they are written.
ghost use Rattle.std.specs.Prelude.{◌≡◌, ◌++◌, string_bytes, OnOk};
ghost use Rattle.rdl_write.specs.Texts.{value_text, assignment_text, target_text, boolean_text};

use crate::number::push_decimal;
use rdl_text::name::Name;
use rdl_tree::value::Value;
use std::alloc::AllocError;

fn boolean_text(answer: bool) -> &'static str
    ensures { result.now ≡ boolean_text answer }
{
    if answer { "true" } else { "false" }
}

/// Appends a value as it stands in an assignment.
#[tactic(auto, unfolding(crate::specs::Texts::value_text))]
pub fn push_value(text: &mut String, value: &Value) -> Result<(), AllocError>
    ensures { OnOk result (string_bytes text.new ≡ string_bytes text.old ++ value_text value.now) }
{
    match value {
        Value::Number(number) => push_decimal(text, *number),
        Value::Text(raw) => write!(text, "\"{}\"", raw.as_str()),
        Value::Bool(answer) => text.push_str(boolean_text(*answer)),
        Value::Word(word) => text.push_str(word.text()),
    }
}

/// Appends `property = value`.
#[tactic(auto, unfolding(crate::specs::Texts::assignment_text))]
pub fn push_assignment(text: &mut String, property: &str, value: &Value) -> Result<(), AllocError>
    ensures { OnOk result (string_bytes text.new ≡ string_bytes text.old ++ assignment_text property.now value.now) }
{
    text.push_str(property)?;
    text.push_str(" = ")?;
    push_value(text, value)?;
    Ok(())
}

/// Appends names with dots between them, as those of a target.
pub fn push_names(text: &mut String, names: &[Name]) -> Result<(), AllocError>
    ensures { OnOk result (string_bytes text.new ≡ string_bytes text.old ++ target_text names.now) }
{
    match names {
        [] => Ok(()),
        [first, others @ ..] => {
            text.push_str(first.as_str())?;
            'names: for name in others {
                text.push_str(".")?;
                text.push_str(name.as_str())?;
            }
            Ok(())
        }
    }
}
