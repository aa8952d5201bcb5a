//! What is told of a new row.
ghost use Rattle.std.specs.Prelude.{◌≡◌, ◌++◌, codes, flat_map, string_bytes, option_copied, Some, OnOk};
ghost use Rattle.std.specs.Option.{option_eq};
ghost use Rattle.rdl_tree.specs.Properties.{row as row_of};
ghost use Rattle.rdl_elab.specs.Reaches.{value_under};
ghost use Rattle.rdl_diff.specs.DiffText.{stated_text, stated_texts, whole_text};
ghost use Rattle.rdl_diff.specs.Told.{same_value, told_value_text};

use crate::told::{is_same_value, push_given};
use rdl_elab::row::Row;
use rdl_list::push_row_text;
use rdl_tree::property::Property;
use rdl_tree::value::Value;
use std::alloc::AllocError;

/// The properties whose values are told.
const TOLD: [Property; 5] = [
    Property::Sw,
    Property::Hw,
    Property::Onread,
    Property::Onwrite,
    Property::Name,
];

/// Whether the property has this value where nothing gives it one.
fn is_built_in(property: Property, value: &Value) -> bool
    ensures { result ≡ option_eq same_value (Some value.now) (row_of property).built_in }
{
    match property.built_in() {
        Some(built_in) => is_same_value(value, &built_in),
        None => false,
    }
}

/// Appends a property and its value.
fn push_property(text: &mut String, property: Property, value: &Value) -> Result<(), AllocError>
    ensures { OnOk result (string_bytes text.new ≡ string_bytes text.old ++ (codes " " ++ (row_of property).name ++ codes " " ++ told_value_text value.now)) }
{
    write!(text, " {} ", property.name())?;
    push_given(text, value)
}

/// Appends a property and its value, if it has one that isn't built in.
fn push_stated_if(
    text: &mut String,
    property: Property,
    value: Option<&Value>,
) -> Result<(), AllocError>
    ensures { OnOk result (string_bytes text.new ≡ string_bytes text.old ++ stated_text property (option_copied value.entry)) }
{
    match value {
        Some(value) if !is_built_in(property, value) => push_property(text, property, value),
        _ => Ok(()),
    }
}

/// Appends these properties of a row with their values, but for built-in ones.
fn push_all_stated(text: &mut String, properties: &[Property], row: &Row) -> Result<(), AllocError>
    ensures { OnOk result (string_bytes text.new ≡ string_bytes text.old ++ flat_map (λ p. stated_text p (value_under p row.now.values)) properties.now) }
{
    'properties: for property in properties {
        push_stated_if(text, *property, row.values.get(*property))?;
    }
    Ok(())
}

/// Appends what is told of a new row behind what `list` prints.
#[tactic(auto, unfolding(crate::specs::DiffText::told_anew))]
pub(crate) fn push_stated(text: &mut String, row: &Row) -> Result<(), AllocError>
    ensures { OnOk result (string_bytes text.new ≡ string_bytes text.old ++ stated_texts row.now) }
{
    push_all_stated(text, &TOLD, row)
}

/// Appends a row with all that is told of a new one.
#[tactic(auto, unfolding(crate::specs::DiffText::whole_text))]
pub(crate) fn push_whole(text: &mut String, row: &Row) -> Result<(), AllocError>
    ensures { OnOk result (string_bytes text.new ≡ string_bytes text.old ++ whole_text row.now) }
{
    push_row_text(text, row, 1)?;
    push_stated(text, row)
}
