//! The edits that lines ask for.
ghost use Rattle.std.specs.Prelude.{◌≡◌, IfOk, option_map};
ghost use Rattle.rdl_rewrite.specs.declared.edit.Edit.{Edit};
ghost use Rattle.rdl_script.specs.Edits as spec;
ghost use Rattle.rdl_script.specs.Seen.{seen_place};

use crate::line::split_word;
use crate::name::{NameSort, name_in};
use crate::operand::{Range, bits_in, dims_in, number_in, value_in};
use crate::path::{path_in, target_in};
use crate::place::{Placed, place_in};
use crate::verb::{EditVerb, Part, Sort};
use rdl_rewrite::edit::Edit;
use rdl_text::name::Name;
use rdl_text::token::Number;
use rdl_tree::dims::Dims;
use rdl_tree::path::Path;
use rdl_tree::target::Target;
use rdl_tree::value::Value;
use std::alloc::{AllocError, Global};

type Assignment = (Name, Value);

fn number_edit(part: Part, path: Path, number: Option<Number>) -> Edit
    ensures { result ≡ spec.number_edit part path number }
{
    match part {
        Part::Address => Edit::SetAddress(path, number),
        Part::Stride => Edit::SetStride(path, number),
        Part::Align => Edit::SetAlign(path, number),
        Part::Reset => Edit::SetReset(path, number),
    }
}

fn set_edit(sort: Sort, path: Path, property: Name, value: Value) -> Edit
    ensures { result ≡ spec.set_edit sort path property value }
{
    match sort {
        Sort::Own => Edit::SetOwn(path, property, value),
        Sort::Default => Edit::SetDefault(path, property, value),
    }
}

fn clear_edit(sort: Sort, path: Path, property: Name) -> Edit
    ensures { result ≡ spec.clear_edit sort path property }
{
    match sort {
        Sort::Own => Edit::ClearOwn(path, property),
        Sort::Default => Edit::ClearDefault(path, property),
    }
}

fn removed(path: Path, operands: &str) -> Option<Edit>
    ensures { result ≡ spec.removed path operands.now }
{
    if operands.is_empty() {
        Some(Edit::Remove(path))
    } else {
        None
    }
}

fn renamed(path: Path, name: Option<Name>) -> Option<Edit>
    ensures { result ≡ option_map (λ n. Edit.Rename path n) name }
{
    Some(Edit::Rename(path, name?))
}

fn moved(path: Path, place: Option<Placed<'_>>) -> Option<Edit>
    ensures { result ≡ spec.moved path (option_map seen_place place.entry) }
{
    let (place, rest) = place?;
    if rest.is_empty() {
        Some(Edit::Move(path, place))
    } else {
        None
    }
}

fn resized(path: Path, dims: Option<Dims>) -> Option<Edit>
    ensures { result ≡ option_map (λ ns. Edit.Resize path ns) dims }
{
    Some(Edit::Resize(path, dims?))
}

fn ranged(path: Path, bits: Option<Option<Range>>) -> Option<Edit>
    ensures { result ≡ option_map (λ r. Edit.SetBits path r) bits }
{
    Some(Edit::SetBits(path, bits?))
}

fn numbered(part: Part, path: Path, number: Option<Option<Number>>) -> Option<Edit>
    ensures { result ≡ option_map (λ n. spec.number_edit part path n) number }
{
    Some(number_edit(part, path, number?))
}

fn set(sort: Sort, path: Path, assignment: Option<Assignment>) -> Option<Edit>
    ensures { result ≡ option_map (λ a. spec.set_edit sort path a.0 a.1) assignment }
{
    let (property, value) = assignment?;
    Some(set_edit(sort, path, property, value))
}

fn cleared(sort: Sort, path: Path, property: Option<Name>) -> Option<Edit>
    ensures { result ≡ option_map (λ p. spec.clear_edit sort path p) property }
{
    Some(clear_edit(sort, path, property?))
}

fn assigned_to(path: Path, target: Target, assignment: Option<Assignment>) -> Option<Edit>
    ensures { result ≡ option_map (λ a. Edit.Assign path target a.0 a.1) assignment }
{
    let (property, value) = assignment?;
    Some(Edit::Assign(path, target, property, value))
}

fn unassigned_from(path: Path, target: Target, property: Option<Name>) -> Option<Edit>
    ensures { result ≡ option_map (λ p. Edit.Unassign path target p) property }
{
    Some(Edit::Unassign(path, target, property?))
}

/// The property and the value that a text is.
#[tactic(auto, unfolding(crate::specs::Edits::assignment_in))]
fn assignment_in(alloc: Global, operands: &str) -> Result<Option<Assignment>, AllocError>
    ensures { IfOk result (λ assignment. assignment ≡ spec.assignment_in operands.now) }
{
    let (word, rest) = split_word(operands);
    let Some(property) = name_in(alloc, NameSort::Property, word)? else {
        return Ok(None);
    };
    match value_in(alloc, rest)? {
        Some(value) => Ok(Some((property, value))),
        None => Ok(None),
    }
}

#[tactic(auto, unfolding(crate::specs::Edits::assigned))]
fn assigned(alloc: Global, path: Path, operands: &str) -> Result<Option<Edit>, AllocError>
    ensures { IfOk result (λ edit. edit ≡ spec.assigned path operands.now) }
{
    let (word, rest) = split_word(operands);
    match target_in(alloc, word)? {
        Some(target) => Ok(assigned_to(path, target, assignment_in(alloc, rest)?)),
        None => Ok(None),
    }
}

#[tactic(auto, unfolding(crate::specs::Edits::unassigned))]
fn unassigned(alloc: Global, path: Path, operands: &str) -> Result<Option<Edit>, AllocError>
    ensures { IfOk result (λ edit. edit ≡ spec.unassigned path operands.now) }
{
    let (word, rest) = split_word(operands);
    match target_in(alloc, word)? {
        Some(target) => {
            let property = name_in(alloc, NameSort::Property, rest)?;
            Ok(unassigned_from(path, target, property))
        }
        None => Ok(None),
    }
}

/// The edit of that path that a line asks for behind it.
#[tactic(auto, unfolding(crate::specs::Edits::edit_by))]
fn edit_by(
    alloc: Global,
    verb: EditVerb,
    path: Path,
    operands: &str,
) -> Result<Option<Edit>, AllocError>
    ensures { IfOk result (λ edit. edit ≡ spec.edit_by verb path operands.now) }
{
    match verb {
        EditVerb::Remove => Ok(removed(path, operands)),
        EditVerb::Rename => Ok(renamed(path, name_in(alloc, NameSort::Any, operands)?)),
        EditVerb::Move => Ok(moved(path, place_in(alloc, operands)?)),
        EditVerb::Resize => Ok(resized(path, dims_in(alloc, operands)?)),
        EditVerb::Bits => Ok(ranged(path, bits_in(alloc, operands)?)),
        EditVerb::Number(part) => Ok(numbered(part, path, number_in(alloc, operands)?)),
        EditVerb::Set(sort) => Ok(set(sort, path, assignment_in(alloc, operands)?)),
        EditVerb::Clear(sort) => {
            let property = name_in(alloc, NameSort::Property, operands)?;
            Ok(cleared(sort, path, property))
        }
        EditVerb::Assign => assigned(alloc, path, operands),
        EditVerb::Unassign => unassigned(alloc, path, operands),
    }
}

/// The edit that a line asks for behind its first word.
#[tactic(auto, unfolding(crate::specs::Edits::edit_in))]
pub(crate) fn edit_in(
    alloc: Global,
    verb: EditVerb,
    operands: &str,
) -> Result<Option<Edit>, AllocError>
    ensures { IfOk result (λ edit. edit ≡ spec.edit_in verb operands.now) }
{
    let (word, rest) = split_word(operands);
    match path_in(alloc, word)? {
        Some(path) => edit_by(alloc, verb, path, rest),
        None => Ok(None),
    }
}
