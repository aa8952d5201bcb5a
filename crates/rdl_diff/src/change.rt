//! What differs between two rows of a path.
ghost use Rattle.std.specs.Prelude.{◌≡◌, ◌++◌, bytes_eq, flat_map, IfOk, OnOk};
ghost use Rattle.std.specs.List.{list_any};
ghost use Rattle.rdl_tree.specs.Properties.{properties, row as row_of};
ghost use Rattle.rdl_diff.specs.Choices.{is_among};
ghost use Rattle.rdl_diff.specs.DiffText.{base_change, change, changes, is_breaking, told_change};
ghost use Rattle.rdl_diff.specs.Seen.{change_seen, changes_seen};
ghost use Rattle.rdl_diff.specs.Told.{same, told};
ghost use Rattle.rdl_diff.specs.declared.what.What.TheVariants as what;

use crate::breaking::breaks;
use crate::choice::Choice;
use crate::moves::Moves;
use crate::told::{Told, are_same_values, is_same, told_by};
use crate::what::What;
use rdl_elab::row::Row;
use rdl_tree::property::Property;
use std::alloc::{AllocError, Global};

/// A part that differs.
#[derive(Drop)]
pub(crate) struct Change<'a> {
    pub what: What,
    pub old: Told<'a>,
    pub new: Told<'a>,
}

/// Whether it breaks software.
fn is_breaking(change: &Change<'_>) -> bool
    ensures { result ≡ is_breaking (change_seen change.now) }
{
    breaks(change.what, &change.old, &change.new)
}

/// Whether one of them breaks software, as the code holds them.
fn is_one_breaking(changes: &[Change<'_>]) -> bool
    ensures { result ≡ list_any (λ c. is_breaking (change_seen c)) changes.now }
{
    changes.iter().any(|change| is_breaking(change))
}

/// Whether one of them breaks software.
#[tactic(auto, using(crate::proofs::Lines::any_seen))]
pub(crate) fn are_breaking(changes: &[Change<'_>]) -> bool
    ensures { result ≡ list_any is_breaking (changes_seen changes.now) }
{
    is_one_breaking(changes)
}

/// Adds what differs of this part.
#[inline(always)]
fn push_change<'a>(
    changes: &mut Vec<Change<'a>>,
    what: What,
    old: &'a Row,
    new: &'a Row,
) -> Result<(), AllocError>
    ensures { OnOk result (changes_seen changes.new.items ≡ changes_seen changes.old.items ++ change old.now new.now what) }
{
    let old = told_by(old, what);
    let new = told_by(new, what);
    if is_same(&old, &new) {
        return Ok(());
    }
    changes.push(Change { what, old, new })?;
    Ok(())
}

/// Whether both rows have the same place in what holds them.
fn have_same_offset(old: &Row, new: &Row) -> bool
    ensures { result ≡ same (told what.Offset old.now) (told what.Offset new.now) }
{
    is_same(&told_by(old, What::Offset), &told_by(new, What::Offset))
}

/// Adds the bases, if they differ and this is told.
fn push_base<'a>(
    changes: &mut Vec<Change<'a>>,
    moves: Moves,
    old: &'a Row,
    new: &'a Row,
) -> Result<(), AllocError>
    ensures { OnOk result (changes_seen changes.new.items ≡ changes_seen changes.old.items ++ base_change moves old.now new.now) }
{
    match moves {
        Moves::Own if have_same_offset(old, new) => Ok(()),
        _ => push_change(changes, What::Base, old, new),
    }
}

/// Whether they are the same. No two properties have one name.
fn same_property(a: Property, b: Property) -> bool
    ensures { result ≡ bytes_eq (row_of a).name (row_of b).name }
{
    a == b
}

/// Whether the property is among these.
fn is_among(property: Property, ignored: &[Property]) -> bool
    ensures { result ≡ is_among property ignored.now }
{
    ignored.iter().any(|other| same_property(*other, property))
}

/// Adds the values of a property, if they differ and it isn't among those that are ignored.
fn push_value<'a>(
    changes: &mut Vec<Change<'a>>,
    ignored: &[Property],
    property: Property,
    old: &'a Row,
    new: &'a Row,
) -> Result<(), AllocError>
    ensures { OnOk result (changes_seen changes.new.items ≡ changes_seen changes.old.items ++ told_change ignored.now old.now new.now (What.Value property)) }
{
    if are_same_values(old.values.get(property), new.values.get(property)) {
        return Ok(());
    }
    if is_among(property, ignored) {
        return Ok(());
    }
    push_change(changes, What::Value(property), old, new)
}

/// Adds the values that differ of these properties, but for those that are ignored.
fn push_values<'a>(
    changes: &mut Vec<Change<'a>>,
    ignored: &[Property],
    properties: &[Property],
    old: &'a Row,
    new: &'a Row,
) -> Result<(), AllocError>
    ensures { OnOk result (changes_seen changes.new.items ≡ changes_seen changes.old.items ++ flat_map (λ p. told_change ignored.now old.now new.now (What.Value p)) properties.now) }
{
    'properties: for property in properties {
        push_value(changes, ignored, *property, old, new)?;
    }
    Ok(())
}

/// Adds the values that differ of all properties, but for those that are ignored.
#[tactic(auto, using(crate::proofs::Unchanged::nothing_told))]
fn push_all_values<'a>(
    changes: &mut Vec<Change<'a>>,
    ignored: &[Property],
    old: &'a Row,
    new: &'a Row,
) -> Result<(), AllocError>
    ensures { OnOk result (changes_seen changes.new.items ≡ changes_seen changes.old.items ++ flat_map (λ p. told_change ignored.now old.now new.now (What.Value p)) properties) }
{
    if old.values.are_same(&new.values) {
        return Ok(());
    }
    push_values(changes, ignored, &Property::ALL, old, new)
}

/// All that differs and is told.
#[tactic(auto, unfolding(crate::specs::Told::whats))]
pub(crate) fn changes<'a>(
    alloc: Global,
    choice: &Choice,
    old: &'a Row,
    new: &'a Row,
) -> Result<Vec<Change<'a>>, AllocError>
    ensures { IfOk result (λ told. changes_seen told.items ≡ changes choice.now old.now new.now) }
{
    let mut changes = Vec::new(alloc);
    push_change(&mut changes, What::Kind, old, new)?;
    push_base(&mut changes, choice.moves, old, new)?;
    push_change(&mut changes, What::Offset, old, new)?;
    push_change(&mut changes, What::Size, old, new)?;
    push_change(&mut changes, What::Dims, old, new)?;
    push_change(&mut changes, What::Stride, old, new)?;
    push_change(&mut changes, What::Bits, old, new)?;
    push_all_values(&mut changes, choice.ignored.as_slice(), old, new)?;
    Ok(changes)
}
