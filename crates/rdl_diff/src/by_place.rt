//! Rows under the places where they stand.
ghost use Rattle.std.specs.Prelude.{◌≡◌, ◌++◌, codes, flat_map, string_bytes, IfOk, OnOk};
ghost use Rattle.rdl_diff.specs.ByPath.{texts};
ghost use Rattle.rdl_diff.specs.Renames.{around, place, spot};

use crate::by_path::{Lone, names_below};
use crate::told::{push_told, told_by};
use crate::what::What;
use indexmap::IndexMap;
use rdl_elab::row::Row;
use rdl_write::kind_text;
use std::alloc::{AllocError, Global};

/// Appends names with a dot behind each.
fn push_dotted(text: &mut String, names: &[&str]) -> Result<(), AllocError>
    ensures { OnOk result (string_bytes text.new ≡ string_bytes text.old ++ flat_map (λ n. n.now ++ codes ".") names.now) }
{
    'names: for name in names {
        write!(text, "{name}.")?;
    }
    Ok(())
}

/// Appends the names around what has these names.
#[tactic(auto, using(crate::proofs::Places::around_texts))]
fn push_around(text: &mut String, names: &[&str]) -> Result<(), AllocError>
    ensures { OnOk result (string_bytes text.new ≡ string_bytes text.old ++ around (texts names.now)) }
{
    match names {
        [] => Ok(()),
        [around @ .., _] => push_dotted(text, around),
    }
}

/// Appends the kind of a row, and its offset or its bits.
#[tactic(auto, unfolding(crate::specs::Renames::spot))]
fn push_spot(text: &mut String, row: &Row) -> Result<(), AllocError>
    ensures { OnOk result (string_bytes text.new ≡ string_bytes text.old ++ spot row.now) }
{
    write!(text, "{} ", kind_text(row.kind))?;
    push_told(text, &told_by(row, What::Offset))?;
    text.push_str(" ")?;
    push_told(text, &told_by(row, What::Bits))
}

/// The place of a row, as a text.
pub(crate) fn place(alloc: Global, row: &Row) -> Result<String, AllocError>
    ensures { IfOk result (λ text. string_bytes text ≡ place row.now) }
{
    let names = names_below(alloc, &row.names)?;
    let mut text = String::new(alloc);
    push_around(&mut text, names.as_slice())?;
    push_spot(&mut text, row)?;
    Ok(text)
}

/// Rows, one under each place.
#[derive(Drop)]
pub(crate) struct ByPlace<'a> {
    rows: IndexMap<String, Lone<'a>>,
}

impl<'a> ByPlace<'a> {
    ghost use Rattle.std.specs.Prelude.{◌≡◌, ℕ, List, IfOk, option_map};
    ghost use Rattle.rdl_diff.specs.ByPlace.{all_standing, lone_under, standing};
    ghost use Rattle.rdl_diff.specs.Renames.{lone_at};

    /// The last row of each place.
    pub(crate) fn of(alloc: Global, rows: &[Lone<'a>]) -> Result<ByPlace<'a>, AllocError>
        ensures { IfOk result (λ m. (t : List ℕ) → lone_under m t ≡ lone_at t (all_standing rows.now)) }
    {
        let mut by_place = IndexMap::with_capacity(alloc, rows.len())?;
        'rows: for lone in rows {
            let place = place(alloc, lone.row)?;
            by_place.insert(place, *lone)?;
        }
        Ok(ByPlace { rows: by_place })
    }

    /// The row that stands at a place.
    pub(crate) fn get(&self, place: &str) -> Option<Lone<'a>>
        ensures { option_map standing result ≡ lone_under self.now place.now }
    {
        match self.rows.get(place) {
            Some(lone) => Some(*lone),
            None => None,
        }
    }
}
