//! Which rows were renamed.
ghost use Rattle.std.specs.Prelude.{◌≡◌, ◌++◌, drop, true, [], ◌∷◌, if◌then◌else◌, length, ◌<◌, IfOk, OnOk, option_map};
ghost use Rattle.std.specs.Option.{option_to_list};
ghost use Rattle.rdl_diff.specs.ByPath.{pair, pairs, row_under, texts};
ghost use Rattle.rdl_diff.specs.ByPlace.{all_standing, lone_under, standing};
ghost use Rattle.rdl_diff.specs.Paths.{path, same_path};
ghost use Rattle.rdl_diff.specs.Renames.{have_same_inside, inside, is_renamed, lone, place, renamed_if, renames_of};

use crate::by_path::{ByPath, Lone, Paths, lone_rows, names_below, put_names_below};
use crate::by_place::{ByPlace, place};
use rdl_elab::row::Row;
use std::alloc::{AllocError, Global};

/// A row of the first map, and the one of the second that it is there.
#[derive(Clone, Copy, Drop)]
pub(crate) struct Rename<'a> {
    pub old: &'a Row,
    pub new: &'a Row,
}

/// The names from this depth on.
pub(crate) fn below<'a>(names: &'a [&'a str], depth: usize) -> &'a [&'a str]
    ensures { texts result.now ≡ drop depth (texts names.now) }
{
    if depth > names.len() {
        return &[];
    }
    let (_front, below) = names.split_at(depth);
    below
}

/// Whether two lists have the same names from this depth on.
pub(crate) fn are_same(depth: usize, a: &[&str], b: &[&str]) -> bool
    ensures { result ≡ same_path (drop depth (texts a.now)) (drop depth (texts b.now)) }
{
    below(a, depth) == below(b, depth)
}

/// Takes the first of the rows away if it stands so deep, and answers whether it did. The list is that of its names then.
fn next_inside<'a>(
    names: &mut Vec<&'a str>,
    depth: usize,
    rows: &mut &'a [Row],
) -> Result<bool, AllocError>
    ensures inside { IfOk result (λ is_inside. inside depth rows.old.now ≡ (if is_inside then drop depth (texts names.new.items) ∷ inside depth rows.new.now else [])) }
    ensures falls { IfOk result (λ is_inside. is_inside ≡ true → length rows.new.now < length rows.old.now) }
{
    let [row, behind @ ..] = *rows else {
        return Ok(false);
    };
    put_names_below(names, &row.names)?;
    if names.len() <= depth {
        return Ok(false);
    }
    *rows = behind;
    Ok(true)
}

/// Whether the same stands in two rows of so many names, of the rows behind each.
fn have_same_inside(
    alloc: Global,
    depth: usize,
    old: &[Row],
    new: &[Row],
) -> Result<bool, AllocError>
    ensures { IfOk result (λ same. same ≡ have_same_inside depth old.now new.now) }
{
    let mut old_rest = old;
    let mut new_rest = new;
    let mut old_names = Vec::new(alloc);
    let mut new_names = Vec::new(alloc);
    'rows: while next_inside(&mut old_names, depth, &mut old_rest)? {
        if !next_inside(&mut new_names, depth, &mut new_rest)? {
            return Ok(false);
        }
        if !are_same(depth, old_names.as_slice(), new_names.as_slice()) {
            return Ok(false);
        }
    }
    let has_more = next_inside(&mut new_names, depth, &mut new_rest)?;
    Ok(!has_more)
}

/// Whether a row that is gone is the last one gone at its place, and the new one there has the same inside.
fn is_renamed(
    alloc: Global,
    old: Lone<'_>,
    last: Lone<'_>,
    new: Lone<'_>,
) -> Result<bool, AllocError>
    ensures { IfOk result (λ is. is ≡ is_renamed (standing old.entry) (standing last.entry) (standing new.entry)) }
{
    let names = names_below(alloc, &old.row.names)?;
    let last_names = names_below(alloc, &last.row.names)?;
    if !are_same(0, names.as_slice(), last_names.as_slice()) {
        return Ok(false);
    }
    have_same_inside(alloc, names.len(), old.behind, new.behind)
}

/// What a row that is gone is now, where these are the last ones gone and new at its place.
fn renamed_if<'a>(
    alloc: Global,
    old: Lone<'a>,
    gone: Option<Lone<'_>>,
    come: Option<Lone<'a>>,
) -> Result<Option<Rename<'a>>, AllocError>
    ensures { IfOk result (λ rename. option_to_list (option_map pair rename) ≡ renamed_if (standing old.entry) (option_map standing gone.entry) (option_map standing come.entry)) }
{
    let Some(last) = gone else {
        return Ok(None);
    };
    let Some(new) = come else {
        return Ok(None);
    };
    if is_renamed(alloc, old, last, new)? {
        let (old, new) = (old.row, new.row);
        return Ok(Some(Rename { old, new }));
    }
    Ok(None)
}

/// What a row that is gone is now, by the rows that are gone and new.
fn renamed_at<'a>(
    alloc: Global,
    old: Lone<'a>,
    gone: &ByPlace<'a>,
    come: &ByPlace<'a>,
) -> Result<Option<Rename<'a>>, AllocError>
    ensures { IfOk result (λ rename. option_to_list (option_map pair rename) ≡ renamed_if (standing old.entry) (lone_under gone.now (place old.entry.row.now)) (lone_under come.now (place old.entry.row.now))) }
{
    let place = place(alloc, old.row)?;
    let last = gone.get(place.as_str());
    let new = come.get(place.as_str());
    renamed_if(alloc, old, last, new)
}

/// Adds a rename, if there is one.
fn push_if<'a>(renames: &mut Vec<Rename<'a>>, rename: Option<Rename<'a>>) -> Result<(), AllocError>
    ensures { OnOk result (pairs renames.new.items ≡ pairs renames.old.items ++ option_to_list (option_map pair rename.entry)) }
{
    match rename {
        Some(rename) => {
            renames.push(rename)?;
            Ok(())
        }
        None => Ok(()),
    }
}

/// Which of the rows that only the first map has were renamed to one of those that only the second has.
fn renames_of<'a>(
    alloc: Global,
    gone: &[Lone<'a>],
    come: &[Lone<'a>],
) -> Result<Vec<Rename<'a>>, AllocError>
    ensures { IfOk result (λ renames. pairs renames.items ≡ renames_of (all_standing gone.now) (all_standing come.now)) }
{
    let gone_places = ByPlace::of(alloc, gone)?;
    let come_places = ByPlace::of(alloc, come)?;
    let mut renames = Vec::new(alloc);
    'rows: for old in gone {
        let rename = renamed_at(alloc, *old, &gone_places, &come_places)?;
        push_if(&mut renames, rename)?;
    }
    Ok(renames)
}

/// Which rows were renamed, of those that only the first map has. The second is looked through only where there are such.
pub(crate) fn renames<'a>(
    alloc: Global,
    gone: &[Lone<'a>],
    new: &'a [Row],
    old: &ByPath<'_>,
) -> Result<Vec<Rename<'a>>, AllocError>
    ensures { IfOk result (λ renames. pairs renames.items ≡ renames_of (all_standing gone.now) (lone path (row_under old.now) new.now)) }
{
    if gone.is_empty() {
        return Ok(Vec::new(alloc));
    }
    let come = lone_rows(alloc, new, &Paths::Own, old)?;
    renames_of(alloc, gone, come.as_slice())
}
