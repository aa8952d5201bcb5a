//! The rows of a map under their paths.
ghost use Rattle.std.specs.Prelude.{◌≡◌, [], ◌∷◌, ◌++◌, drop, option_copied, IfOk, OnOk};
ghost use Rattle.std.specs.Option.{option_to_list};
ghost use Rattle.rdl_diff.specs.ByPath.{path_in, row_under, texts};
ghost use Rattle.rdl_diff.specs.ByPlace.{all_standing};
ghost use Rattle.rdl_diff.specs.Paths.{path};
ghost use Rattle.rdl_diff.specs.Renames.{lone, lone_if, path_or, walked};

use crate::rename::Rename;
use indexmap::IndexMap;
use rdl_elab::row::{Row, RowPath};
use rdl_text::name::Name;
use std::alloc::{AllocError, Global};

/// Most paths have no more names.
const USUAL: usize = 8;

/// Appends the name of a register, if there is one, and that of what stands in it.
fn push_ends<'a>(
    names: &mut Vec<&'a str>,
    register: Option<&'a Name>,
    last: &'a Name,
) -> Result<(), AllocError>
    ensures { OnOk result (texts names.new.items ≡ texts names.old.items ++ option_to_list (option_copied register.entry) ++ last.now ∷ []) }
{
    if let Some(register) = register {
        names.push(register.as_str())?;
    }
    names.push(last.as_str())?;
    Ok(())
}

/// Appends the name of what stands in a register that is the top, if there is one.
fn push_end_below<'a>(
    names: &mut Vec<&'a str>,
    register: Option<&Name>,
    last: &'a Name,
) -> Result<(), AllocError>
    ensures { OnOk result (texts names.new.items ≡ texts names.old.items ++ drop 1 (option_to_list (option_copied register.entry) ++ last.now ∷ [])) }
{
    if register.is_some() {
        names.push(last.as_str())?;
    }
    Ok(())
}

/// Makes the list that of the names below the top.
pub(crate) fn put_names_below<'a>(
    names: &mut Vec<&'a str>,
    path: &'a RowPath,
) -> Result<(), AllocError>
    ensures { OnOk result (texts names.new.items ≡ drop 1 path.now) }
{
    names.clear();
    let parts = path.parts();
    let mut around = parts.around.names();
    if around.next().is_none() {
        return push_end_below(names, parts.register, parts.last);
    }
    'names: while let Some(name) = around.next() {
        names.push(name)?;
    }
    push_ends(names, parts.register, parts.last)
}

/// The names below the top.
pub(crate) fn names_below(alloc: Global, path: &RowPath) -> Result<Vec<&str>, AllocError>
    ensures { IfOk result (λ names. texts names.items ≡ drop 1 path.now) }
{
    let mut names = Vec::with_capacity(alloc, USUAL)?;
    put_names_below(&mut names, path)?;
    Ok(names)
}

/// Makes the list the path of this row, if there is one.
fn put_path_or<'a>(walk: &mut Vec<&'a str>, found: Option<&'a Row>) -> Result<(), AllocError>
    ensures { OnOk result (texts walk.new.items ≡ path_or (texts walk.old.items) (option_copied found.entry)) }
{
    match found {
        Some(row) => put_names_below(walk, &row.names),
        None => Ok(()),
    }
}

/// Goes on to the path of the row that the one of this path is now, if it was renamed.
fn put_renamed<'a>(walk: &mut Vec<&'a str>, renamed: &ByPath<'a>) -> Result<(), AllocError>
    ensures { OnOk result (texts walk.new.items ≡ path_or (texts walk.old.items) (row_under renamed.now (texts walk.old.items))) }
{
    let found = renamed.get(walk.as_slice());
    put_path_or(walk, found)
}

/// Goes on by one name.
fn put_step<'a>(
    walk: &mut Vec<&'a str>,
    name: &'a str,
    renamed: &ByPath<'a>,
) -> Result<(), AllocError>
    ensures { OnOk result (texts walk.new.items ≡ path_or (texts walk.old.items ++ name.now ∷ []) (row_under renamed.now (texts walk.old.items ++ name.now ∷ []))) }
{
    walk.push(name)?;
    put_renamed(walk, renamed)
}

/// Makes the list the path in the second map, of these names in the first.
#[tactic(auto, using(crate::proofs::Walks::one_walked))]
fn put_walked<'a>(
    walk: &mut Vec<&'a str>,
    names: &[&'a str],
    renamed: &ByPath<'a>,
) -> Result<(), AllocError>
    ensures { OnOk result (texts walk.new.items ≡ walked (row_under renamed.now) [] (texts names.now)) }
{
    walk.clear();
    let mut rest = names;
    'names: while let [name, behind @ ..] = rest {
        put_step(walk, *name, renamed)?;
        rest = behind;
    }
    Ok(())
}

/// Makes the list the path of a row in the second map.
fn put_new_path<'a>(
    alloc: Global,
    walk: &mut Vec<&'a str>,
    renamed: &ByPath<'a>,
    row: &'a Row,
) -> Result<(), AllocError>
    ensures { OnOk result (texts walk.new.items ≡ walked (row_under renamed.now) [] (path row.now)) }
{
    let names = names_below(alloc, &row.names)?;
    put_walked(walk, names.as_slice(), renamed)
}

/// Under which paths the rows of a map stand.
#[derive(Drop)]
pub(crate) enum Paths<'a> {
    /// Their own.
    Own,
    /// Those that they have in the second map, by the rows that these paths have there.
    New(ByPath<'a>),
}

/// Makes the list the path of a row.
fn put_path<'a>(
    alloc: Global,
    names: &mut Vec<&'a str>,
    paths: &Paths<'a>,
    row: &'a Row,
) -> Result<(), AllocError>
    ensures { OnOk result (texts names.new.items ≡ path_in paths.now row.now) }
{
    match paths {
        Paths::Own => put_names_below(names, &row.names),
        Paths::New(renamed) => put_new_path(alloc, names, renamed, row),
    }
}

/// Rows, one under each path.
#[derive(Drop)]
pub(crate) struct ByPath<'a> {
    rows: IndexMap<Vec<&'a str>, &'a Row>,
}

impl<'a> ByPath<'a> {
    ghost use Rattle.std.specs.Prelude.{◌≡◌, ℕ, List, IfOk, option_copied};
    ghost use Rattle.rdl_diff.specs.ByPath.{pairs, path_in, row_under, texts};
    ghost use Rattle.rdl_diff.specs.Paths.{last_by};
    ghost use Rattle.rdl_diff.specs.Renames.{renamed_to};

    /// The last row of each path.
    pub(crate) fn of(
        alloc: Global,
        rows: &'a [Row],
        paths: &Paths<'a>,
    ) -> Result<ByPath<'a>, AllocError>
        ensures { IfOk result (λ m. (p : List (List ℕ)) → row_under m p ≡ last_by (path_in paths.now) (λ r. r) p rows.now) }
    {
        let mut by_path = IndexMap::with_capacity(alloc, rows.len())?;
        'rows: for row in rows {
            let mut names = Vec::with_capacity(alloc, USUAL)?;
            put_path(alloc, &mut names, paths, row)?;
            by_path.insert(names, row)?;
        }
        Ok(ByPath { rows: by_path })
    }

    /// The rows that rows of the first map are now, under the paths that they had.
    pub(crate) fn of_renames(
        alloc: Global,
        renames: &[Rename<'a>],
    ) -> Result<ByPath<'a>, AllocError>
        ensures { IfOk result (λ m. (p : List (List ℕ)) → row_under m p ≡ renamed_to (pairs renames.now) p) }
    {
        let mut by_path = IndexMap::with_capacity(alloc, renames.len())?;
        'renames: for rename in renames {
            let names = names_below(alloc, &rename.old.names)?;
            by_path.insert(names, rename.new)?;
        }
        Ok(ByPath { rows: by_path })
    }

    /// The row under a path.
    pub(crate) fn get(&self, names: &[&str]) -> Option<&'a Row>
        ensures { option_copied result ≡ row_under self.now (texts names.entry.now) }
    {
        match self.rows.get(names) {
            Some(row) => Some(*row),
            None => None,
        }
    }
}

/// A row that only one of two maps has, and the rows behind it there.
#[derive(Clone, Copy, Drop)]
pub(crate) struct Lone<'a> {
    pub row: &'a Row,
    pub behind: &'a [Row],
}

/// Adds a row that isn't found.
fn push_lone<'a>(
    lone: &mut Vec<Lone<'a>>,
    found: Option<&Row>,
    row: &'a Row,
    behind: &'a [Row],
) -> Result<(), AllocError>
    ensures { OnOk result (all_standing lone.new.items ≡ all_standing lone.old.items ++ lone_if (option_copied found.entry) row.now behind.now) }
{
    match found {
        Some(_) => Ok(()),
        None => {
            lone.push(Lone { row, behind })?;
            Ok(())
        }
    }
}

/// The rows that have no row under their paths among the others.
#[tactic(auto, using(crate::proofs::Walks::one_lone))]
pub(crate) fn lone_rows<'a>(
    alloc: Global,
    rows: &'a [Row],
    paths: &Paths<'a>,
    others: &ByPath<'_>,
) -> Result<Vec<Lone<'a>>, AllocError>
    ensures { IfOk result (λ alone. all_standing alone.items ≡ lone (path_in paths.now) (row_under others.now) rows.now) }
{
    let mut alone = Vec::new(alloc);
    let mut names = Vec::with_capacity(alloc, USUAL)?;
    let mut rest = rows;
    'rows: while let [row, behind @ ..] = rest {
        put_path(alloc, &mut names, paths, row)?;
        push_lone(&mut alone, others.get(names.as_slice()), row, behind)?;
        rest = behind;
    }
    Ok(alone)
}
