//! Paths as texts.
ghost use Rattle.std.specs.Prelude.{◌≡◌, ◌++◌, ◌∷◌, [], codes, flat_map, map, string_bytes, OnOk};
ghost use Rattle.rdl_list.specs.ListText.{path_text};
ghost use Rattle.rdl_diff.specs.Alike.{behind_text, last_name};
ghost use Rattle.rdl_diff.specs.ByPath.{texts};
ghost use Rattle.rdl_diff.specs.DiffText.{listed};
ghost use Rattle.rdl_diff.specs.Seen.{path_seen};

use std::alloc::AllocError;

/// Appends names with a dot before each.
fn push_dotted(text: &mut String, names: &[&str]) -> Result<(), AllocError>
    ensures { OnOk result (string_bytes text.new ≡ string_bytes text.old ++ flat_map (λ n. codes "." ++ n) (texts names.now)) }
{
    'names: for name in names {
        write!(text, ".{name}")?;
    }
    Ok(())
}

/// Appends the names of a path but for the first; a dot alone where it has none.
pub(crate) fn push_behind(text: &mut String, path: &[&str]) -> Result<(), AllocError>
    ensures { OnOk result (string_bytes text.new ≡ string_bytes text.old ++ behind_text (texts path.now)) }
{
    match path {
        [] => text.push_str("."),
        [_, names @ ..] => push_dotted(text, names),
    }
}

/// Appends the last name of a path, or a dot.
pub(crate) fn push_last(text: &mut String, path: &[&str]) -> Result<(), AllocError>
    ensures { OnOk result (string_bytes text.new ≡ string_bytes text.old ++ last_name (texts path.now)) }
{
    match path {
        [] => text.push_str("."),
        [.., last] => text.push_str(*last),
    }
}

/// Appends names with dots between them, or a dot where there is none.
pub(crate) fn push_names(text: &mut String, path: &[&str]) -> Result<(), AllocError>
    ensures { OnOk result (string_bytes text.new ≡ string_bytes text.old ++ path_text (texts path.now)) }
{
    match path {
        [] => text.push_str("."),
        [first, names @ ..] => {
            text.push_str(*first)?;
            push_dotted(text, names)
        }
    }
}

/// Appends paths, each behind a comma.
fn push_other_paths(text: &mut String, paths: &[Vec<&str>]) -> Result<(), AllocError>
    ensures { OnOk result (string_bytes text.new ≡ string_bytes text.old ++ flat_map (λ p. codes ", " ++ path_text (path_seen p)) paths.now) }
{
    'paths: for path in paths {
        text.push_str(", ")?;
        push_names(text, path.as_slice())?;
    }
    Ok(())
}

/// Appends the first of paths and others.
fn push_first(text: &mut String, first: &[&str], others: &[Vec<&str>]) -> Result<(), AllocError>
    ensures { OnOk result (string_bytes text.new ≡ string_bytes text.old ++ (path_text (texts first.now) ++ flat_map (λ p. codes ", " ++ path_text (path_seen p)) others.now)) }
{
    push_names(text, first)?;
    push_other_paths(text, others)
}

/// Appends paths with commas between them.
pub(crate) fn push_listed_paths(text: &mut String, paths: &[Vec<&str>]) -> Result<(), AllocError>
    ensures { OnOk result (string_bytes text.new ≡ string_bytes text.old ++ listed (map path_text (map path_seen paths.now))) }
{
    match paths {
        [] => Ok(()),
        [first, others @ ..] => push_first(text, first.as_slice(), others),
    }
}
