//! The definitions in scope, as a walk goes down.
ghost use Rattle.std.specs.Prelude.{◌≡◌};
ghost use Rattle.rdl_scope.specs.Scopes.{level_found, scope_found};

use crate::names::Names;

/// The level and number of the innermost definition of the name.
fn level_found<'a>(levels: &[Names<'a>], name: &'a str) -> Option<(usize, usize)>
    ensures { result ≡ level_found 0 levels.now name.now }
{
    let (level, outer) = levels.split_last()?;
    match level.get(name) {
        Some(number) => Some((outer.len(), number)),
        None => level_found(outer, name),
    }
}

/// The same, where these are the definitions of the innermost level.
pub(crate) fn scope_found<'a>(
    levels: &[Names<'a>],
    definitions: &Names<'a>,
    name: &'a str,
) -> Option<(usize, usize)>
    ensures { result ≡ scope_found levels.now definitions.now name.now }
{
    match definitions.get(name) {
        Some(number) => Some((levels.len(), number)),
        None => level_found(levels, name),
    }
}
