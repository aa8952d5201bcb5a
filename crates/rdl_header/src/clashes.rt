//! Macros of one name.
ghost use Rattle.std.specs.Prelude.{◌≡◌, IfOk, option_map};
ghost use Rattle.std.specs.List.{All};
ghost use Rattle.rdl_header.specs.HeaderText.{first_clash};
ghost use Rattle.rdl_header.specs.Lines.{IsCut, named};

use crate::keyed::Keyed;
use crate::stretch::{Stretch, part};
use indexmap::IndexMap;
use std::alloc::{AllocError, Global};

/// The first of the names in the text that is the same as one before it.
pub(crate) fn first_clash<'a>(
    alloc: Global,
    text: &'a str,
    names: &[Stretch],
) -> Result<Option<&'a str>, AllocError>
    requires { All (IsCut text.now) names.now }
    ensures { IfOk result (λ clash. option_map (λ name. name.now) clash ≡ first_clash (named text.now names.now)) }
{
    let mut known: IndexMap<&'a str, (), Keyed> = IndexMap::with_capacity_and_hasher(
        alloc,
        names.len(),
        Keyed::by(text),
    )?;
    'names: for stretch in names {
        let name = part(text, *stretch);
        let before = known.insert(name, ())?;
        if before.is_some() {
            return Ok(Some(name));
        }
    }
    Ok(None)
}
