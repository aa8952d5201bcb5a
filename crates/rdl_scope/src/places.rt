//! Where the components of instances stand.
ghost use Rattle.std.specs.Prelude.{◌≡◌, ◌<◌, ◌++◌, ◌∷◌, [], length, take, option_copied};
ghost use Rattle.rdl_tree.specs.Address.{body_at};
ghost use Rattle.rdl_tree.specs.ItemAt.{item_at};
ghost use Rattle.rdl_scope.specs.ItemFaults.{kind_at};
ghost use Rattle.rdl_scope.specs.Scopes.{along_place, place_held, kind_held, scope_found};

use crate::by_name::ByName;
use crate::levels::scope_found;
use crate::names::Names;
use crate::types::{own_component, prefix};
use rdl_text::is_same;
use rdl_tree::address::Address;
use rdl_tree::description::{Body, Description, Item, Of};
use rdl_tree::shell::Kind;
use std::alloc::{AllocError, Global};

/// An item as a body at some address sees it: its number in the body that is so deep along the address.
#[derive(Clone, Copy)]
pub(crate) struct VisibleItem {
    pub(crate) depth: usize,
    pub(crate) number: usize,
}

/// The name of an instance that was looked up, and the place of its component.
#[derive(Clone, Copy)]
pub(crate) struct Met<'a> {
    pub(crate) name: &'a str,
    pub(crate) place: VisibleItem,
}

/// The places of the components of instances, under the instances' names.
#[derive(Drop)]
pub(crate) struct Places<'a> {
    places: ByName<'a, VisibleItem>,
}

impl<'a> Places<'a> {
    ghost use Rattle.std.specs.Prelude.{◌≡◌, ℕ, List, None, IfOk, IfSome, OnOk};
    ghost use Rattle.std.specs.Option.{is_some};
    ghost use Rattle.rdl_scope.specs.Scopes.{IsMet, place_under, place_put};

    /// No places, where so many are awaited.
    pub(crate) fn with_room(alloc: Global, places: usize) -> Result<Places<'a>, AllocError>
        ensures { IfOk result (λ places. (q : List ℕ) → place_under places q ≡ None) }
    {
        Ok(Places {
            places: ByName::with_room(alloc, places)?,
        })
    }

    pub(crate) fn get(&self, name: &'a str) -> Option<VisibleItem>
        ensures { result ≡ place_under self.now name.now }
    {
        self.places.get(name)
    }

    /// The place under the name, which may be the one that was met last. It is met then.
    pub(crate) fn meet(&self, name: &'a str, met: &mut Option<Met<'a>>) -> Option<VisibleItem>
        requires { IfSome met.old (IsMet self.now) }
        ensures place { result ≡ place_under self.now name.now }
        ensures met { IfSome met.new (IsMet self.now) }
    {
        if let Some(met) = met {
            if is_same(met.name, name) {
                return Some(met.place);
            }
        }
        let place = self.get(name)?;
        *met = Some(Met { name, place });
        Some(place)
    }

    /// Puts the place, if there is one, under the name, and answers whether one was there.
    pub(crate) fn note(
        &mut self,
        name: &'a str,
        place: Option<VisibleItem>,
    ) -> Result<bool, AllocError>
        ensures twice { IfOk result (λ twice. twice ≡ is_some (place_under self.old name.now)) }
        ensures noted { OnOk result ((q : List ℕ) → place_under self.new q ≡ place_put name.now q place (place_under self.old q)) }
    {
        match place {
            Some(place) => Ok(self.places.put(name, place)?.is_some()),
            None => Ok(self.get(name).is_some()),
        }
    }
}

/// The address of a place along the address of a body.
pub(crate) fn address_of(at: &Address, place: VisibleItem) -> Address
    requires { length at.now < 17 }
    ensures { result ≡ along_place at.now place }
{
    prefix(at.as_slice(), place.depth).inside(place.number)
}

/// The item of this number in the body that is so deep along the path.
fn item_along<'a>(body: &'a Body, path: &[usize], depth: usize, number: usize) -> Option<&'a Item>
    ensures { option_copied result ≡ item_at (take depth path.now ++ number ∷ []) body.now }
{
    match path {
        [first, rest @ ..] if depth > 0 => {
            item_along(body.inner(*first)?, rest, depth - 1, number)
        }
        _ => body.item(number),
    }
}

/// The body of the component of this number in the body that is so deep along the path.
fn body_along<'a>(body: &'a Body, path: &[usize], depth: usize, number: usize) -> Option<&'a Body>
    ensures { option_copied result ≡ body_at (take depth path.now ++ number ∷ []) body.now }
{
    match path {
        [first, rest @ ..] if depth > 0 => {
            body_along(body.inner(*first)?, rest, depth - 1, number)
        }
        _ => body.inner(number),
    }
}

/// The body of the component at this place.
pub(crate) fn body_of_place<'a>(
    description: &'a Description,
    at: &Address,
    place: VisibleItem,
) -> Option<&'a Body>
    ensures { option_copied result ≡ body_at (along_place at.now place) description.now.items }
{
    body_along(&description.items, at.as_slice(), place.depth, place.number)
}

pub(crate) fn kind_of_place(
    description: &Description,
    at: &Address,
    place: VisibleItem,
) -> Option<Kind>
    ensures { result ≡ kind_at description.now.items (along_place at.now place) }
{
    let item = item_along(&description.items, at.as_slice(), place.depth, place.number)?;
    Some(own_component(item)?.kind)
}

/// The place of the component of item `n` of the body at this address, which is an instance of this.
pub(crate) fn place_of<'a>(
    at: &Address,
    n: usize,
    of: &'a Of,
    levels: &[Names<'a>],
    definitions: &Names<'a>,
) -> Option<VisibleItem>
    ensures { result ≡ place_held at.now n of.now (scope_found levels.now definitions.now) }
{
    match of {
        Of::Named(name) => {
            let (depth, number) = scope_found(levels, definitions, name.as_str())?;
            Some(VisibleItem { depth, number })
        }
        Of::Anonymous(_) => Some(VisibleItem {
            depth: at.len(),
            number: n,
        }),
    }
}

/// The kind of the component at this place, that of an instance of this.
pub(crate) fn kind_of(
    description: &Description,
    at: &Address,
    of: &Of,
    place: Option<VisibleItem>,
) -> Option<Kind>
    ensures { result ≡ kind_held description.now.items at.now of.now place }
{
    match of {
        Of::Named(_) => kind_of_place(description, at, place?),
        Of::Anonymous(component) => Some(component.kind),
    }
}
