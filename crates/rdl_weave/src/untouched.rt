//! Which statements no edit touched.
ghost use Rattle.std.specs.Prelude.{◌≡◌, ◌+◌, ◌++◌, ◌∷◌, [], true, false, MatchOption, OnOk};
ghost use Rattle.rdl_tree.specs.Items.{no_items};
ghost use Rattle.rdl_tree.specs.View.{add};
ghost use Rattle.rdl_origin.specs.View.{traces_of};
ghost use Rattle.rdl_weave.specs.Untouched as spec;
ghost use Rattle.rdl_weave.specs.Untouched.{sizes_of, is_now, behind};

use rdl_origin::origin::{Origin, Origins};
use rdl_tree::description::{Body, Item};
use std::alloc::AllocError;

/// Appends for each item of a body, in pre-order, how many items it and what is inside it are.
#[cycle(sizes)]
pub(crate) fn push_sizes(sizes: &mut Vec<u64>, body: &Body) -> Result<(), AllocError>
    ensures { OnOk result (sizes.new.items ≡ sizes.old.items ++ sizes_of body.now) }
{
    'items: for item in body.as_slice() {
        push_item_sizes(sizes, item)?;
    }
    Ok(())
}

#[cycle(sizes)]
fn push_item_sizes(sizes: &mut Vec<u64>, item: &Item) -> Result<(), AllocError>
    ensures { OnOk result (sizes.new.items ≡ sizes.old.items ++ sizes_of (add item.now no_items)) }
{
    sizes.push(item.count())?;
    match item.own_body() {
        Some(body) => push_sizes(sizes, body),
        None => Ok(()),
    }
}

/// Whether what the item of this number and what is inside it are ends before a number.
fn ends_before(sizes: &[u64], number: u64, end: u64) -> bool
    ensures { result ≡ spec.ends_before sizes.now number end }
{
    match sizes.get(number as usize) {
        Some(size) => u128::from(number) + u128::from(*size) == u128::from(end),
        None => false,
    }
}

/// The number behind this one, if it is the one that the item has in the last map.
fn next_of(now: Option<u32>, number: u64) -> Option<u64>
    ensures { MatchOption result (is_now number now ≡ false) (λ next. (is_now number now ≡ true) × (next ≡ number + 1)) }
{
    match now {
        Some(now) if u64::from(now) == number => Some(u64::from(now) + 1),
        _ => None,
    }
}

/// The number behind those of the item and what is inside it.
#[cycle(behind)]
#[tactic(auto, using(crate::proofs::Behind::behind_touched, crate::proofs::Behind::behind_other, crate::proofs::Behind::behind_none, crate::proofs::Behind::behind_some, crate::proofs::Behind::behind_longer))]
pub(crate) fn behind_item(sizes: &[u64], number: u64, origin: &Origin) -> Option<u64>
    ensures { result ≡ behind sizes.now number (traces_of (origin.entry.now ∷ [])) }
{
    if origin.is_touched {
        return None;
    }
    let Some(next) = next_of(origin.now, number) else {
        return None;
    };
    let Some(end) = behind_all(sizes, next, origin.inside.as_slice()) else {
        return None;
    };
    if ends_before(sizes, number, end) {
        Some(end)
    } else {
        None
    }
}

/// The number behind those of the items and what is inside them.
#[cycle(behind)]
fn behind_all(sizes: &[u64], number: u64, origins: &[Origin]) -> Option<u64>
    ensures { result ≡ behind sizes.now number (traces_of origins.now) }
{
    let mut next = number;
    'origins: for origin in origins {
        next = behind_item(sizes, next, origin)?;
    }
    Some(next)
}

/// Whether no edit touched a statement of so many items, which these are.
pub(crate) fn is_untouched(sizes: &[u64], items: usize, origins: &[Origin]) -> bool
    ensures { result ≡ spec.is_untouched sizes.now items origins.now }
{
    let [first, ..] = origins else {
        return false;
    };
    if origins.len() != items {
        return false;
    }
    match first.now {
        Some(number) => behind_all(sizes, u64::from(number), origins).is_some(),
        None => false,
    }
}
