//! The origins before any step back, and those of an item that was removed.
ghost use Rattle.std.specs.Prelude.{◌≡◌, ◌+◌, IfOk, OnOk};
ghost use Rattle.rdl_tree.specs.Items.{no_items, count};
ghost use Rattle.rdl_tree.specs.View.{add};
ghost use Rattle.rdl_origin.specs.Numbered.{capped, numbered, numbered_item, unnumbered, unnumbered_item};

use crate::origin::{Origin, Origins};
use rdl_tree::description::{Body, Item};
use std::alloc::{AllocError, Global};

/// The items of the body, each as itself, numbered in pre-order from `next` on. That becomes the number behind them.
#[cycle(numbered)]
pub(crate) fn numbered(alloc: Global, body: &Body, next: &mut u32) -> Result<Origins, AllocError>
    ensures origins { IfOk result (λ origins. origins ≡ numbered next.old body.now) }
    ensures next { OnOk result (capped next.new ≡ capped (next.old + count body.now)) }
{
    let mut list = Vec::with_capacity(alloc, body.len())?;
    'items: for item in body.as_slice() {
        list.push(numbered_item(alloc, item, next)?)?;
    }
    Ok(Origins { list })
}

#[cycle(numbered)]
fn numbered_item(alloc: Global, item: &Item, next: &mut u32) -> Result<Origin, AllocError>
    ensures origin { IfOk result (λ origin. origin ≡ numbered_item next.old item.now) }
    ensures next { OnOk result (capped next.new ≡ capped (next.old + count (add item.now no_items))) }
{
    let now = *next;
    *next = next.saturating_add(1);
    let inside = match item.own_body() {
        Some(body) => numbered(alloc, body, next)?,
        None => Origins::none(alloc),
    };
    Ok(Origin {
        now: Some(now),
        is_touched: false,
        is_moved: false,
        inside,
    })
}

/// The items of a body that was removed.
#[cycle(unnumbered)]
fn unnumbered(alloc: Global, body: &Body) -> Result<Origins, AllocError>
    ensures { IfOk result (λ origins. origins ≡ unnumbered body.now) }
{
    let mut list = Vec::with_capacity(alloc, body.len())?;
    'items: for item in body.as_slice() {
        list.push(unnumbered_item(alloc, item)?)?;
    }
    Ok(Origins { list })
}

/// An item that was removed.
#[cycle(unnumbered)]
pub(crate) fn unnumbered_item(alloc: Global, item: &Item) -> Result<Origin, AllocError>
    ensures { IfOk result (λ origin. origin ≡ unnumbered_item item.now) }
{
    let inside = match item.own_body() {
        Some(body) => unnumbered(alloc, body)?,
        None => Origins::none(alloc),
    };
    Ok(Origin {
        now: None,
        is_touched: false,
        is_moved: false,
        inside,
    })
}
