//! The items of a statement while its words are read.
ghost use Rattle.rdl_parse.specs.Finds.{seen, single, weight_of};
ghost use Rattle.rdl_parse.specs.Gathering.{finished, held, gather, next_of};
ghost use Rattle.rdl_tree.specs.ItemWeight.{item_weight};
ghost use Rattle.rdl_tree.specs.Weight.{capped};
ghost use Rattle.rdl_tree.specs.declared.description.Item.{Item};
ghost use Rattle.std.specs.Prelude.{◌≡◌, [], Some, option_map, IfOk, sum_by};

use crate::found::{Found, Spot};
use crate::room::Room;
use rdl_tree::description::{Item, Of};
use rdl_tree::shell::Shell;
use std::alloc::{AllocError, Global};

/// Items for which there is room, and the room that they leave.
#[derive(Drop)]
pub struct Gathered {
    pub(crate) found: Found,
    pub(crate) room: Room,
}

#[inline(always)]
fn weigh(items: &[Item]) -> u64
    ensures { result ≡ capped (weight_of items.now) }
{
    let mut sum = 0u64;
    'items: for item in items {
        sum = sum.saturating_add(item.weight());
    }
    sum
}

/// The weight that an instance would have.
#[inline(always)]
fn instance_weight(shell: &Shell, of: &Of) -> u64
    ensures { result ≡ capped (item_weight (Item.Instance shell.now of.now)) }
{
    let name = (shell.name().len() as u64).saturating_add(1);
    match of {
        Of::Named(type_name) => name.saturating_add(type_name.len() as u64),
        Of::Anonymous(component) => name.saturating_add(component.body.weight()),
    }
}

/// What the next instance is of, if there is one.
#[inline(always)]
pub(crate) fn next(again: bool, of: Of) -> Option<Of>
    ensures { result ≡ next_of again of }
{
    if again { Some(of) } else { None }
}

#[inline(always)]
fn copy_for_next(alloc: Global, again: bool, of: &Of) -> Result<Option<Of>, AllocError>
    ensures { IfOk result (λ next. next ≡ next_of again of.now) }
{
    if again {
        Ok(Some(of.try_copy(alloc)?))
    } else {
        Ok(None)
    }
}

/// The room that one item leaves with nothing inside it, if there is room for it.
#[inline(always)]
pub(crate) fn room_behind(room: Room, item: &Item) -> Option<Room>
    ensures { option_map (λ left. (single item.now 0 [], left)) result ≡ held room (single item.now 0 []) }
{
    let weight = item.weight();
    if room.items == 0 || weight > u64::from(room.weight) {
        return None;
    }
    Some(Room {
        items: room.items - 1,
        weight: room.weight - weight as u32,
    })
}

impl Gathered {
    /// The items, if there is room for them.
    #[inline(always)]
    pub(crate) fn new(room: Room, found: Found) -> Option<Gathered>
        ensures { option_map finished result ≡ held room (seen found) }
    {
        let weight = weigh(&found.items);
        if found.spots.len() > room.items || weight > u64::from(room.weight) {
            return None;
        }
        let room = Room {
            items: room.items - found.spots.len(),
            weight: room.weight - weight as u32,
        };
        Some(Gathered { found, room })
    }

    /// These items and one instance more, if there is room for it. Where there is to be one of the same behind it, what it is
    /// of is handed back for that: it is copied only where there is room.
    #[inline(always)]
    pub(crate) fn with_instance(
        self,
        alloc: Global,
        shell: Shell,
        of: Of,
        left: usize,
        inner: &[Spot],
        again: bool,
    ) -> Result<(Option<Gathered>, Option<Of>), AllocError>
        ensures kept { IfOk result (λ r. option_map finished r.0 ≡ gather (Some (finished self)) (single (Item.Instance shell of) left inner.now)) }
        ensures next { IfOk result (λ r. r.1 ≡ next_of again of) }
    {
        let Gathered { mut found, room } = self;
        let weight = instance_weight(&shell, &of);
        if inner.len() >= room.items || weight > u64::from(room.weight) {
            return Ok((None, next(again, of)));
        }
        let next = copy_for_next(alloc, again, &of)?;
        found.push(Item::Instance(shell, of), left, inner)?;
        let room = Room {
            items: room.items - (inner.len() + 1),
            weight: room.weight - weight as u32,
        };
        Ok((Some(Gathered { found, room }), next))
    }
}
