//! The items of a body of the last map, each with the statement of the source that it came from.

use crate::untouched::behind_item;
use rdl_origin::origin::{Origin, Origins};
use rdl_source::statement::Statements;
use rdl_tree::description::Body;
use std::alloc::{AllocError, Global};

/// What a body was before it was edited: its items, what became of each, and its statements in the source.
#[derive(Clone, Copy)]
pub(crate) struct Past<'a> {
    pub(crate) body: &'a Body,
    pub(crate) origins: &'a Origins,
    pub(crate) statements: &'a Statements,
}

/// An item of a body of the last map.
#[derive(Clone, Copy)]
pub(crate) struct Member {
    /// Its number in its body, and that in pre-order of the whole map.
    pub(crate) item: usize,
    pub(crate) number: u64,
    /// Its statement of the source, by number, if it came from one.
    pub(crate) statement: Option<usize>,
    /// The number of the item that it was, among those of its body and among those of its statement.
    pub(crate) origin: usize,
    pub(crate) offset: usize,
    pub(crate) is_moved: bool,
    /// Whether no edit changed it, or anything inside.
    pub(crate) is_intact: bool,
}

/// The statement of an item of the source's body, and the item's number among those of the statement.
#[derive(Clone, Copy)]
struct Owner {
    statement: usize,
    offset: usize,
}

/// The statement of each of so many items.
fn owners(alloc: Global, statements: &Statements, len: usize) -> Result<Vec<Owner>, AllocError> {
    let mut list = Vec::new(alloc);
    'statements: for (number, statement) in statements.as_slice().iter().enumerate() {
        'items: for offset in 0..statement.items {
            if list.len() >= len {
                break;
            }
            list.push(Owner {
                statement: number,
                offset,
            })?;
        }
    }
    Ok(list)
}

/// An item of the source's body that is still there, by its number in the last map.
#[derive(Clone, Copy)]
struct Place {
    number: u64,
    origin: usize,
}

/// The items that are still there, in the order of the last map.
fn places(alloc: Global, origins: &[Origin]) -> Result<Vec<Place>, AllocError> {
    let mut list = Vec::new(alloc);
    'origins: for (index, origin) in origins.iter().enumerate() {
        if let Some(now) = origin.now {
            list.push(Place {
                number: u64::from(now),
                origin: index,
            })?;
        }
    }
    list.as_mut_slice()
        .sort_unstable_by_key(|place: &Place| place.number);
    Ok(list)
}

/// The item that has this number in the last map.
fn origin_of(places: &[Place], number: u64) -> Option<usize> {
    match places.binary_search_by_key(&number, |place: &Place| place.number) {
        Ok(at) => match places.get(at) {
            Some(place) => Some(place.origin),
            None => None,
        },
        Err(_) => None,
    }
}

/// The items of a body whose first item has this number.
pub(crate) fn members(
    alloc: Global,
    past: Past<'_>,
    last: &Body,
    begin: u64,
    sizes: &[u64],
) -> Result<Vec<Member>, AllocError> {
    let origins = past.origins.as_slice();
    let owners = owners(alloc, past.statements, origins.len())?;
    let places = places(alloc, origins)?;
    let mut list = Vec::new(alloc);
    let mut number = begin;
    'items: for (index, item) in last.as_slice().iter().enumerate() {
        list.push(member_of(
            origins,
            owners.as_slice(),
            places.as_slice(),
            index,
            number,
            sizes,
        ))?;
        number = number.saturating_add(item.count());
    }
    Ok(list)
}

fn member_of(
    origins: &[Origin],
    owners: &[Owner],
    places: &[Place],
    item: usize,
    number: u64,
    sizes: &[u64],
) -> Member {
    let new = Member {
        item,
        number,
        statement: None,
        origin: 0,
        offset: 0,
        is_moved: false,
        is_intact: false,
    };
    let Some(origin) = origin_of(places, number) else {
        return new;
    };
    match (owners.get(origin), origins.get(origin)) {
        (Some(owner), Some(was)) => Member {
            item,
            number,
            statement: Some(owner.statement),
            origin,
            offset: owner.offset,
            is_moved: was.is_moved,
            is_intact: behind_item(sizes, number, was).is_some(),
        },
        _ => new,
    }
}
