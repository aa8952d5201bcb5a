//! The places of the items of a description.
ghost use Rattle.std.specs.Prelude.{◌≡◌, ℕ, drop, take, map, IfOk};
ghost use Rattle.rdl_parse.specs.Places as spec;
ghost use Rattle.rdl_parse.specs.Places.{place_at, place_of, located};

use crate::found::Spot;
use rdl_text::list::Tokens;
use rdl_text::place;
use rdl_tree::address::Address;
use std::alloc::{AllocError, Global};
use std::marker::Model;

/// The byte at which the word of an item begins, and how many items are inside the item.
#[derive(Clone, Copy, Debug, PartialEq, Eq)]
pub struct ItemPlace {
    pub start: usize,
    pub inside: usize,
}

/// The places of all items of a description, in pre-order, over the text that spells it.
#[derive(Debug, Drop)]
pub struct Places<'a> {
    text: &'a str,
    places: Vec<ItemPlace>,
}

impl<'a> Model for Places<'a> {
    ghost use Rattle.rdl_parse.specs.Places.{Located};

    ghost Value = { Located };

    ghost view = { λ p. record { text = p.text.now; places = p.places.items } };
}

/// The byte at which the word begins from which on so many words are left.
pub(crate) fn start_of(words: &Tokens<'_>, left: usize) -> usize
    ensures { result ≡ spec.start_of words.now left }
{
    match words.start(words.len().saturating_sub(left)) {
        Some(start) => start,
        None => 0,
    }
}

fn past(places: &[ItemPlace], count: usize) -> &[ItemPlace]
    ensures { result.now ≡ drop count places.now }
{
    if count <= places.len() {
        &places[count..]
    } else {
        &[]
    }
}

fn front(places: &[ItemPlace], count: usize) -> &[ItemPlace]
    ensures { result.now ≡ take count places.now }
{
    if count <= places.len() {
        &places[..count]
    } else {
        places
    }
}

/// These places from the item of this number on. It goes past no more items than there are.
fn from_item(places: &[ItemPlace], number: usize) -> &[ItemPlace]
    ensures { result.now ≡ spec.from_item number places.now }
{
    let mut rest = places;
    'siblings: for _ in 0..number {
        match rest {
            [] => return rest,
            [first, others @ ..] => rest = past(others, first.inside),
        }
    }
    rest
}

fn inside_first(places: &[ItemPlace]) -> &[ItemPlace]
    ensures { result.now ≡ spec.inside_first places.now }
{
    match places {
        [] => places,
        [first, others @ ..] => front(others, first.inside),
    }
}

fn from_address<'p>(places: &'p [ItemPlace], number: usize, path: &[usize]) -> &'p [ItemPlace]
    ensures { result.now ≡ spec.from_address number path.now places.now }
{
    match path {
        [] => from_item(places, number),
        [next, others @ ..] => {
            from_address(inside_first(from_item(places, number)), *next, others)
        }
    }
}

fn start_at(places: &[ItemPlace], path: &[usize]) -> Option<usize>
    ensures { result ≡ spec.start_at path.now places.now }
{
    let [number, others @ ..] = path else {
        return None;
    };
    match from_address(places, *number, others) {
        [] => None,
        [first, ..] => Some(first.start),
    }
}

impl<'a> Places<'a> {
    /// The places of these spots among the words of the text.
    pub(crate) fn new(
        alloc: Global,
        text: &'a str,
        words: &Tokens<'_>,
        spots: &[Spot],
    ) -> Result<Places<'a>, AllocError>
        ensures { IfOk result (λ p. p ≡ located text.now words.now spots.now) }
    {
        let mut places = Vec::with_capacity(alloc, spots.len())?;
        'spots: for spot in spots {
            places.push(ItemPlace {
                start: start_of(words, spot.left),
                inside: spot.inside,
            })?;
        }
        Ok(Places { text, places })
    }

    /// The place of each item of the description, in pre-order: behind an item stand those that are inside it. Instances of
    /// one statement with a body each have the body's items inside, at the same bytes of the text.
    pub fn as_slice(&self) -> &[ItemPlace]
        ensures { result.now ≡ self.now.places }
    {
        self.places.as_slice()
    }

    /// The line and the column of the word of the item at an address: an instance's name, and the first word of the
    /// statement of any other item. There is none where the description has no item.
    ///
    /// It takes time by the length of the text, and no memory.
    pub fn at(&self, address: &Address) -> Option<(usize, usize)>
        ensures { result ≡ place_at address.now self.now }
    {
        match start_at(self.places.as_slice(), address.as_slice()) {
            Some(start) => Some(place(self.text, start)),
            None => None,
        }
    }
}
