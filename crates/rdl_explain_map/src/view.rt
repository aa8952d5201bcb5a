//! A description, and where its items stand.

use crate::path_text::PathText;
use crate::telling::Telling;
use crate::text_fault::{SourceLine, line_of};
use rdl_parse::parse::parse;
use rdl_parse::places::{ItemPlace, Places};
use rdl_scope::types::{own_component, type_of};
use rdl_text::place;
use rdl_tree::address::Address;
use rdl_tree::description::{Body, Component, Description, Item, Of};
use rdl_tree::find::item_at;
use rdl_tree::shell::Kind;
use std::alloc::{AllocError, Global};
use std::str;

/// A map as it was read, with the places of its items. What later edits leave alone still stands there.
#[derive(Drop)]
pub struct Source {
    text: String,
    description: Description,
    /// Those of the items in pre-order.
    places: Vec<ItemPlace>,
}

/// The byte at which the word of the item at an address begins.
fn start_at(places: &[ItemPlace], address: &[usize]) -> Option<usize> {
    let mut body = places;
    let mut start = None;
    for number in address {
        for _ in 0..*number {
            let item = body.first()?;
            body = body.get(item.inside.saturating_add(1)..)?;
        }
        let item = body.first()?;
        start = Some(item.start);
        body = body.get(1..)?;
    }
    start
}

impl Source {
    /// The map that the bytes spell; none where they spell none.
    pub fn of(alloc: Global, bytes: &[u8]) -> Result<Option<Source>, AllocError> {
        let Ok(text) = str::from_utf8(bytes) else {
            return Ok(None);
        };
        match parse(alloc, text) {
            Ok((description, places)) => Ok(Some(Source {
                text: String::from_str(alloc, text)?,
                description,
                places: places.as_slice().to_vec(alloc)?,
            })),
            Err(_) => Ok(None),
        }
    }

    /// The line of this number.
    pub fn line(&self, number: usize) -> SourceLine<'_> {
        line_of(self.text.as_bytes(), number)
    }

    /// The line and the column of the word of the item at an address.
    fn place_at(&self, address: &Address) -> Option<(usize, usize)> {
        let start = start_at(self.places.as_slice(), address.as_slice())?;
        Some(place(self.text.as_str(), start))
    }

    /// Where the item with the same names stands in the text, as the item of another description at this address.
    fn place(&self, description: &Description, address: &[usize]) -> Option<(usize, usize)> {
        let mut here = &description.items;
        let mut there = &self.description.items;
        let mut found = Address::new();
        let mut rest = address.len();
        for number in address {
            let item = here.item(*number)?;
            let same = there
                .as_slice()
                .iter()
                .position(|other| is_alike(item, other))?;
            found = behind(&found, same)?;
            rest = rest.saturating_sub(1);
            if rest == 0 {
                return self.place_at(&found);
            }
            here = here.inner(*number)?;
            there = there.inner(same)?;
        }
        None
    }
}

/// Whether two instances are of one type, or have each a component of the same kind.
fn is_of_same(of: &Of, other: &Of) -> bool {
    match (of, other) {
        (Of::Named(name), Of::Named(defined)) => name == defined,
        (Of::Anonymous(component), Of::Anonymous(body)) => component.kind == body.kind,
        _ => false,
    }
}

/// Whether two items are of one sort and have one name.
fn is_alike(item: &Item, other: &Item) -> bool {
    match (item, other) {
        (Item::Define(name, component), Item::Define(defined, body)) => {
            name == defined && component.kind == body.kind
        }
        (Item::Instance(shell, of), Item::Instance(instance, other)) => {
            shell.name() == instance.name() && is_of_same(of, other)
        }
        (Item::Own(name, _), Item::Own(property, _)) => name == property,
        (Item::Default(name, _), Item::Default(property, _)) => name == property,
        _ => false,
    }
}

/// The address of the item of this number in the body at an address.
pub fn behind(address: &Address, number: usize) -> Option<Address> {
    if address.len() < Address::MAX_LEN {
        Some(address.inside(number))
    } else {
        None
    }
}

/// The address with these numbers, as far as one goes.
pub fn address_of(numbers: &[usize]) -> Address {
    let mut address = Address::new();
    for number in numbers {
        if address.len() < Address::MAX_LEN {
            address.push(*number);
        }
    }
    address
}

/// Where the items of a description stand.
#[derive(Clone, Copy)]
pub enum Standing<'a> {
    Nowhere,
    /// In the text that spells the description.
    Own(&'a Places<'a>),
    /// Some of them in a text from which it came by edits.
    Source(&'a Source),
}

/// A map with the name that is asked of its top, and the text from which it was read, if that is kept.
#[derive(Clone, Copy)]
pub struct Met<'a> {
    pub description: &'a Description,
    pub top: Option<&'a str>,
    pub source: Option<&'a Source>,
}

impl<'a> Met<'a> {
    /// The map as its faults are told, whose text is this file.
    pub fn view(self, alloc: Global, file: &'a str) -> View<'a> {
        View {
            alloc,
            file,
            description: self.description,
            top: self.top,
            standing: match self.source {
                Some(source) => Standing::Source(source),
                None => Standing::Nowhere,
            },
        }
    }
}

/// What is known of a map where something is wrong.
#[derive(Clone, Copy)]
pub struct View<'a> {
    pub alloc: Global,
    /// The path of the text in which items stand.
    pub file: &'a str,
    pub description: &'a Description,
    /// The name that is asked of the top.
    pub top: Option<&'a str>,
    pub standing: Standing<'a>,
}

/// The numbers of the body around an item, and its number there.
pub fn around(address: &[usize]) -> (&[usize], usize) {
    match address.split_last() {
        Some((number, body)) => (body, *number),
        None => (&[], 0),
    }
}

impl<'a> View<'a> {
    /// The same of another description.
    pub fn with(self, description: &'a Description) -> View<'a> {
        View {
            alloc: self.alloc,
            file: self.file,
            description,
            top: self.top,
            standing: self.standing,
        }
    }

    pub fn item(&self, address: &[usize]) -> Option<&'a Item> {
        item_at(&self.description.items, address)
    }

    /// The body at an address.
    pub fn body(&self, address: &[usize]) -> Option<&'a Body> {
        self.description.body(&address_of(address))
    }

    /// The component of the item at an address: its own, or that of its type.
    pub fn component(&self, address: &[usize]) -> Option<&'a Component> {
        let item = self.item(address)?;
        match own_component(item) {
            Some(component) => Some(component),
            None => own_component(self.item(self.type_of(address)?.as_slice())?),
        }
    }

    pub fn kind(&self, address: &[usize]) -> Option<Kind> {
        Some(self.component(address)?.kind)
    }

    /// Where the type of the item at an address is defined.
    pub fn type_of(&self, address: &[usize]) -> Option<Address> {
        type_of(self.description, &address_of(address))
    }

    pub fn path<'v>(&'v self, address: &'v [usize]) -> PathText<'v> {
        PathText {
            description: self.description,
            address,
        }
    }

    /// The line and the column at which the item at an address stands, if that is known.
    pub fn place(&self, address: &[usize]) -> Option<(usize, usize)> {
        match self.standing {
            Standing::Nowhere => None,
            Standing::Own(places) => places.at(&address_of(address)),
            Standing::Source(source) => source.place(self.description, address),
        }
    }

    /// Notes where an item stands and what to do about it.
    pub fn note_standing(
        &self,
        telling: &mut Telling,
        address: &[usize],
        cure: &str,
    ) -> Result<(), AllocError> {
        let mut note = String::new(self.alloc);
        if let Some((line, column)) = self.place(address) {
            let name = self.title(address)?;
            write!(note, "{name} stands at {}:{line}:{column}", self.file)?;
        }
        if !note.is_empty() && !cure.is_empty() {
            note.push_str("; ")?;
        }
        note.push_str(cure)?;
        if note.is_empty() {
            return Ok(());
        }
        telling.note(note.as_str())
    }

    /// What an item is called in a sentence: its path, or the property that it assigns.
    pub fn title(&self, address: &[usize]) -> Result<String, AllocError> {
        let mut title = String::new(self.alloc);
        match self.item(address) {
            Some(Item::Own(property, _)) => write!(title, "`{property}`")?,
            Some(Item::Default(property, _)) => write!(title, "`default {property}`")?,
            Some(Item::Dynamic(_, property, _)) => write!(title, "the assignment of `{property}`")?,
            _ => write!(title, "{}", self.path(address))?,
        }
        Ok(title)
    }
}
