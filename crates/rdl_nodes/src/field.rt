//! The bodies of fields that are written where they are instantiated.
ghost use Rattle.std.specs.Prelude.{◌≡◌};
ghost use Rattle.rdl_nodes.specs.Bodies.{after_own_item, shallow_weight};
ghost use Rattle.rdl_seen.specs.Contents.{own_weight};
ghost use Rattle.rdl_seen.specs.Values.{own_values};
ghost use Rattle.rdl_tree.specs.Weight.{capped};

use rdl_seen::values::{Access, Values};
use rdl_tree::description::{Body, Item, Of};
use std::marker::Model;

/// What is kept of the body of a field that is written where it is instantiated. A contract sees the record of `rdl_seen`.
#[derive(Clone, Copy, Debug, PartialEq, Eq)]
pub struct FieldBody {
    /// In bits.
    width: Option<u8>,
    access: Option<Access>,
    /// How many bits its reset needs.
    reset: Option<u8>,
    /// Its items, at most 2^30.
    count: u32,
    /// What these weigh, at most 2^31.
    weight: u32,
}

impl Model for FieldBody {
    ghost use Rattle.rdl_seen.specs.Slots.{FieldBody};
    ghost use Rattle.rdl_nodes.specs.Codes.{coded_field};

    ghost Value = { FieldBody };

    ghost coded = { coded_field };

    ghost view = { λ f. record { width = f.width; access = f.access; reset = f.reset; count = f.count; weight = f.weight } };

    ghost inverse = { λ f. record { width = f.width; access = f.access; reset = f.reset; count = f.count; weight = f.weight } };
}

/// States what an own assignment states; another item states nothing.
fn put_own(own: &mut Values, item: &Item)
    ensures { own.new ≡ after_own_item item.now own.old }
{
    if let Item::Own(name, value) = item {
        own.put_named(name, value);
    }
}

/// What the own assignments among the items of a body state.
pub fn own_values(body: &Body) -> Values
    ensures { result ≡ own_values body.now }
{
    let mut own = Values::none();
    for item in body.as_slice() {
        put_own(&mut own, item);
    }
    own
}

/// What an item weighs but for what is inside it.
fn shallow_weight(item: &Item) -> u64
    ensures { result ≡ capped (shallow_weight item.now) }
{
    match item {
        Item::Define(name, _) => (name.len() as u64).saturating_add(1),
        Item::Instance(shell, Of::Anonymous(_)) => (shell.name().len() as u64).saturating_add(1),
        Item::Instance(shell, Of::Named(name)) => {
            let names = (shell.name().len() as u64).saturating_add(name.len() as u64);
            names.saturating_add(1)
        }
        _ => item.weight(),
    }
}

/// What the items of a body weigh but for what is inside them, at most 2^31.
pub fn own_weight(body: &Body) -> u32
    ensures { result ≡ own_weight body.now }
{
    let mut weight = 0u64;
    for item in body.as_slice() {
        weight = weight.saturating_add(shallow_weight(item));
    }
    weight.min(1 << 31) as u32
}

/// What the own assignments of a body state, and what its items weigh but for what is inside them.
#[derive(Clone, Copy)]
pub(crate) struct Own {
    pub values: Values,
    /// At most 2^31.
    pub weight: u32,
}

/// Both, told while the items are gone along once.
pub(crate) fn own_of(body: &Body) -> Own
    ensures values { result.values ≡ own_values body.now }
    ensures weight { result.weight ≡ own_weight body.now }
{
    let mut values = Values::none();
    let mut weight = 0u64;
    for item in body.as_slice() {
        put_own(&mut values, item);
        weight = weight.saturating_add(shallow_weight(item));
    }
    Own {
        values,
        weight: weight.min(1 << 31) as u32,
    }
}

impl FieldBody {
    ghost use Rattle.std.specs.Prelude.{◌≡◌};
    ghost use Rattle.rdl_seen.specs.Contents.{field_of};

    /// That of a field whose body this is.
    pub fn of(body: &Body) -> FieldBody
        ensures { result ≡ field_of body.now }
    {
        let own = own_values(body);
        FieldBody {
            width: own.fieldwidth,
            access: own.sw,
            reset: own.reset,
            count: body.len().min(1 << 30) as u32,
            weight: own_weight(body),
        }
    }

    /// In bits, if it is stated.
    pub fn width(self) -> Option<u8>
        ensures { result ≡ self.width }
    {
        self.width
    }

    /// How software accesses it, if that is stated.
    pub fn access(self) -> Option<Access>
        ensures { result ≡ self.access }
    {
        self.access
    }

    /// How many bits its reset needs, if one is stated.
    pub fn reset(self) -> Option<u8>
        ensures { result ≡ self.reset }
    {
        self.reset
    }

    /// Its items, at most 2^30.
    pub fn count(self) -> u32
        ensures { result ≡ self.count }
    {
        self.count
    }

    /// What these weigh, at most 2^31.
    pub fn weight(self) -> u32
        ensures { result ≡ self.weight }
    {
        self.weight
    }
}
