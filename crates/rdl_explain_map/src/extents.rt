//! Where the instances of a component lie, also in a map that has a fault.

use crate::view::{View, around, behind};
use rdl_scope::shells::product;
use rdl_scope::types::reference;
use rdl_scope::values::own_value;
use rdl_text::name::Name;
use rdl_text::token::Number;
use rdl_tree::address::Address;
use rdl_tree::description::{Body, Item};
use rdl_tree::property::Property;
use rdl_tree::shell::{Kind, Shell};
use rdl_tree::value::{Value, Word};
use std::alloc::AllocError;

/// One more than the greatest address.
const LIMIT: Number = (1 << 40) + 1;

/// How instances are aligned.
#[derive(Clone, Copy, Debug, PartialEq, Eq)]
pub enum Mode {
    Compact,
    Regalign,
    Fullalign,
}

/// The size of a component and its widest access, in bytes; the size of a field is in bits.
#[derive(Clone, Copy, Debug)]
struct Measure {
    size: Number,
    access: Number,
}

/// Where an instance lies: in bytes, or the bits of a field.
#[derive(Clone, Copy, Debug)]
pub struct Extent {
    /// The number of the instance in its body.
    pub number: usize,
    pub start: Number,
    /// The first one behind it.
    pub end: Number,
    /// Of one element.
    pub size: Number,
    /// What its start is a multiple of, if it says no address.
    pub step: Number,
    /// Whether it says its address or its bits.
    pub is_fixed: bool,
    /// The widest access inside.
    pub access: Number,
}

impl Extent {
    pub fn meets(&self, other: &Extent) -> bool {
        self.start < other.end && other.start < self.end
    }
}

/// How many items are looked at before the search is given up.
#[derive(Drop)]
pub struct Work {
    left: usize,
}

impl Work {
    pub fn new() -> Work {
        Work { left: 4_000_000 }
    }

    /// Whether so many more may be looked at.
    fn may(&mut self, items: usize) -> bool {
        self.left = self.left.saturating_sub(items.saturating_add(1));
        self.left > 0
    }
}

/// The value of a property of the component that the item at an address holds: its own, or the nearest default.
pub fn value_at<'a>(view: View<'a>, address: &[usize], property: Property) -> Option<&'a Value> {
    let name = property.name();
    if let Some(body) = view.body(address) {
        if let Some(value) = own_value(body, name) {
            return Some(value);
        }
    }
    default_above(view, address, name)
}

/// The nearest default before the item at an address.
fn default_above<'a>(view: View<'a>, address: &[usize], name: &str) -> Option<&'a Value> {
    let mut rest = address;
    for _ in 0..address.len() {
        let (holder, number) = around(rest);
        if let Some(value) = default_before(view.body(holder)?, number, name) {
            return Some(value);
        }
        rest = holder;
    }
    None
}

/// The number of a property of the component that the item at an address holds, in a body that may have no defaults: then it isn't looked
/// through for each of its items.
fn number_in(
    view: View<'_>,
    address: &[usize],
    property: Property,
    is_plain: bool,
) -> Option<Number> {
    if !is_plain {
        return number_at(view, address, property);
    }
    let name = property.name();
    let own = own_value(view.body(address)?, name);
    match own.or(default_above(view, around(address).0, name)) {
        Some(Value::Number(number)) => Some(*number),
        _ => None,
    }
}

/// Whether no default stands in a body.
fn is_plain(body: &Body) -> bool {
    for item in body.as_slice() {
        if let Item::Default(..) = item {
            return false;
        }
    }
    true
}

fn default_before<'a>(body: &'a Body, number: usize, name: &str) -> Option<&'a Value> {
    let mut last = None;
    for item in body.as_slice().iter().take(number) {
        if let Item::Default(property, value) = item {
            if property.as_str() == name {
                last = Some(value);
            }
        }
    }
    last
}

pub fn number_at(view: View<'_>, address: &[usize], property: Property) -> Option<Number> {
    match value_at(view, address, property) {
        Some(Value::Number(number)) => Some(*number),
        _ => None,
    }
}

/// The mode of the instances of the address map at an address.
fn mode_of(view: View<'_>, address: &[usize]) -> Mode {
    match value_at(view, address, Property::Addressing) {
        Some(Value::Word(Word::Compact)) => Mode::Compact,
        Some(Value::Word(Word::Fullalign)) => Mode::Fullalign,
        _ => Mode::Regalign,
    }
}

/// The mode in which the instances of the body at an address are placed, as far as the text tells it.
pub fn mode_around(view: View<'_>, address: &[usize]) -> Mode {
    let mut rest = address;
    for _ in 0..address.len() {
        if view.kind(rest) == Some(Kind::Addrmap) {
            return mode_of(view, rest);
        }
        rest = around(rest).0;
    }
    Mode::Regalign
}

fn mode_inside(view: View<'_>, address: &[usize], kind: Kind, mode: Mode) -> Mode {
    match kind {
        Kind::Addrmap => mode_of(view, address),
        _ => mode,
    }
}

/// The bits of a register, and those of an access to it.
pub fn widths(view: View<'_>, address: &[usize]) -> (Number, Number) {
    widths_in(view, address, false)
}

/// The same in a body that may have no defaults.
fn widths_in(view: View<'_>, address: &[usize], is_plain: bool) -> (Number, Number) {
    let regwidth = number_in(view, address, Property::Regwidth, is_plain).unwrap_or(32);
    let access = number_in(view, address, Property::Accesswidth, is_plain).unwrap_or(regwidth);
    (regwidth, access)
}

fn capped(number: Number) -> Number {
    number.min(LIMIT)
}

/// A number whose multiples are those of both, as far as addresses go.
fn common_step(first: Number, second: Number) -> Number {
    let mut step = first.max(1).min(LIMIT);
    for _ in 0..41usize {
        if second <= 1 || step >= LIMIT || step.checked_rem(second) == Some(0) {
            return step;
        }
        step = capped(step.saturating_mul(2));
    }
    step
}

/// The least multiple of a step at or above a number.
pub fn next_multiple(number: Number, step: Number) -> Number {
    match number.checked_rem(step) {
        Some(over) if over > 0 => capped(number.saturating_add(step.saturating_sub(over))),
        _ => number,
    }
}

fn mode_alignment(mode: Mode, measure: Measure, shell: &Shell) -> Number {
    match mode {
        Mode::Compact => measure.access,
        Mode::Regalign => measure.size,
        Mode::Fullalign if shell.dims().is_empty() => measure.size,
        Mode::Fullalign => power_above(capped(measure.size.saturating_mul(product(shell.dims())))),
    }
}

/// The least power of two at or above a number.
fn power_above(number: Number) -> Number {
    let mut power = 1;
    for _ in 0..41usize {
        if power >= number {
            return power;
        }
        power = capped(power.saturating_mul(2));
    }
    power
}

/// Where an instance lies behind another that ends here.
fn place(
    number: usize,
    shell: &Shell,
    measure: Measure,
    mode: Mode,
    alignment: Number,
    end: Number,
) -> Extent {
    let natural = common_step(mode_alignment(mode, measure, shell), alignment);
    let step = match shell.align() {
        Some(align) => capped(align.max(1)),
        None => natural,
    };
    let start = match shell.address() {
        Some(address) => capped(address),
        None => next_multiple(end, step),
    };
    let elements = product(shell.dims());
    let stride = shell.stride().unwrap_or(measure.size);
    let before = elements.saturating_sub(1).saturating_mul(stride);
    let end = start.saturating_add(before).saturating_add(measure.size);
    Extent {
        number,
        start,
        end: capped(end),
        size: measure.size,
        step,
        is_fixed: shell.address().is_some(),
        access: measure.access,
    }
}

/// The bits of a field behind another that ends here.
fn place_bits(number: usize, shell: &Shell, width: Number, end: Number) -> Extent {
    let (start, end) = match (shell.range(), shell.dims()) {
        (Some((high, low)), _) => (low, high.saturating_add(1).max(low)),
        (None, [size, ..]) => (end, end.saturating_add(*size)),
        (None, []) => (end, end.saturating_add(width)),
    };
    Extent {
        number,
        start: capped(start),
        end: capped(end),
        size: width,
        step: 1,
        is_fixed: shell.range().is_some(),
        access: 0,
    }
}

/// What is known of the instance before, where it is of a type.
#[derive(Drop)]
struct Before<'a> {
    name: &'a Name,
    measure: Measure,
}

/// The measure of the instance before, where this one is of the same type.
fn same_measure(before: &Option<Before<'_>>, item: &Item) -> Option<Measure> {
    match (before, reference(Some(item))) {
        (Some(before), Some(name)) if before.name == name => Some(before.measure),
        _ => None,
    }
}

/// What is known of this instance for the next one.
fn known<'a>(item: &'a Item, measure: Measure) -> Option<Before<'a>> {
    Some(Before {
        name: reference(Some(item))?,
        measure,
    })
}

/// The measure of the component of the instance at an address, in a body that may have no defaults, so many levels deep.
#[cycle(measures)]
fn member_measure(
    view: View<'_>,
    item: &Item,
    at: &Address,
    mode: Mode,
    is_plain: bool,
    levels: usize,
    work: &mut Work,
) -> Result<Option<Measure>, AllocError> {
    let (_, number) = around(at.as_slice());
    if levels == 0 {
        return Ok(None);
    }
    if reference(Some(item)).is_none() {
        if !work.may(if is_plain { 0 } else { number }) {
            return Ok(None);
        }
        return component_measure(view, at, mode, is_plain, levels - 1, work);
    }
    if !work.may(number) || !work.may(view.description.items.len()) {
        return Ok(None);
    }
    match view.type_of(at.as_slice()) {
        Some(defined) => component_measure(view, &defined, mode, false, levels - 1, work),
        None => Ok(None),
    }
}

/// The measure of the component that the item at an address holds, whose kind is this, so many levels deep. The item stands in a body that
/// may have no defaults.
#[cycle(measures)]
fn component_measure(
    view: View<'_>,
    address: &Address,
    mode: Mode,
    is_plain: bool,
    levels: usize,
    work: &mut Work,
) -> Result<Option<Measure>, AllocError> {
    let at = address.as_slice();
    let Some(kind) = view.kind(at) else {
        return Ok(None);
    };
    match kind {
        Kind::Field => Ok(Some(Measure {
            size: number_in(view, at, Property::Fieldwidth, is_plain).unwrap_or(1),
            access: 0,
        })),
        Kind::Reg => {
            let (regwidth, access) = widths_in(view, at, is_plain);
            Ok(Some(Measure {
                size: regwidth / 8,
                access: access / 8,
            }))
        }
        Kind::Addrmap | Kind::Regfile => {
            let inner = mode_inside(view, at, kind, mode);
            let Some(extents) = extents_below(view, address, inner, levels, work)? else {
                return Ok(None);
            };
            Ok(Some(whole(extents.as_slice())))
        }
    }
}

fn whole(extents: &[Extent]) -> Measure {
    let mut measure = Measure { size: 0, access: 0 };
    for extent in extents {
        measure.size = measure.size.max(extent.end);
        measure.access = measure.access.max(extent.access);
    }
    measure
}

/// Where the instances of the component at an address lie, so many levels deep. None where a type isn't found, or the search
/// would take long.
#[cycle(measures)]
fn extents_below(
    view: View<'_>,
    address: &Address,
    mode: Mode,
    levels: usize,
    work: &mut Work,
) -> Result<Option<Vec<Extent>>, AllocError> {
    let here = address.as_slice();
    let (Some(body), Some(kind)) = (view.body(here), view.kind(here)) else {
        return Ok(None);
    };
    let alignment = number_at(view, here, Property::Alignment).unwrap_or(1);
    let is_plain = is_plain(body);
    let mut placing = Placing {
        kind,
        mode,
        alignment,
        end: 0,
        extents: Vec::new(view.alloc),
    };
    let mut before = None;
    for (number, item) in body.as_slice().iter().enumerate() {
        if let Item::Define(..) = item {
            before = None;
        }
        let Item::Instance(shell, _) = item else {
            continue;
        };
        let Some(at) = behind(address, number) else {
            return Ok(None);
        };
        let measured = match same_measure(&before, item) {
            Some(measured) => Some(measured),
            None => member_measure(view, item, &at, mode, is_plain, levels, work)?,
        };
        let Some(measured) = measured else {
            return Ok(None);
        };
        before = known(item, measured);
        placing.put(number, shell, measured)?;
    }
    Ok(Some(placing.extents))
}

/// The instances of a component that are placed so far.
#[derive(Drop)]
struct Placing {
    kind: Kind,
    mode: Mode,
    alignment: Number,
    /// Where the last one ends.
    end: Number,
    extents: Vec<Extent>,
}

impl Placing {
    fn put(&mut self, number: usize, shell: &Shell, measure: Measure) -> Result<(), AllocError> {
        let extent = match self.kind {
            Kind::Reg => place_bits(number, shell, measure.size, self.end),
            _ => place(number, shell, measure, self.mode, self.alignment, self.end),
        };
        self.end = extent.end;
        self.extents.push(extent)?;
        Ok(())
    }
}

/// Where the instances of the body at an address lie, if that is found soon.
pub fn extents_in(view: View<'_>, address: &Address) -> Result<Option<Vec<Extent>>, AllocError> {
    let mode = mode_around(view, address.as_slice());
    let mut work = Work::new();
    extents_below(view, address, mode, 17, &mut work)
}
