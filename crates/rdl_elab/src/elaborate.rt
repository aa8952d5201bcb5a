//! The rows of a map, or its first fault.
ghost use Rattle.std.specs.Prelude.{◌≡◌, ℕ, ◌⊎◌, ◌∷◌, ◌≤◌, [], nat_lt, Ok, Err, Some, None, IfOk, IfErr, OnOk, option_copied, option_map, slice_get, drop};
ghost use Rattle.std.specs.Option.{option_or};
ghost use Rattle.rdl_tree.specs.Depth.{depth};
ghost use Rattle.rdl_scope.specs.Closed.{component};
ghost use Rattle.rdl_scope.specs.ItemFaults.{fault_at, fault_of, out_of_memory};
ghost use Rattle.rdl_elab.specs.Faults.{has_name, top_from, elaborated, under_top};
ghost use Rattle.rdl_elab.specs.Known.{HasRows};
ghost use Rattle.rdl_elab.specs.Tops.{top_at};
ghost use Rattle.rdl_tree.specs.View.{items_of};
ghost use Rattle.rdl_elab.specs.FinishedRows.{finished_map_fault, finished_top_row, finished_around_top, told_below, rows_unless, finished_rows_or_fault, finished_answer};

use crate::layout::Mode;
use crate::row::{Extent, LeadingNames, Location, NamesAround, Row, RowPath, Rows};
use crate::row_values::{LastReset, RowValues};
use crate::rows::{Around, add_rows};
use crate::walk::finished::Finished;
use crate::walk::instances::mode_inside;
use crate::walk::lay_out_item;
use rdl_scope::faults::check;
use rdl_text::name::Name;
use rdl_tree::address::Address;
use rdl_tree::description::{Description, Item};
use rdl_tree::fault::{Fault, FaultKind};
use rdl_tree::shell::Kind;
use std::alloc::{AllocError, Global};
use std::marker::Model;
use std::rc::Rc;

/// The most bytes that a map may have.
const MAX_SIZE: u64 = 1 << 40;

fn no_top() -> Fault
    ensures { result ≡ record { kind = FaultKind.NoTop; address = [] } }
{
    Fault {
        kind: FaultKind::NoTop,
        address: Address::new(),
    }
}

fn fault_at(address: &Address, kind: FaultKind) -> Fault
    ensures { result ≡ record { kind = kind; address = address.now } }
{
    Fault {
        kind,
        address: address.copy(),
    }
}

/// A definition of an address map among the items of the root. A contract sees its number and its name.
#[derive(Drop)]
pub struct Top<'a> {
    pub number: usize,
    pub name: &'a Name,
}

impl<'a> Model for Top<'a> {
    ghost use Rattle.std.specs.Prelude.{ℕ, List};

    ghost Value = { ℕ × List ℕ };

    ghost view = { λ t. (t.number, t.name.now) };
}

fn has_name(wanted: Option<&str>, name: &Name) -> bool
    ensures { result ≡ has_name (option_copied wanted.entry) name.now }
{
    match wanted {
        Some(text) => name.as_str() == text,
        None => true,
    }
}

/// Item `number` of the root, if it may be the top.
fn top_at<'a>(number: usize, item: &'a Item, wanted: Option<&str>) -> Option<Top<'a>>
    ensures { result ≡ top_at (option_copied wanted.entry) number item.now }
{
    match item {
        Item::Define(name, component)
            if component.kind == Kind::Addrmap && has_name(wanted, name) => {
            Some(Top { number, name })
        }
        _ => None,
    }
}

/// The later of the two, if it is there.
fn later<'a>(first: Option<Top<'a>>, second: Option<Top<'a>>) -> Option<Top<'a>>
    ensures { result ≡ option_or second.entry first.entry }
{
    match second {
        Some(top) => Some(top),
        None => first,
    }
}

/// The top: the last of them.
fn last_top<'a>(items: &'a [Item], wanted: Option<&str>) -> Option<Top<'a>>
    ensures { result ≡ top_from (option_copied wanted.entry) 0 (items_of items.now) }
{
    let mut last = None;
    'items: for (i, item) in items.iter().enumerate() {
        last = later(last, top_at(i, item, wanted));
    }
    last
}

/// What is wrong with a map, but for single rows, whose top is this component.
fn map_fault(at: &Address, top: &Finished) -> Option<Fault>
    ensures { result ≡ finished_map_fault at.now top.now }
{
    if top.levels >= 16 {
        return Some(fault_at(at, FaultKind::TooManyLevels));
    }
    if top.rows >= 65_536 {
        return Some(fault_at(at, FaultKind::TooManyRows));
    }
    match &top.first_empty {
        Some(first) => Some(fault_at(&first.address(), FaultKind::EmptyComponent)),
        None if top.layouts.under(Mode::Regalign).size > MAX_SIZE => Some(fault_at(
            at,
            FaultKind::MapTooLarge,
        )),
        None => None,
    }
}

fn top_row(alloc: Global, name: &Name, top: &Finished) -> Result<Row, AllocError>
    ensures { IfOk result (λ row. row ≡ finished_top_row name.now top.now) }
{
    let size = top.layouts.under(Mode::Regalign).size;
    let around = Rc::new(alloc, NamesAround::none(alloc))?;
    Ok(Row {
        names: RowPath::new(LeadingNames::new(around), name.try_copy(alloc)?),
        kind: top.kind,
        base: 0,
        location: Location::Bytes(Extent::single(0, size)),
        values: RowValues::of(top.shown.share()?),
    })
}

fn top_rows(alloc: Global, name: &Name, top: &Finished) -> Result<Vec<Row>, AllocError>
    ensures { IfOk result (λ rows. rows.items ≡ finished_top_row name.now top.now ∷ []) }
{
    let mut rows = Vec::with_capacity(alloc, top.rows.saturating_add(1))?;
    rows.push(top_row(alloc, name, top)?)?;
    Ok(rows)
}

fn around_top<'r, 'a>(
    alloc: Global,
    name: &Name,
    top: &'r Finished<'a>,
) -> Result<Around<'r, 'a>, AllocError>
    ensures { IfOk result (λ around. around ≡ finished_around_top name.now top.now) }
{
    let names = Rc::new(alloc, NamesAround::none(alloc).inside(alloc, name)?)?;
    Ok(Around {
        mode: mode_inside(top.kind, top.values, Mode::Regalign),
        names: LeadingNames::new(names),
        base: 0,
        bits: 0,
        reaching: top.assignments.as_slice(),
    })
}

/// The rows of the map whose top is this component, or the fault of the first that has one.
fn rows_below<'a>(
    alloc: Global,
    components: &[Finished<'a>],
    name: &Name,
    top: &Finished<'a>,
) -> Result<Result<Rows, Fault>, AllocError>
    ensures { IfOk result (λ answer. answer ≡ rows_unless (told_below components.now name.now top.now).fault (told_below components.now name.now top.now).rows) }
{
    let mut rows = top_rows(alloc, name, top)?;
    let around = around_top(alloc, name, top)?;
    let spans = top.layouts.under(Mode::Regalign).spans.as_slice();
    let parts = top.parts.as_slice();
    let mut last = LastReset::none();
    match add_rows(
        alloc, components, &around, spans, parts, 16, &mut last, &mut rows,
    )? {
        Some(fault) => Ok(Err(fault.to_fault())),
        None => Ok(Ok(Rows::from_vec(rows))),
    }
}

/// The rows of the map whose top is this component, defined at this address, or its first fault.
fn rows_or_fault<'a>(
    alloc: Global,
    components: &[Finished<'a>],
    at: &Address,
    name: &Name,
    top: &Finished<'a>,
) -> Result<Result<Rows, Fault>, AllocError>
    ensures { IfOk result (λ answer. answer ≡ finished_rows_or_fault components.now at.now name.now top.now) }
{
    match map_fault(at, top) {
        Some(fault) => Ok(Err(fault)),
        None => rows_below(alloc, components, name, top),
    }
}

fn finished_at<'c, 'a>(components: &'c [Finished<'a>], number: usize) -> Option<&'c Finished<'a>>
    ensures { option_copied result ≡ slice_get components.now number }
{
    components.get(number)
}

/// The rows of the map whose top has the component of this number, or the first fault; no top, where there is no such component.
fn rows_of<'a>(
    alloc: Global,
    components: &[Finished<'a>],
    number: usize,
    at: &Address,
    name: &Name,
) -> Result<Result<Rows, Fault>, AllocError>
    ensures { IfOk result (λ answer. answer ≡ finished_answer components.now at.now name.now (slice_get components.now number)) }
{
    match finished_at(components, number) {
        Some(top) => rows_or_fault(alloc, components, at, name, top),
        None => Ok(Err(no_top())),
    }
}

/// The rows of the map with this top, whose component has this number among them, or the first fault.
fn rows_under<'a>(
    alloc: Global,
    components: &[Finished<'a>],
    number: usize,
    top: &Top,
) -> Result<Result<Rows, Fault>, AllocError>
    ensures { IfOk result (λ answer. answer ≡ finished_answer components.now (top.now.0 ∷ []) top.now.1 (slice_get components.now number)) }
{
    let at = Address::new().inside(top.number);
    rows_of(alloc, components, number, &at, top.name)
}

/// The rows of the map with this top of the description, whose component is laid out here, or the first fault.
fn under_top(
    alloc: Global,
    description: &Description,
    top: &Top,
) -> Result<Result<Rows, Fault>, AllocError>
    requires nesting { depth description.now.items ≤ 16 }
    requires faultless { fault_of description.now.items ≡ None }
    ensures { IfOk result (λ answer. answer ≡ under_top description.now.items (top.now.0 ∷ []) top.now.1 (component description.now.items (top.now.0 ∷ []))) }
{
    match lay_out_item(alloc, description, top.number)? {
        Some(walked) => {
            let components = walked.components.as_slice();
            rows_under(alloc, components, walked.number, top)
        }
        None => Ok(Err(no_top())),
    }
}

/// The last definition of an address map among the items of the root, of this name if there is one.
pub fn find_top<'a>(description: &'a Description, wanted: Option<&str>) -> Option<Top<'a>>
    ensures { result ≡ top_from (option_copied wanted.entry) 0 description.now.items }
{
    last_top(description.items.as_slice(), wanted)
}

/// The top of a map that is known to have rows.
fn known_top<'a>(description: &'a Description, wanted: Option<&str>) -> Top<'a>
    requires { HasRows description.now.items (option_copied wanted) }
    ensures faultless { fault_of description.now.items ≡ None }
    ensures nesting { depth description.now.items ≤ 16 }
    ensures top { top_from (option_copied wanted.entry) 0 description.now.items ≡ Some result }
{
    match find_top(description, wanted) {
        Some(top) => top,
        None => unreachable!(),
    }
}

/// The top of a description whose items have no fault. Otherwise E13.
fn top_of<'a>(description: &'a Description, wanted: Option<&str>) -> Result<Top<'a>, Fault>
    requires { fault_of description.now.items ≡ None }
    ensures top { IfOk result (λ top. top_from (option_copied wanted.entry) 0 description.now.items ≡ Some top) }
    ensures err { IfErr result (λ fault. elaborated description.now.items (option_copied wanted.entry) ≡ Err fault) }
{
    match find_top(description, wanted) {
        Some(top) => Ok(top),
        None => Err(no_top()),
    }
}

/// The top, if no item has a fault. Otherwise the first fault: those of `rdl_scope::faults::check`, and E13.
fn checked_top<'a>(
    alloc: Global,
    description: &'a Description,
    wanted: Option<&str>,
) -> Result<Top<'a>, Fault>
    ensures faultless { OnOk result (fault_of description.now.items ≡ None) }
    ensures nesting { OnOk result (depth description.now.items ≤ 16) }
    ensures top { IfOk result (λ top. top_from (option_copied wanted.entry) 0 description.now.items ≡ Some top) }
    ensures err { IfErr result (λ fault. (elaborated description.now.items (option_copied wanted.entry) ≡ Err fault) ⊎ (fault ≡ out_of_memory)) }
{
    check(alloc, description)?;
    top_of(description, wanted)
}

/// The rows of a map that is known to have them. Its items aren't checked again.
pub fn known_rows(
    alloc: Global,
    description: &Description,
    wanted: Option<&str>,
) -> Result<Rows, AllocError>
    requires { HasRows description.now.items (option_copied wanted) }
    ensures { IfOk result (λ rows. elaborated description.now.items (option_copied wanted.entry) ≡ Ok rows) }
{
    let top = known_top(description, wanted);
    match under_top(alloc, description, &top)? {
        Ok(rows) => Ok(rows),
        Err(_) => unreachable!(),
    }
}

/// The rows of the map whose top is the last definition of an address map among the items of the root, of this name
/// if there is one.
///
/// Otherwise its first fault: those of `rdl_scope::faults::check`, E13 to E17 in this order, and E18 to E23 of the first
/// row that has one, the lower number first.
pub fn elaborate(alloc: Global, description: &Description, top: Option<&str>) -> Result<Rows, Fault>
    ensures ok { IfOk result (λ rows. elaborated description.now.items (option_copied top.entry) ≡ Ok rows) }
    ensures err { IfErr result (λ fault. (elaborated description.now.items (option_copied top.entry) ≡ Err fault) ⊎ (fault ≡ out_of_memory)) }
{
    let top = checked_top(alloc, description, top)?;
    match under_top(alloc, description, &top) {
        Ok(answer) => answer,
        Err(_) => Err(Fault {
            kind: FaultKind::Memory,
            address: Address::new(),
        }),
    }
}
