//! What is odd of the items of a description, in their order.

use crate::keyword::is_keyword_elsewhere;
use rdl_explain_map::view::behind;
use rdl_scope::values::own_value;
use rdl_text::token::Number;
use rdl_tree::address::Address;
use rdl_tree::description::{Body, Component, Item, Of};
use rdl_tree::properties::property;
use rdl_tree::property::Property;
use rdl_tree::shell::{Kind, Shell};
use rdl_tree::value::Value;
use std::alloc::{AllocError, Global};

/// What is odd of an item.
#[derive(Clone, Copy, Debug, PartialEq, Eq, Drop)]
pub(crate) enum Oddity {
    /// Its name is a keyword of SystemRDL 2.0.
    Keyword,
    /// Its `reset` does nothing, as the instance of its component has this one.
    Covered(Number),
    /// It is a default that no component behind it has.
    Lost,
    /// It is a register at this address, which is no multiple of the bytes of an access.
    Unaligned(Number, Number),
}

/// An item of which something is odd.
#[derive(Drop)]
pub(crate) struct Odd {
    pub(crate) address: Address,
    pub(crate) oddity: Oddity,
}

/// The item of this number in the body at an address.
#[derive(Clone, Copy)]
struct Spot<'a> {
    around: &'a Address,
    number: usize,
}

impl Spot<'_> {
    fn address(self) -> Option<Address> {
        behind(self.around, self.number)
    }
}

/// What is found, as far as it is told.
#[derive(Drop)]
pub(crate) struct Findings {
    pub(crate) told: Vec<Odd>,
    /// How many are told at most.
    most: usize,
    /// How many there are.
    pub(crate) count: usize,
}

impl Findings {
    pub(crate) fn new(alloc: Global, most: usize) -> Findings {
        Findings {
            told: Vec::new(alloc),
            most,
            count: 0,
        }
    }

    fn add(&mut self, spot: Spot<'_>, oddity: Oddity) -> Result<(), AllocError> {
        self.count = self.count.saturating_add(1);
        if self.count > self.most {
            return Ok(());
        }
        if let Some(address) = spot.address() {
            self.told.push(Odd { address, oddity })?;
        }
        Ok(())
    }
}

/// Whether one of these items has a component that has the property, or in which one stands that has it, so many levels deep.
#[cycle(reached)]
fn is_reached(items: &[Item], property: Property, levels: usize) -> bool {
    for item in items {
        if is_reached_at(item, property, levels) {
            return true;
        }
    }
    false
}

#[cycle(reached)]
fn is_reached_at(item: &Item, property: Property, levels: usize) -> bool {
    if levels == 0 {
        return false;
    }
    match item {
        Item::Define(_, component) => {
            property.on(component.kind)
                || is_reached(component.body.as_slice(), property, levels - 1)
        }
        Item::Instance(_, Of::Anonymous(component)) => {
            property.on(component.kind)
                || is_reached(component.body.as_slice(), property, levels - 1)
        }
        _ => false,
    }
}

/// Whether a default before these items reaches none of their components.
fn is_lost(name: &str, items: &[Item]) -> bool {
    match property(name) {
        Some(property) => !is_reached(items, property, Address::MAX_LEN),
        None => false,
    }
}

fn is_own(item: &Item, name: &str) -> bool {
    match item {
        Item::Own(property, _) => property.as_str() == name,
        _ => false,
    }
}

/// The number of the item of a body that assigns a property to its component.
fn own_number(body: &Body, name: &str) -> Option<usize> {
    for (number, item) in body.as_slice().iter().enumerate() {
        if is_own(item, name) {
            return Some(number);
        }
    }
    None
}

/// The number that a property of this name has, as an item sets it for its component.
fn own_bits(component: &Component, name: &str) -> Option<Number> {
    match own_value(&component.body, name) {
        Some(Value::Number(bits)) => Some(*bits),
        _ => None,
    }
}

/// The defaults of the two widths of registers, where an item stands.
#[derive(Clone, Copy, Drop)]
pub(crate) struct Widths {
    regwidth: Option<Number>,
    accesswidth: Option<Number>,
}

impl Widths {
    /// Where no default stands before.
    pub(crate) fn none() -> Widths {
        Widths {
            regwidth: None,
            accesswidth: None,
        }
    }

    /// Those behind an item.
    fn behind(self, item: &Item) -> Widths {
        let Item::Default(name, Value::Number(bits)) = item else {
            return self;
        };
        match name.as_str() {
            "regwidth" => Widths {
                regwidth: Some(*bits),
                accesswidth: self.accesswidth,
            },
            "accesswidth" => Widths {
                regwidth: self.regwidth,
                accesswidth: Some(*bits),
            },
            _ => self,
        }
    }

    /// The bits of an access of a register here.
    fn access_bits(self, register: &Component) -> Number {
        own_bits(register, "accesswidth")
            .or(self.accesswidth)
            .or(own_bits(register, "regwidth"))
            .or(self.regwidth)
            .unwrap_or(32)
    }
}

/// What is odd of where a register stands.
fn misplaced(shell: &Shell, component: &Component, widths: Widths) -> Option<Oddity> {
    let address = shell.address()?;
    let bytes = widths.access_bits(component) / 8;
    if bytes > 0 && component.kind == Kind::Reg && address % bytes != 0 {
        Some(Oddity::Unaligned(address, bytes))
    } else {
        None
    }
}

/// Looks at an instance with a component of its own.
fn seek_shell(
    findings: &mut Findings,
    shell: &Shell,
    component: &Component,
    spot: Spot<'_>,
    widths: Widths,
) -> Result<(), AllocError> {
    if let Some(oddity) = misplaced(shell, component, widths) {
        findings.add(spot, oddity)?;
    }
    let (Some(reset), Some(number)) = (shell.reset(), own_number(&component.body, "reset")) else {
        return Ok(());
    };
    match spot.address() {
        Some(around) => {
            let inside = Spot {
                around: &around,
                number,
            };
            findings.add(inside, Oddity::Covered(reset))
        }
        None => Ok(()),
    }
}

fn seek_name(findings: &mut Findings, name: &str, spot: Spot<'_>) -> Result<(), AllocError> {
    if is_keyword_elsewhere(name) {
        findings.add(spot, Oddity::Keyword)?;
    }
    Ok(())
}

fn seek_default(
    findings: &mut Findings,
    name: &str,
    rest: &[Item],
    spot: Spot<'_>,
) -> Result<(), AllocError> {
    if is_lost(name, rest) {
        findings.add(spot, Oddity::Lost)?;
    }
    Ok(())
}

/// Looks at the items of the body at an address, before which these defaults stand, so many levels deep.
#[cycle(seek)]
pub(crate) fn seek(
    findings: &mut Findings,
    body: &Body,
    around: &Address,
    before: Widths,
    levels: usize,
) -> Result<(), AllocError> {
    let mut widths = before;
    let items = body.as_slice();
    for (number, item) in items.iter().enumerate() {
        let rest = items.get(number..).unwrap_or(&[]);
        let spot = Spot { around, number };
        seek_item(findings, item, rest, spot, widths, levels)?;
        widths = widths.behind(item);
    }
    Ok(())
}

/// Looks at an item, with which these begin.
#[cycle(seek)]
fn seek_item(
    findings: &mut Findings,
    item: &Item,
    rest: &[Item],
    spot: Spot<'_>,
    widths: Widths,
    levels: usize,
) -> Result<(), AllocError> {
    if levels == 0 {
        return Ok(());
    }
    let body = match item {
        Item::Define(name, component) => {
            seek_name(findings, name.as_str(), spot)?;
            &component.body
        }
        Item::Instance(shell, Of::Anonymous(component)) => {
            seek_name(findings, shell.name().as_str(), spot)?;
            seek_shell(findings, shell, component, spot, widths)?;
            &component.body
        }
        Item::Instance(shell, Of::Named(_)) => {
            return seek_name(findings, shell.name().as_str(), spot);
        }
        Item::Default(name, _) => return seek_default(findings, name.as_str(), rest, spot),
        _ => return Ok(()),
    };
    match spot.address() {
        Some(address) => seek(findings, body, &address, widths, levels - 1),
        None => Ok(()),
    }
}
