//! What assignments state of the seven properties on which layouts and the faults of rows depend.
ghost use Rattle.std.specs.Prelude.{◌≡◌, ◌∷◌};
ghost use Rattle.rdl_seen.specs.Values.{mode_of, number_of, width_of, access_of, bit_count, reset_bits, no_values, put, put_named, over, of_kind, stated, register_bits, access_bits, field_bits, access};

use crate::mode::Mode;
use crate::property_set::PropertySet;
use rdl_text::name::Name;
use rdl_text::token::Number;
use rdl_tree::properties::property;
use rdl_tree::property::Property;
use rdl_tree::shell::Kind;
use rdl_tree::value::{Value, Word};

/// How software accesses a field, as far as fields that share bits are judged by it.
#[derive(Clone, Copy, Debug, PartialEq, Eq)]
pub enum Access {
    OnlyReads,
    OnlyWrites,
    Other,
}

/// What is stated of the seven properties, each if it is.
#[derive(Clone, Copy, Debug, PartialEq, Eq)]
pub struct Values {
    pub addressing: Option<Mode>,
    /// In bytes.
    pub alignment: Option<u64>,
    /// In bits, as the next two.
    pub regwidth: Option<u8>,
    pub accesswidth: Option<u8>,
    pub fieldwidth: Option<u8>,
    pub sw: Option<Access>,
    /// How many bits the reset needs.
    pub reset: Option<u8>,
}

fn mode_of(value: &Value) -> Option<Mode>
    ensures { result ≡ mode_of value.now }
{
    match value {
        Value::Word(Word::Compact) => Some(Mode::Compact),
        Value::Word(Word::Regalign) => Some(Mode::Regalign),
        Value::Word(Word::Fullalign) => Some(Mode::Fullalign),
        _ => None,
    }
}

fn number_of(value: &Value) -> Option<u64>
    ensures { result ≡ number_of value.now }
{
    match value {
        Value::Number(number) if *number <= 1 << 40 => Some(*number as u64),
        _ => None,
    }
}

fn width_of(value: &Value) -> Option<u8>
    ensures { result ≡ width_of value.now }
{
    match value {
        Value::Number(number) if *number <= 128 => Some(*number as u8),
        _ => None,
    }
}

/// How software accesses a field with this value of `sw`.
pub fn access_of(value: &Value) -> Access
    ensures { result ≡ access_of value.now }
{
    match value {
        Value::Word(Word::R) => Access::OnlyReads,
        Value::Word(Word::W) => Access::OnlyWrites,
        Value::Word(Word::W1) => Access::OnlyWrites,
        _ => Access::Other,
    }
}

/// How many bits a number needs.
pub fn bit_count(number: Number) -> u8
    ensures { result ≡ bit_count number }
{
    (128 - number.leading_zeros()) as u8
}

/// How many bits a value of `reset` needs.
pub fn reset_bits(value: &Value) -> Option<u8>
    ensures { result ≡ reset_bits value.now }
{
    match value {
        Value::Number(number) => Some(bit_count(*number)),
        _ => None,
    }
}

impl Values {
    /// Nothing is stated.
    pub fn none() -> Values
        ensures { result ≡ no_values }
    {
        Values {
            addressing: None,
            alignment: None,
            regwidth: None,
            accesswidth: None,
            fieldwidth: None,
            sw: None,
            reset: None,
        }
    }

    /// States the value of a property in the place of what was stated. A value that the property doesn't take states nothing.
    pub fn put(&mut self, property: Property, value: &Value)
        ensures { self.new ≡ put property value.now self.old }
    {
        match property {
            Property::Addressing => self.addressing = mode_of(value),
            Property::Alignment => self.alignment = number_of(value),
            Property::Regwidth => self.regwidth = width_of(value),
            Property::Accesswidth => self.accesswidth = width_of(value),
            Property::Fieldwidth => self.fieldwidth = width_of(value),
            Property::Sw => self.sw = Some(access_of(value)),
            Property::Reset => self.reset = reset_bits(value),
            _ => {}
        }
    }

    /// States the value of the property of this name, if there is one.
    pub fn put_named(&mut self, name: &Name, value: &Value)
        ensures { self.new ≡ put_named name.now value.now self.old }
    {
        if let Some(property) = property(name.as_str()) {
            self.put(property, value);
        }
    }

    /// What is stated here, and for the rest what is stated there.
    pub fn over(self, outer: &Values) -> Values
        ensures { result ≡ over self outer.now }
    {
        Values {
            addressing: self.addressing.or(outer.addressing),
            alignment: self.alignment.or(outer.alignment),
            regwidth: self.regwidth.or(outer.regwidth),
            accesswidth: self.accesswidth.or(outer.accesswidth),
            fieldwidth: self.fieldwidth.or(outer.fieldwidth),
            sw: self.sw.or(outer.sw),
            reset: self.reset.or(outer.reset),
        }
    }

    /// What is stated of the properties that a component of this kind has.
    pub fn of_kind(self, kind: Kind) -> Values
        ensures { result ≡ of_kind kind self }
    {
        let none = Values::none();
        match kind {
            Kind::Addrmap => Values {
                addressing: self.addressing,
                alignment: self.alignment,
                ..none
            },
            Kind::Regfile => Values {
                alignment: self.alignment,
                ..none
            },
            Kind::Reg => Values {
                regwidth: self.regwidth,
                accesswidth: self.accesswidth,
                ..none
            },
            Kind::Field => Values {
                fieldwidth: self.fieldwidth,
                sw: self.sw,
                reset: self.reset,
                ..none
            },
        }
    }

    /// Of which properties something is stated.
    pub fn stated(&self) -> PropertySet
        ensures { result ≡ stated self.now }
    {
        PropertySet::of_if(self.addressing.is_some(), Property::Addressing)
            .with(PropertySet::of_if(self.alignment.is_some(), Property::Alignment))
            .with(PropertySet::of_if(self.regwidth.is_some(), Property::Regwidth))
            .with(PropertySet::of_if(self.accesswidth.is_some(), Property::Accesswidth))
            .with(PropertySet::of_if(self.fieldwidth.is_some(), Property::Fieldwidth))
            .with(PropertySet::of_if(self.sw.is_some(), Property::Sw))
            .with(PropertySet::of_if(self.reset.is_some(), Property::Reset))
    }

    /// The bits of a register with these values.
    pub fn register_bits(&self) -> u64
        ensures { result ≡ register_bits self.now }
    {
        u64::from(self.regwidth.unwrap_or(32))
    }

    /// The bits of one access to a register with these values.
    pub fn access_bits(&self) -> u64
        ensures { result ≡ access_bits self.now }
    {
        match self.accesswidth {
            Some(bits) => u64::from(bits),
            None => self.register_bits(),
        }
    }

    /// The bits of a field with these values.
    pub fn field_bits(&self) -> u64
        ensures { result ≡ field_bits self.now }
    {
        u64::from(self.fieldwidth.unwrap_or(1))
    }

    /// How software accesses a field with these values.
    pub fn access(&self) -> Access
        ensures { result ≡ access self.now }
    {
        self.sw.unwrap_or(Access::Other)
    }
}
