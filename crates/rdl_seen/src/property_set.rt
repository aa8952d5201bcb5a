//! Sets of the seven properties on which layouts and the faults of rows depend.
ghost use Rattle.std.specs.Prelude.{◌≡◌};
ghost use Rattle.rdl_seen.specs.PropertySet.{bit_of, no_properties, set_of, set_if, set_named, kind_set, is_no_property, with_properties, without_properties, do_properties_meet};

use rdl_text::name::Name;
use rdl_tree::properties::property;
use rdl_tree::property::Property;
use rdl_tree::shell::Kind;

/// Some of the seven properties on which layouts and the faults of rows depend.
#[derive(Clone, Copy, Debug, PartialEq, Eq)]
pub struct PropertySet {
    bits: u8,
}

fn bit_of(property: Property) -> u8
    ensures { result ≡ bit_of property }
{
    match property {
        Property::Addressing => 1,
        Property::Alignment => 2,
        Property::Regwidth => 4,
        Property::Accesswidth => 8,
        Property::Fieldwidth => 16,
        Property::Sw => 32,
        Property::Reset => 64,
        _ => 0,
    }
}

impl PropertySet {
    /// No property.
    pub fn none() -> PropertySet
        ensures { result ≡ no_properties }
    {
        PropertySet { bits: 0 }
    }

    /// The property alone, or none, if it isn't one of the seven.
    #[inline(always)]
    pub fn of(property: Property) -> PropertySet
        ensures { result ≡ set_of property }
    {
        PropertySet {
            bits: bit_of(property),
        }
    }

    /// The property alone, if that is said.
    #[inline(always)]
    pub fn of_if(is_in: bool, property: Property) -> PropertySet
        ensures { result ≡ set_if is_in property }
    {
        if is_in {
            PropertySet::of(property)
        } else {
            PropertySet::none()
        }
    }

    /// The property of this name alone, or none, if there is none or it isn't one of the seven.
    pub fn of_name(name: &Name) -> PropertySet
        ensures { result ≡ set_named name.now }
    {
        match property(name.as_str()) {
            Some(property) => PropertySet::of(property),
            None => PropertySet::none(),
        }
    }

    /// Those that a component of this kind has.
    pub fn of_kind(kind: Kind) -> PropertySet
        ensures { result ≡ kind_set kind }
    {
        let bits = match kind {
            Kind::Addrmap => 1 | 2,
            Kind::Regfile => 2,
            Kind::Reg => 4 | 8,
            Kind::Field => 16 | 32 | 64,
        };
        PropertySet { bits }
    }

    /// Whether it has no property.
    pub fn is_empty(self) -> bool
        ensures { result ≡ is_no_property self }
    {
        self.bits == 0
    }

    /// Those that are in either.
    #[inline(always)]
    pub fn with(self, other: PropertySet) -> PropertySet
        ensures { result ≡ with_properties self other }
    {
        PropertySet {
            bits: self.bits | other.bits,
        }
    }

    /// Those that aren't in the other.
    #[inline(always)]
    pub fn without(self, other: PropertySet) -> PropertySet
        ensures { result ≡ without_properties self other }
    {
        PropertySet {
            bits: self.bits ^ (self.bits & other.bits),
        }
    }

    /// Whether a property is in both.
    pub fn meets(self, other: PropertySet) -> bool
        ensures { result ≡ do_properties_meet self other }
    {
        self.bits & other.bits != 0
    }
}
