//! What differs before an item from what stood before it.
ghost use Rattle.std.specs.Prelude.{◌≡◌};
ghost use Rattle.rdl_seen.specs.Alert.{no_alert, with_alert, with_properties_of, with_types, with_inside, is_silent, reaches};

use crate::names::NameSet;
use crate::property_set::PropertySet;
use crate::seen::Seen;

/// What may differ before an item from what stood before it. Who listens to nothing of it is kept as it was.
#[derive(Clone, Copy, Debug, PartialEq, Eq)]
pub struct Alert {
    /// Properties of which another default may reach the item.
    pub properties: PropertySet,
    /// Classes of definitions that came or went, or of which something else may be seen.
    pub types: NameSet,
    /// Classes of definitions inside which a target may find something else.
    pub inside: NameSet,
}

impl Alert {
    /// Nothing differs.
    pub fn none() -> Alert
        ensures { result ≡ no_alert }
    {
        Alert {
            properties: PropertySet::none(),
            types: NameSet::none(),
            inside: NameSet::none(),
        }
    }

    /// What differs by either.
    pub fn with(self, other: Alert) -> Alert
        ensures { result ≡ with_alert self other }
    {
        Alert {
            properties: self.properties.with(other.properties),
            types: self.types.with(other.types),
            inside: self.inside.with(other.inside),
        }
    }

    /// Another default of these properties may reach the item, too.
    pub fn with_properties(self, properties: PropertySet) -> Alert
        ensures { result ≡ with_properties_of properties self }
    {
        Alert {
            properties: self.properties.with(properties),
            types: self.types,
            inside: self.inside,
        }
    }

    /// Something else may be seen of definitions of these classes, too.
    pub fn with_types(self, types: NameSet) -> Alert
        ensures { result ≡ with_types types self }
    {
        Alert {
            properties: self.properties,
            types: self.types.with(types),
            inside: self.inside.with(types),
        }
    }

    /// A target may find something else inside definitions of these classes, too.
    pub fn with_inside(self, inside: NameSet) -> Alert
        ensures { result ≡ with_inside inside self }
    {
        Alert {
            properties: self.properties,
            types: self.types,
            inside: self.inside.with(inside),
        }
    }

    /// Whether nothing differs.
    pub fn is_none(&self) -> bool
        ensures { result ≡ is_silent self.now }
    {
        self.properties.is_empty() && self.types.is_empty() && self.inside.is_empty()
    }

    /// Whether a component of which this is seen listens to some of it.
    #[inline(always)]
    pub fn reaches(&self, seen: &Seen) -> bool
        ensures { result ≡ reaches self.now seen.now }
    {
        seen.takes.meets(self.properties)
            || seen.asks.meets(self.types)
            || seen.is_assigned && seen.asks.meets(self.inside)
    }
}
