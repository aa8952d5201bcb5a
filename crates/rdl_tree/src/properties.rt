//! The names of the properties.
ghost use Rattle.std.specs.Prelude.{◌≡◌, find, bytes_eq};
ghost use Rattle.rdl_tree.specs.Properties.{row, property_of};

use crate::property::Property;
use rdl_text::is_same;

/// The property of this name.
#[tactic(auto, unfolding(crate::specs::Properties::property_of))]
pub fn property(name: &str) -> Option<Property>
    ensures { result ≡ property_of name.now }
{
    named(name, &Property::ALL)
}

/// Whether the property has this name. Most others have a name of another length.
fn is_named(property: Property, name: &str) -> bool
    ensures { result ≡ bytes_eq name.now (row property).name }
{
    let own = property.name();
    own.len() == name.len() && is_same(name, own)
}

fn named(name: &str, properties: &[Property]) -> Option<Property>
    ensures { result ≡ find (λ p. bytes_eq name.now (row p).name) properties.now }
{
    properties.iter().copied().find(|p| is_named(*p, name))
}
