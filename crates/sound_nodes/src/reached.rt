//! What reaches a component from around it.
ghost use Rattle.std.specs.Prelude.{◌≡◌, option_copied};
ghost use Rattle.sound_nodes.specs.Rows.{is_judged, item_assigns, assigns, after_default_if, defaults_before, defaults_at, component_address};
ghost use Rattle.rdl_seen.specs.Values.{no_values};

use rdl_scope::types::type_of;
use rdl_seen::values::Values;
use rdl_text::name::Name;
use rdl_tree::address::Address;
use rdl_tree::description::{Body, Description, Item};

/// Whether rows are judged by the property of this name.
fn is_judged(property: &Name) -> bool
    ensures { result ≡ is_judged property.now }
{
    let name = property.as_str();
    name == "reset" || name == "sw"
}

/// Whether the item is a dynamic assignment by which rows are judged.
fn item_assigns(item: &Item) -> bool
    ensures { result ≡ item_assigns item.now }
{
    match item {
        Item::Dynamic(_, property, _) => is_judged(property),
        _ => false,
    }
}

/// Whether a dynamic assignment by which rows are judged is among the items of a body.
pub(crate) fn assigns(body: &Body) -> bool
    ensures { result ≡ assigns body.now }
{
    for item in body.as_slice() {
        if item_assigns(item) {
            return true;
        }
    }
    false
}

/// States what a default states; another item states nothing.
fn put_default(defaults: &mut Values, item: Option<&Item>)
    ensures { defaults.new ≡ after_default_if (option_copied item.entry) defaults.old }
{
    if let Some(Item::Default(name, value)) = item {
        defaults.put_named(name, value);
    }
}

/// The defaults behind the first items of a body, which these reach.
fn defaults_before(number: usize, defaults: Values, body: &Body) -> Values
    ensures { result ≡ defaults_before number defaults body.now }
{
    let mut defaults = defaults;
    for i in 0..number {
        put_default(&mut defaults, body.item(i));
    }
    defaults
}

/// The defaults that reach the item at the end of this path, in a body that these reach.
fn defaults_at(defaults: Values, path: &[usize], body: &Body) -> Option<Values>
    ensures { result ≡ defaults_at defaults path.now body.now }
{
    match path {
        [] => None,
        [number] => Some(defaults_before(*number, defaults, body)),
        [number, rest @ ..] => match body.inner(*number) {
            Some(inner) => {
                let defaults = defaults_before(*number, defaults, body);
                defaults_at(defaults, rest, inner)
            }
            None => None,
        },
    }
}

/// The defaults that reach the item at this address.
pub(crate) fn defaults_of(description: &Description, address: &Address) -> Option<Values>
    ensures { result ≡ defaults_at no_values address.now description.now.items }
{
    defaults_at(Values::none(), address.as_slice(), &description.items)
}

/// Where the component of the instance at this address is written.
pub(crate) fn component_address(description: &Description, instance: Address) -> Address
    ensures { result ≡ component_address description.now.items instance }
{
    match type_of(description, &instance) {
        Some(address) => address,
        None => instance,
    }
}
