//! The fault of an item, looked up from its place.
ghost use Rattle.std.specs.Prelude.{◌≡◌, Option, option_map};
ghost use Rattle.std.specs.Option.{is_some};
ghost use Rattle.rdl_places.specs.HeldScope.{place_of, outer_places, places_of};
ghost use Rattle.rdl_places.specs.Judged.{item_fault, kind_of_type, kind_of_instance, fault_at, lone_fault, lone_fault_at};
ghost use Rattle.rdl_places.specs.Reached.{instances_at};
ghost use Rattle.rdl_places.specs.Scopes.{around_places, IsScope};
ghost use Rattle.rdl_scope.specs.ItemFaults.{own_fault, excluded_by};
ghost use Rattle.rdl_scope.specs.Value.{own_before};
ghost use Rattle.rdl_seen.specs.Layouts.{Laying};
ghost use Rattle.rdl_tree.specs.Properties.{property_of};

use crate::leads::kind_at;
use crate::scope::Scope;
use rdl_scope::assignments::{default_fault, dynamic_fault, own_fault};
use rdl_scope::before::{excluded_by, reached_before};
use rdl_scope::kinds::define_fault;
use rdl_scope::shells::instance_fault;
use rdl_scope::targets::instance_before;
use rdl_scope::types::last_definition;
use rdl_scope::values::{last_default, own_before};
use rdl_text::name::Name;
use rdl_tree::description::{Body, Item, Of};
use rdl_tree::fault::FaultKind;
use rdl_tree::properties::property;
use rdl_tree::shell::Kind;
use rdl_tree::value::Value;

/// The kind of the type of this name that the item at this place sees.
fn kind_of_type(scope: &Scope, name: &Name) -> Option<Kind>
    ensures { result ≡ kind_of_type name.now (places_of scope.now) }
{
    match scope.find_type(name) {
        Some(holder) => Some(holder.component.kind),
        None => None,
    }
}

/// The kind of what an instance at this place is an instance of.
fn kind_of_instance(scope: &Scope, of: &Of) -> Option<Kind>
    ensures { result ≡ kind_of_instance of.now (places_of scope.now) }
{
    match of {
        Of::Named(name) => kind_of_type(scope, name),
        Of::Anonymous(component) => Some(component.kind),
    }
}

/// The fault of an own assignment that is item `n` of a body of this kind.
fn own_item_fault(
    around: Option<Kind>,
    body: &Body,
    n: usize,
    name: &Name,
    value: &Value,
) -> Option<FaultKind>
    ensures { result ≡ own_fault around (is_some (own_before name.now n body.now)) (excluded_by n body.now (property_of name.now)) (property_of name.now) value.now }
{
    let property = property(name.as_str());
    let excluded = excluded_by(n, body, property);
    let twice = own_before(body, n, name.as_str()).is_some();
    own_fault(around, twice, excluded, property, value)
}

fn fault_at(scope: &Scope, around: Option<Kind>, item: &Item) -> Option<FaultKind>
    ensures { result ≡ fault_at around (place_of scope.now) (outer_places scope.now.outer) item.now }
{
    let body = scope.body();
    let n = scope.number;
    match item {
        Item::Define(name, component) => {
            let twice = last_definition(body, n, name).is_some();
            define_fault(around, twice, component.kind)
        }
        Item::Instance(shell, of) => {
            let twice = instance_before(body, n, shell.name()).is_some();
            instance_fault(around, twice, shell, kind_of_instance(scope, of))
        }
        Item::Own(name, value) => own_item_fault(around, body, n, name, value),
        Item::Default(name, value) => {
            let twice = last_default(body, n, name.as_str()).is_some();
            default_fault(twice, property(name.as_str()), value)
        }
        Item::Dynamic(target, name, value) => {
            let twice = reached_before(body, n, target.names(), name);
            let kind = kind_at(scope, target.names());
            dynamic_fault(twice, property(name.as_str()), value, kind)
        }
    }
}

fn lone_fault_at(scope: &Scope, around: Option<Kind>, item: &Item) -> Option<FaultKind>
    ensures { result ≡ lone_fault_at around (places_of scope.now) item.now }
{
    match item {
        Item::Define(_, component) => define_fault(around, false, component.kind),
        Item::Instance(shell, of) => {
            instance_fault(around, false, shell, kind_of_instance(scope, of))
        }
        Item::Own(name, value) => own_fault(around, false, false, property(name.as_str()), value),
        Item::Default(name, value) => default_fault(false, property(name.as_str()), value),
        Item::Dynamic(target, name, value) => {
            let kind = kind_at(scope, target.names());
            dynamic_fault(false, property(name.as_str()), value, kind)
        }
    }
}

/// The fault of the item at this place, where nothing before it in its body makes one of it.
pub fn lone_fault(scope: &Scope, around: Option<Kind>, item: &Item) -> Option<FaultKind>
    ensures { (lay : Laying) → IsScope lay (places_of scope.now) → result ≡ lone_fault (around_places lay (places_of scope.now)) around (instances_at lay (places_of scope.now)) item.now }
{
    lone_fault_at(scope, around, item)
}

/// The fault of the item at this place, if it has one, in the body of a component of this kind, or of the root.
pub fn item_fault(scope: &Scope, around: Option<Kind>, item: &Item) -> Option<FaultKind>
    ensures { (lay : Laying) → IsScope lay (places_of scope.now) → result ≡ item_fault (around_places lay (places_of scope.now)) around (place_of scope.now).body (place_of scope.now).number (instances_at lay (places_of scope.now)) item.now }
{
    fault_at(scope, around, item)
}
