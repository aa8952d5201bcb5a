//! Where the targets of dynamic assignments end, and whether what they assign can give a row a fault, looked up when it is asked.
ghost use Rattle.std.specs.Prelude.{◌≡◌, Some, option_map, option_and_then};
ghost use Rattle.rdl_places.specs.Ends.{find_at, spots_at, end_at, own_verdict_at, inner_verdict_at, target_verdict_at, verdict_at, kind_of_holding, kind_from, kind_at};
ghost use Rattle.rdl_places.specs.HeldScope.{places_of, holding_of, found_of};
ghost use Rattle.rdl_nodes.specs.HeldVerdict.{asked_of};
ghost use Rattle.rdl_places.specs.Reached.{instances_at};
ghost use Rattle.rdl_places.specs.Scopes.{IsScope};
ghost use Rattle.rdl_nodes.specs.Targets.{asked_if};
ghost use Rattle.rdl_seen.specs.Clean.{kind_in};
ghost use Rattle.rdl_seen.specs.Inside.{asked, is_fitting, is_fitting_end, verdict_of};
ghost use Rattle.rdl_seen.specs.Layouts.{Laying};

use crate::scope::{FoundInstance, Holder, Scope};
use rdl_nodes::target::asked;
use rdl_nodes::verdict::{Asked, Verdict};
use rdl_seen::mode::Mode;
use rdl_text::name::Name;
use rdl_tree::shell::Kind;
use rdl_tree::value::Value;

/// Whether what is asked is granted at the instance of this number inside the component.
fn is_fitting(asked: Asked, holder: &Holder, number: usize) -> bool
    ensures { result ≡ is_fitting (asked_of asked) (record { spots = spots_at (holding_of holder.now); number = number }) }
{
    let spans = holder
        .kept
        .node
        .core()
        .layouts
        .as_ref()
        .under(Mode::Compact)
        .spans();
    asked.is_fitting(spans, holder.kept.seen.is_ordered, number)
}

/// Whether what is asked is granted at the instance at which these names end, from this component. Names that lead nowhere are refused
/// elsewhere.
fn is_fitting_end(asked: Asked, names: &[Name], holder: &Holder) -> bool
    ensures { result ≡ is_fitting_end (asked_of asked) (end_at names.now (holding_of holder.now)) }
{
    match names {
        [] => true,
        [name] => match (&*holder).find_instance(name) {
            Some(found) => is_fitting(asked, holder, found.number),
            None => true,
        },
        [name, rest @ ..] => match (&*holder).find_instance(name) {
            Some(found) => match &found.holder {
                Some(inner) => is_fitting_end(asked, rest, inner),
                None => true,
            },
            None => true,
        },
    }
}

/// The verdict of an assignment to what is inside the body's own instance of this name.
fn inner_verdict(asked: Asked, name: &Name, rest: &[Name], scope: &Scope) -> Verdict
    ensures { result ≡ inner_verdict_at (asked_of asked) rest.now (find_at name.now (places_of scope.now)) }
{
    match scope.find_instance(name) {
        Some(found) => match &found.holder {
            Some(holder) => Verdict::known(is_fitting_end(asked, rest, holder)),
            None => Verdict::known(true),
        },
        None => Verdict::known(true),
    }
}

/// The verdict of an assignment to the body's own instance of this name.
fn own_verdict(asked: Asked, name: &Name, scope: &Scope) -> Verdict
    ensures { result ≡ own_verdict_at (asked_of asked) (find_at name.now (places_of scope.now)) }
{
    match scope.find_instance(name) {
        Some(found) => Verdict::asks_own(asked, found.number),
        None => Verdict::known(true),
    }
}

/// The verdict of an assignment to this target, at this place.
fn target_verdict(asked: Asked, target: &[Name], scope: &Scope) -> Verdict
    ensures { result ≡ target_verdict_at (asked_of asked) target.now (places_of scope.now) }
{
    match target {
        [] => Verdict::known(true),
        [name] => own_verdict(asked, name, scope),
        [name, rest @ ..] => inner_verdict(asked, name, rest, scope),
    }
}

fn asked_verdict(asked: Option<Asked>, target: &[Name], scope: &Scope) -> Verdict
    ensures { result ≡ verdict_at (asked_if asked) target.now (places_of scope.now) }
{
    match asked {
        Some(asked) => target_verdict(asked, target, scope),
        None => Verdict::known(true),
    }
}

/// The verdict of the assignment of this value to the property of this name of a target, at this place.
pub fn verdict_of(scope: &Scope, property: &Name, value: &Value, target: &[Name]) -> Verdict
    ensures { (lay : Laying) → IsScope lay (places_of scope.now) → result ≡ verdict_of (asked property.now value.now) target.now (instances_at lay (places_of scope.now)) }
{
    asked_verdict(asked(property, value), target, scope)
}

fn kind_of(found: &FoundInstance) -> Kind
    ensures { result ≡ kind_of_holding (found_of found.now).holding }
{
    match &found.holder {
        Some(holder) => holder.component.kind,
        None => Kind::Field,
    }
}

/// The kind of the component at which these names end, inside this instance.
fn kind_from(names: &[Name], found: &FoundInstance) -> Option<Kind>
    ensures { result ≡ kind_from names.now (found_of found.now) }
{
    match names {
        [] => Some(kind_of(found)),
        [name, rest @ ..] => match &found.holder {
            Some(holder) => match (&*holder).find_instance(name) {
                Some(inner) => kind_from(rest, &inner),
                None => None,
            },
            None => None,
        },
    }
}

/// The same from a place.
pub(crate) fn kind_at(scope: &Scope, target: &[Name]) -> Option<Kind>
    ensures { result ≡ kind_at target.now (places_of scope.now) }
{
    match target {
        [] => None,
        [name, rest @ ..] => match scope.find_instance(name) {
            Some(found) => kind_from(rest, &found),
            None => None,
        },
    }
}

/// The kind of the component at which a target ends, at this place.
pub fn kind_in(scope: &Scope, target: &[Name]) -> Option<Kind>
    ensures { (lay : Laying) → IsScope lay (places_of scope.now) → result ≡ kind_in target.now (instances_at lay (places_of scope.now)) }
{
    kind_at(scope, target)
}
