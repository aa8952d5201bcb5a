//! Whether dynamic assignments can give a row a fault.
ghost use Rattle.std.specs.Prelude.{◌≡◌, option_map};
ghost use Rattle.rdl_nodes.specs.HeldInside.{within_of};
ghost use Rattle.rdl_nodes.specs.HeldVerdict.{asked_of};
ghost use Rattle.rdl_nodes.specs.Targets.{asked_if};
ghost use Rattle.rdl_seen.specs.Inside.{asked, end_in, is_fitting_end, inner_verdict, own_verdict, target_verdict, verdict_of, find};

use crate::inside::{Inside, Within};
use crate::layouts::Layouts;
use crate::verdict::{Asked, Verdict};
use rdl_seen::mode::Mode;
use rdl_seen::values::reset_bits;
use rdl_text::name::Name;
use rdl_tree::value::Value;

/// What the assignment of this value to the property of this name asks of a field, if it asks something.
pub fn asked(property: &Name, value: &Value) -> Option<Asked>
    ensures { asked_if result ≡ asked property.now value.now }
{
    let name = property.as_str();
    if name == "sw" {
        return Some(Asked::Order);
    }
    if name == "reset" {
        return Some(Asked::Room(reset_bits(value)));
    }
    None
}

/// Whether what is asked is granted at the instance at which these names end, from a component inside which this is found. Names that
/// lead nowhere are refused elsewhere.
fn is_fitting_end(asked: Asked, names: &[Name], within: &Within) -> bool
    ensures { result ≡ is_fitting_end (asked_of asked) (end_in names.now (within_of within.now)) }
{
    match within {
        Within::Nothing => true,
        Within::Of(_, layouts, is_ordered, inside) => match names {
            [] => true,
            [name] => match inside.as_ref().find(name) {
                Some(found) => {
                    let spans = layouts.as_ref().under(Mode::Compact).spans();
                    asked.is_fitting(spans, *is_ordered, found.number)
                }
                None => true,
            },
            [name, rest @ ..] => match inside.as_ref().find(name) {
                Some(found) => is_fitting_end(asked, rest, found.within),
                None => true,
            },
        },
    }
}

/// The verdict of an assignment to what is inside the body's own instance of this name.
fn inner_verdict(asked: Asked, name: &Name, rest: &[Name], before: &Inside) -> Verdict
    ensures { result ≡ inner_verdict (asked_of asked) rest.now (find name.now before.now) }
{
    match before.find(name) {
        Some(found) => Verdict::known(is_fitting_end(asked, rest, found.within)),
        None => Verdict::known(true),
    }
}

/// The verdict of an assignment to the body's own instance of this name.
fn own_verdict(asked: Asked, name: &Name, before: &Inside) -> Verdict
    ensures { result ≡ own_verdict (asked_of asked) (find name.now before.now) }
{
    match before.find(name) {
        Some(found) => Verdict::asks_own(asked, found.number),
        None => Verdict::known(true),
    }
}

/// The verdict of an assignment to this target, where these instances stand before it.
fn target_verdict(asked: Asked, target: &[Name], before: &Inside) -> Verdict
    ensures { result ≡ target_verdict (asked_of asked) target.now before.now }
{
    match target {
        [] => Verdict::known(true),
        [name] => own_verdict(asked, name, before),
        [name, rest @ ..] => inner_verdict(asked, name, rest, before),
    }
}

/// The verdict of the assignment of this value to the property of this name of a target, where these instances stand before it.
pub fn verdict_of(property: &Name, value: &Value, target: &[Name], before: &Inside) -> Verdict
    ensures { result ≡ verdict_of (asked property.now value.now) target.now before.now }
{
    match asked(property, value) {
        Some(asked) => target_verdict(asked, target, before),
        None => Verdict::known(true),
    }
}
