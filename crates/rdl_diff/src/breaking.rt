//! What breaks software that was written for the first map.
ghost use Rattle.std.specs.Prelude.{◌≡◌, ◌++◌, codes};
ghost use Rattle.rdl_diff.specs.Breaking.{breaks, is_relied_on, loses_elements, mark, shrinks};
ghost use Rattle.rdl_diff.specs.Seen.{seen};

use crate::told::Told;
use crate::what::What;
use rdl_text::token::Number;
use rdl_tree::property::Property;

/// Whether software depends on the values of the property.
fn is_relied_on(property: Property) -> bool
    ensures { result ≡ is_relied_on property }
{
    matches!(
        property,
        Property::Regwidth
            | Property::Accesswidth
            | Property::Reset
            | Property::Sw
            | Property::Rclr
            | Property::Rset
            | Property::Onread
            | Property::Woset
            | Property::Woclr
            | Property::Onwrite
    )
}

fn shrinks(old: Option<Number>, new: Option<Number>) -> bool
    ensures { result ≡ shrinks old new }
{
    match (old, new) {
        (Some(old), Some(new)) => new < old,
        _ => true,
    }
}

/// Whether an element of an array is gone or stands elsewhere, by the sizes of the array.
fn loses_elements(old: &[Number], new: &[Number]) -> bool
    ensures { result ≡ loses_elements old.now new.now }
{
    let [old_outer, old_inner @ ..] = old else {
        return false;
    };
    let [new_outer, new_inner @ ..] = new else {
        return true;
    };
    *new_outer < *old_outer || old_inner != new_inner
}

/// Whether this part breaks software where it differs.
pub(crate) fn breaks(what: What, old: &Told, new: &Told) -> bool
    ensures { result ≡ breaks what (seen old.now) (seen new.now) }
{
    match (what, old, new) {
        (What::Size, Told::Number(old), Told::Number(new)) => shrinks(*old, *new),
        (What::Dims, Told::Sizes(old), Told::Sizes(new)) => loses_elements(old, new),
        (What::Stride, Told::Number(old), _) => old.is_some(),
        (What::Value(property), _, _) => is_relied_on(property),
        _ => true,
    }
}

/// What the line of a path that both maps have begins with.
pub(crate) fn changed_front(is_breaking: bool) -> &'static str
    ensures { result.now ≡ mark is_breaking ++ codes "~ " }
{
    if is_breaking { "! ~ " } else { "~ " }
}
