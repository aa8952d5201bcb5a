//! What a definition that stayed in order under its name raises behind it.
ghost use Rattle.std.specs.Prelude.{◌≡◌};
ghost use Rattle.rdl_renew.specs.Stayed.{definition_raises};

use rdl_seen::alert::Alert;
use rdl_seen::names::{Class, NameSet};

/// What a definition of this class of names raises behind it: all, if something else is seen of it than before; else what is inside it, if
/// targets may find something else there.
pub fn definition_raises(class: Class, is_seen_same: bool, is_inside_same: bool) -> Alert
    ensures { result ≡ definition_raises class is_seen_same is_inside_same }
{
    if !is_seen_same {
        return Alert::none().with_types(NameSet::of(class));
    }
    if !is_inside_same {
        return Alert::none().with_inside(NameSet::of(class));
    }
    Alert::none()
}
