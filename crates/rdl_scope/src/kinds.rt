//! What a component may define and hold.
ghost use Rattle.std.specs.Prelude.{◌≡◌, Option};
ghost use Rattle.rdl_scope.specs.ItemFaults.{may_define, may_instantiate, define_fault};

use rdl_tree::fault::FaultKind;
use rdl_tree::shell::Kind;

/// Whether a body of this kind may define a component of the other. `None` is the root body.
fn may_define(around: Option<Kind>, kind: Kind) -> bool
    ensures { result ≡ may_define around kind }
{
    match (around, kind) {
        (None, _) => true,
        (Some(Kind::Addrmap), _) => true,
        (Some(Kind::Regfile), Kind::Addrmap) => false,
        (Some(Kind::Regfile), _) => true,
        (Some(Kind::Reg), Kind::Field) => true,
        (Some(Kind::Reg), _) => false,
        (Some(Kind::Field), _) => false,
    }
}

/// Whether a body of this kind may hold an instance of a component of the other.
pub(crate) fn may_instantiate(around: Option<Kind>, kind: Kind) -> bool
    ensures { result ≡ may_instantiate around kind }
{
    match (around, kind) {
        (Some(Kind::Addrmap), Kind::Addrmap) => true,
        (Some(Kind::Addrmap), Kind::Regfile) => true,
        (Some(Kind::Addrmap), Kind::Reg) => true,
        (Some(Kind::Regfile), Kind::Regfile) => true,
        (Some(Kind::Regfile), Kind::Reg) => true,
        (Some(Kind::Reg), Kind::Field) => true,
        _ => false,
    }
}

/// The fault of a definition. `twice`: one of its name stands before it.
#[tactic(auto, unfolding(crate::specs::ItemFaults::define_fault))]
pub fn define_fault(around: Option<Kind>, twice: bool, kind: Kind) -> Option<FaultKind>
    ensures { result ≡ define_fault around twice kind }
{
    if twice {
        Some(FaultKind::NameTwice)
    } else if !may_define(around, kind) {
        Some(FaultKind::KindNotAllowed)
    } else {
        None
    }
}
