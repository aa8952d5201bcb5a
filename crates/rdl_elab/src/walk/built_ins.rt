//! The values of components that state none.
ghost use Rattle.std.specs.Prelude.{◌≡◌, IfOk};
ghost use Rattle.rdl_elab.specs.Shown.{built_in_values};

use crate::row::PropertyValue;
use crate::row_values::ComponentValues;
use crate::walk::values::built_in_values;
use rdl_tree::shell::Kind;
use std::alloc::{AllocError, Global};
use std::marker::Model;
use std::rc::Rc;

/// The values of components of one kind without assignments that no default reaches.
#[derive(Drop)]
pub(crate) struct KindValues {
    /// What other components of the kind have built in.
    list: Rc<Vec<PropertyValue>>,
    values: ComponentValues,
}

/// The values of components without assignments that no default reaches, for each kind once. All of them are the same,
/// so a contract sees nothing of them.
#[derive(Drop)]
pub(crate) struct BuiltIns {
    addrmap: KindValues,
    regfile: KindValues,
    reg: KindValues,
    field: KindValues,
}

impl Model for BuiltIns {
    ghost use Rattle.rdl_elab.specs.Shown.{AreBuiltIns};

    ghost Value = { Unit {0} };

    ghost view = { λ b. tt };

    ghost invariant = { λ b. AreBuiltIns b.addrmap.list.value.items b.regfile.list.value.items b.reg.list.value.items b.field.list.value.items × AreBuiltIns b.addrmap.values b.regfile.values b.reg.values b.field.values };
}

fn shared(alloc: Global, kind: Kind) -> Result<KindValues, AllocError>
    ensures list { IfOk result (λ shared. shared.list.value.items ≡ built_in_values kind) }
    ensures values { IfOk result (λ shared. shared.values ≡ built_in_values kind) }
{
    let list = Rc::new(alloc, built_in_values(alloc, kind)?)?;
    let values = ComponentValues::built_in(alloc, list.clone()?)?;
    Ok(KindValues { list, values })
}

impl BuiltIns {
    ghost use Rattle.std.specs.Prelude.{◌≡◌};
    ghost use Rattle.rdl_elab.specs.Shown.{built_in_values};

    pub(crate) fn new(alloc: Global) -> Result<BuiltIns, AllocError> {
        Ok(BuiltIns {
            addrmap: shared(alloc, Kind::Addrmap)?,
            regfile: shared(alloc, Kind::Regfile)?,
            reg: shared(alloc, Kind::Reg)?,
            field: shared(alloc, Kind::Field)?,
        })
    }

    /// Those of a component of this kind, in a list.
    pub(crate) fn of(&self, kind: Kind) -> &Rc<Vec<PropertyValue>>
        ensures { result.now.value.items ≡ built_in_values kind }
    {
        match kind {
            Kind::Addrmap => &self.addrmap.list,
            Kind::Regfile => &self.regfile.list,
            Kind::Reg => &self.reg.list,
            Kind::Field => &self.field.list,
        }
    }

    /// Those of a component of this kind.
    pub(crate) fn values(&self, kind: Kind) -> &ComponentValues
        ensures { result.now ≡ built_in_values kind }
    {
        match kind {
            Kind::Addrmap => &self.addrmap.values,
            Kind::Regfile => &self.regfile.values,
            Kind::Reg => &self.reg.values,
            Kind::Field => &self.field.values,
        }
    }
}
