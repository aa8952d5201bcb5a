//! Components that are laid out.
use crate::layout::{Layout, LayoutValues, Mode};
use crate::row_values::ComponentValues;
use crate::walk::part_list::PartList;
use crate::walk::reaches::Assignment;
use crate::walk::shared::{InstanceAddress, SharedAddress};
use rdl_text::token::Number;
use rdl_tree::address::Address;
use rdl_tree::shell::{Kind, Shell};
use std::alloc::{AllocError, Global};
use std::marker::Model;

/// An instance, and the number of its component among the finished ones. A contract sees the record of specs/, with the
/// address of the instance.
#[derive(Drop)]
pub(crate) struct Part<'a> {
    /// The address of the body around it.
    around: SharedAddress,
    /// The number of its item in that body.
    number: usize,
    shell: &'a Shell,
    component: usize,
    /// Whether it says nothing but its name, so that its shell needn't be looked at again.
    bare: bool,
}

impl<'a> Model for Part<'a> {
    ghost use Rattle.std.specs.Prelude.{◌≡◌, ◌++◌, ◌∷◌, ◌<◌, [], length, true};
    ghost use Rattle.rdl_elab.specs.Bare.{IsBare};
    ghost use Rattle.rdl_elab.specs.Kept.{Part};

    ghost Value = { Part };

    ghost view = { λ p. record { at = p.around ++ p.number ∷ []; shell = p.shell.now; component = p.component } };

    ghost invariant = { λ p. (length p.around < 17) × (p.bare ≡ true → IsBare p.shell.now) };
}

impl<'a> Part<'a> {
    ghost use Rattle.std.specs.Prelude.{◌≡◌, ◌<◌, ◌++◌, ◌∷◌, [], length, true, IfOk, option_copied, slice_get};
    ghost use Rattle.rdl_elab.specs.Bare.{IsBare};
    ghost use Rattle.rdl_tree.specs.Address.{number_of};

    pub(crate) fn new(
        around: SharedAddress,
        number: usize,
        shell: &'a Shell,
        component: usize,
    ) -> Part<'a>
        requires { length around < 17 }
        ensures { result ≡ record { at = around ++ number ∷ []; shell = shell.now; component = component } }
    {
        let bare = shell.is_bare();
        Part {
            around,
            number,
            shell,
            component,
            bare,
        }
    }

    pub(crate) fn at(&self) -> Address
        ensures { result ≡ self.now.at }
    {
        self.around.inside(self.number)
    }

    /// Its address, that of the body around it being shared.
    pub(crate) fn instance(&self) -> Result<InstanceAddress, AllocError>
        ensures { IfOk result (λ address. address ≡ self.now.at) }
    {
        let around = self.around.share()?;
        Ok(InstanceAddress::new(around, self.number))
    }

    /// The number of its item in the body around it.
    pub(crate) fn place(&self) -> usize
        ensures { result ≡ number_of self.now.at }
    {
        self.number
    }

    pub(crate) fn shell(&self) -> &'a Shell
        ensures { result.now ≡ self.now.shell }
    {
        self.shell
    }

    /// Whether it says nothing but its name.
    pub(crate) fn is_bare(&self) -> bool
        ensures { result ≡ true → IsBare self.now.shell }
    {
        self.bare
    }

    /// The number behind its `=`.
    pub(crate) fn reset(&self) -> Option<Number>
        ensures { result ≡ self.now.shell.reset }
    {
        if self.bare { None } else { self.shell.reset() }
    }

    /// The number behind its `+=`.
    pub(crate) fn stride(&self) -> Option<Number>
        ensures { result ≡ self.now.shell.stride }
    {
        if self.bare { None } else { self.shell.stride() }
    }

    /// The number of its component among the finished ones.
    pub(crate) fn number(&self) -> usize
        ensures { result ≡ self.now.component }
    {
        self.component
    }

    /// What is kept of its component, if that is among these.
    pub(crate) fn component<'c, 'f>(
        &self,
        components: &'c [Finished<'f>],
    ) -> Option<&'c Finished<'f>>
        ensures { option_copied result ≡ slice_get components.now self.now.component }
    {
        components.get(self.component)
    }
}

/// One layout for each mode.
#[derive(Debug, Drop)]
pub(crate) struct ThreeLayouts {
    pub compact: Layout,
    pub regalign: Layout,
    pub fullalign: Layout,
}

impl ThreeLayouts {
    ghost use Rattle.std.specs.Prelude.{◌≡◌};
    ghost use Rattle.rdl_elab.specs.EachMode.{of_three};
    ghost use Rattle.rdl_elab.specs.Finished.{under};

    fn under(&self, mode: Mode) -> &Layout
        ensures { result.now ≡ under mode (of_three self.now) }
    {
        match mode {
            Mode::Compact => &self.compact,
            Mode::Regalign => &self.regalign,
            Mode::Fullalign => &self.fullalign,
        }
    }
}

/// The layouts under the three modes, of which most components have but one.
#[derive(Debug, Drop)]
pub(crate) enum EachMode {
    Same(Layout),
    Own(Box<ThreeLayouts>),
}

/// The layouts of a component, one for each mode under which it may stand. A contract sees the three.
#[derive(Debug, Drop)]
pub(crate) struct Layouts {
    each: EachMode,
}

impl Model for Layouts {
    ghost use Rattle.rdl_elab.specs.Kept.{Layouts};

    ghost Value = { Layouts };

    ghost use Rattle.rdl_elab.specs.EachMode.{each_mode};

    ghost view = { λ l. each_mode l.each };
}

impl Layouts {
    ghost use Rattle.std.specs.Prelude.{◌≡◌, true, IfOk};
    ghost use Rattle.rdl_elab.specs.declared.layout.Mode.{Mode};
    ghost use Rattle.rdl_elab.specs.declared.layout.Mode.TheVariants.{Compact};
    ghost use Rattle.rdl_elab.specs.EachMode.{of_three};
    ghost use Rattle.rdl_elab.specs.Finished.{under};

    /// One layout for each mode.
    pub(crate) fn same(layout: Layout) -> Layouts
        ensures { (m : Mode) → under m result ≡ layout }
    {
        Layouts {
            each: EachMode::Same(layout),
        }
    }

    pub(crate) fn own(alloc: Global, three: ThreeLayouts) -> Result<Layouts, AllocError>
        ensures { IfOk result (λ layouts. layouts ≡ of_three three) }
    {
        Ok(Layouts {
            each: EachMode::Own(Box::new(alloc, three)?),
        })
    }

    pub(crate) fn under(&self, mode: Mode) -> &Layout
        ensures { result.now ≡ under mode self.now }
    {
        match &self.each {
            EachMode::Same(layout) => layout,
            EachMode::Own(three) => three.under(mode),
        }
    }

    /// Whether it is known that the mode makes no difference.
    pub(crate) fn is_same(&self) -> bool
        ensures { result ≡ true → (m : Mode) → under m self.now ≡ under Compact self.now }
    {
        match &self.each {
            EachMode::Same(_) => true,
            EachMode::Own(_) => false,
        }
    }
}

/// A component, once for all its instances, with all that its rows and their faults need.
#[derive(Drop)]
pub(crate) struct Finished<'a> {
    pub kind: Kind,
    pub values: LayoutValues,
    /// Its values as rows show them.
    pub shown: ComponentValues,
    /// The dynamic assignments in its body.
    pub assignments: Vec<Assignment<'a>>,
    pub parts: PartList<'a>,
    pub layouts: Layouts,
    /// The names of the longest path below it, at most 16.
    pub levels: usize,
    /// The rows below it, at most 65,536.
    pub rows: usize,
    /// The first instance below it of a register file or address map without instances.
    pub first_empty: Option<SharedAddress>,
}
