//! What is held of a map from edit to edit.
ghost use Rattle.std.specs.Prelude.{◌≡◌, ◌⊎◌, true, Err, Some, None, IfOk, IfErr, OnOk, option_copied, option_map};
ghost use Rattle.std.specs.String.{string_bytes};
ghost use Rattle.node_laws.specs.Laid.{laying};
ghost use Rattle.rdl_elab.specs.Faults.{elaborated};
ghost use Rattle.rdl_elab.specs.Known.{HasRows};
ghost use Rattle.rdl_held.specs.HeldMap.{has_layout};
ghost use Rattle.rdl_scope.specs.ItemFaults.{fault_of, out_of_memory};
ghost use Rattle.rdl_scope.specs.Types.{component_at};
ghost use Rattle.rdl_seen.specs.Meaning.{nothing_around};
ghost use Rattle.rdl_seen.specs.MeaningLaws.{is_clean_map};
ghost use Rattle.rdl_seen.specs.Node.{body_of};

use crate::large::is_large;
use node_laws::lays::Elaborated;
use rdl_elab::elaborate::known_rows;
use rdl_elab::row::Rows;
use rdl_marks::marks::BodyMarks;
use rdl_nodes::layouts::Layout;
use rdl_nodes::tree::Tree;
use rdl_renew::renew::{RenewedMap, renewed};
use rdl_scope::faults::check;
use rdl_scope::types::own_component;
use rdl_seen::mode::Mode;
use rdl_tree::address::Address;
use rdl_tree::description::Description;
use rdl_tree::fault::{Fault, FaultKind};
use rdl_tree::shell::Kind;
use sound_nodes::tops::judge;
use std::alloc::{AllocError, Global};
use std::marker::Model;
use std::string::String;

/// What is held of a map that has rows: a tree with a node for each of its components, used or not, the name that was asked of its top, and
/// how many instances the last step placed. A contract sees the slots of the root's items, the name and the number.
#[derive(Debug, Drop)]
pub struct Held {
    tree: Tree,
    top: Option<String>,
    placed: u64,
}

impl Model for Held {
    ghost use Rattle.std.specs.Prelude.{option_map};
    ghost use Rattle.std.specs.String.{string_bytes};
    ghost use Rattle.rdl_held.specs.HeldMap.{HeldMap, coded_held};

    ghost Value = { HeldMap };

    ghost coded = { coded_held };

    ghost view = { λ h. record { slots = h.tree; top = option_map string_bytes h.top; placed = h.placed } };
}

pub(crate) fn no_memory() -> Fault
    ensures { result ≡ out_of_memory }
{
    Fault {
        kind: FaultKind::Memory,
        address: Address::new(),
    }
}

fn copy_of_top(alloc: Global, name: Option<&str>) -> Result<Option<String>, AllocError>
    ensures { IfOk result (λ text. option_map string_bytes text ≡ option_copied name.entry) }
{
    match name {
        Some(name) => Ok(Some(String::from_str(alloc, name)?)),
        None => Ok(None),
    }
}

/// Whether the item at this address holds a component that has a layout.
fn has_layout(description: &Description, body: &Address) -> bool
    ensures { result ≡ has_layout (component_at description.now.items body.now) }
{
    match description.item(body) {
        Some(item) => match own_component(item) {
            Some(component) => component.kind != Kind::Field,
            None => false,
        },
        None => false,
    }
}

/// Whether no item of the description of which this was renewed has a fault. Otherwise the first fault. Where it is seen that none has, no
/// item is looked at.
fn check_renewed(
    alloc: Global,
    description: &Description,
    renewed: &RenewedMap,
) -> Result<(), Fault>
    requires clean { renewed.now.is_clean ≡ true → is_clean_map laying description.now.items ≡ true }
    requires kept { renewed.now.tree ≡ (body_of laying nothing_around description.now.items).slots }
    ensures ok { OnOk result (fault_of description.now.items ≡ None) }
    ensures err { IfErr result (λ fault. (fault_of description.now.items ≡ Some fault) ⊎ (fault ≡ out_of_memory)) }
{
    if renewed.is_clean && !is_large(renewed.tree.slots(), &description.items) {
        return Ok(());
    }
    check(alloc, description)
}

/// Whether the map of which this was renewed has rows. Otherwise its first fault.
fn judge_renewed(
    alloc: Global,
    description: &Description,
    top: Option<&str>,
    renewed: &RenewedMap,
) -> Result<(), Fault>
    requires clean { renewed.now.is_clean ≡ true → is_clean_map laying description.now.items ≡ true }
    requires kept { renewed.now.tree ≡ (body_of laying nothing_around description.now.items).slots }
    ensures ok { OnOk result (HasRows description.now.items (option_copied top.entry)) }
    ensures err { IfErr result (λ fault. (elaborated description.now.items (option_copied top.entry) ≡ Err fault) ⊎ (fault ≡ out_of_memory)) }
{
    check_renewed(alloc, description, renewed)?;
    judge(alloc, description, top, &renewed.tree)
}

impl Held {
    ghost use Rattle.std.specs.Prelude.{◌≡◌, ◌⊎◌, Ok, Err, IfOk, IfErr, OnOk, OnErr, option_copied};
    ghost use Rattle.rdl_elab.specs.Faults.{elaborated};
    ghost use Rattle.rdl_elab.specs.Known.{HasRows};
    ghost use Rattle.rdl_held.specs.HeldMap.{IsHeldOf, IsStep, HasPlacedAll, HasPlaced, layout_at};
    ghost use Rattle.rdl_scope.specs.ItemFaults.{out_of_memory};

    /// What is held of a description that has rows. Otherwise its first fault.
    pub fn of(alloc: Global, description: &Description, top: Option<&str>) -> Result<Held, Fault>
        ensures held { IfOk result (λ held. IsHeldOf description.now.items held) }
        ensures top { IfOk result (λ held. held.top ≡ option_copied top.entry) }
        ensures placed { IfOk result (λ held. HasPlacedAll held) }
        ensures refused { IfErr result (λ fault. (elaborated description.now.items (option_copied top.entry) ≡ Err fault) ⊎ (fault ≡ out_of_memory)) }
    {
        check(alloc, description)?;
        let Ok(tree) = Tree::of(alloc, &Elaborated, description) else {
            return Err(no_memory());
        };
        judge(alloc, description, top, &tree)?;
        let placed = tree.placed();
        match copy_of_top(alloc, top) {
            Ok(top) => Ok(Held { tree, top, placed }),
            Err(_) => Err(no_memory()),
        }
    }

    /// The same, for one more. What is held of each component is shared.
    pub fn try_copy(&self, alloc: Global) -> Result<Held, AllocError>
        ensures { IfOk result (λ held. held ≡ self.now) }
    {
        let tree = self.tree.try_copy(alloc)?;
        let top = copy_of_top(alloc, self.top())?;
        let placed = self.placed;
        Ok(Held { tree, top, placed })
    }

    /// Goes on to the description that a step made of the one of which this is held. Marks tell what became of that. Only bodies are laid
    /// out and judged in which something was changed, and those that see something of it; the whole map, where it isn't seen by these
    /// that it has rows. If it has none, the answer is its first fault, and this stays.
    pub fn step(
        &mut self,
        alloc: Global,
        description: &Description,
        marks: &BodyMarks,
    ) -> Result<(), Fault>
        requires { IsStep self.old marks.now description.now.items }
        ensures held { OnOk result (IsHeldOf description.now.items self.new) }
        ensures top { OnOk result (self.new.top ≡ self.old.top) }
        ensures placed { OnOk result (HasPlaced marks.now self.old description.now.items self.new) }
        ensures refused { IfErr result (λ fault. (elaborated description.now.items self.old.top ≡ Err fault) ⊎ (fault ≡ out_of_memory)) }
        ensures err { OnErr result (self.new ≡ self.old) }
    {
        let renewed = match renewed(alloc, &Elaborated, &self.tree, marks, description) {
            Ok(renewed) => renewed,
            Err(_) => return Err(no_memory()),
        };
        judge_renewed(alloc, description, self.top(), &renewed)?;
        self.tree = renewed.tree;
        self.placed = renewed.placed;
        Ok(())
    }

    /// Does the same where the description is known to have rows, as one to which an undo leads. Nothing is judged then.
    pub fn step_known(
        &mut self,
        alloc: Global,
        description: &Description,
        marks: &BodyMarks,
    ) -> Result<(), AllocError>
        requires step { IsStep self.old marks.now description.now.items }
        requires rows { HasRows description.now.items self.old.top }
        ensures held { OnOk result (IsHeldOf description.now.items self.new) }
        ensures top { OnOk result (self.new.top ≡ self.old.top) }
        ensures placed { OnOk result (HasPlaced marks.now self.old description.now.items self.new) }
        ensures err { OnErr result (self.new ≡ self.old) }
    {
        let renewed = renewed(alloc, &Elaborated, &self.tree, marks, description)?;
        self.tree = renewed.tree;
        self.placed = renewed.placed;
        Ok(())
    }

    /// The name that was asked of the top.
    pub fn top(&self) -> Option<&str>
        ensures { option_copied result ≡ self.now.top }
    {
        self.top.as_ref().map(|top| top.as_str())
    }

    /// How many instances were placed when this was made, or on the last step that it took, once for each mode: those of each component that
    /// was laid out. The count stops at the greatest `u64`.
    pub fn placed(&self) -> u64
        ensures { result ≡ self.now.placed }
    {
        self.placed
    }

    /// The rows of the description of which this is held.
    pub fn rows(&self, alloc: Global, description: &Description) -> Result<Rows, AllocError>
        requires { IsHeldOf description.now.items self.now }
        ensures { IfOk result (λ rows. elaborated description.now.items self.now.top ≡ Ok rows) }
    {
        let top = self.top();
        known_rows(alloc, description, top)
    }

    /// The layout of the component of the item at this address under a mode, in the description of which this is held: sizes and places
    /// in bytes, of a register's fields in bits, each number over 2^40 as 2^40 + 1. There is none where the item holds no component,
    /// and none of a field.
    pub fn layout(&self, description: &Description, body: &Address, mode: Mode) -> Option<&Layout>
        requires { IsHeldOf description.now.items self.now }
        ensures { option_copied result ≡ layout_at description.now.items body.now mode }
    {
        if !has_layout(description, body) {
            return None;
        }
        match self.tree.node(body) {
            Some(kept) => Some(kept.node.core().layouts.as_ref().under(mode)),
            None => None,
        }
    }
}
