//! The map that a history keeps.
ghost use Rattle.std.specs.Prelude.{◌≡◌, ◌⊎◌, ◌≤◌, ◌*◌, true, false, map, None, Some, Ok, Err, IfOk, IfErr, OnOk, OnErr, option_copied};
ghost use Rattle.journal_core.specs.Along.{FitInTurn};
ghost use Rattle.rdl_edit.specs.Backs.{read_back, prior, Fits, IsCheap};
ghost use Rattle.rdl_edit.specs.OfEdits.{IsLeft, IsOwn, IsTurned};
ghost use Rattle.rdl_edit.specs.Resuming.{session_fault};
ghost use Rattle.rdl_edit.specs.Step.{HasRows, Leads, Refuses};
ghost use Rattle.rdl_edit.specs.declared.resume_fault.ResumeFault.{ResumeFault};
ghost use Rattle.rdl_edit.specs.Still.{keeps_layouts};
ghost use Rattle.rdl_elab.specs.Anew.{all_instances};
ghost use Rattle.rdl_elab.specs.Faults.{elaborated};
ghost use Rattle.rdl_held.specs.HeldMap.{IsHeldOf};
ghost use Rattle.rdl_edit.specs.Placing.{HasPlaced, IsInReach};
ghost use Rattle.rdl_edit.specs.QuietSteps.{IsQuietStep};
ghost use Rattle.rdl_rewrite.specs.Patches.{patches};
ghost use Rattle.rdl_scope.specs.ItemFaults.{out_of_memory};
ghost use Rattle.rdl_tree.specs.Patch.{inverses};

use crate::back::Back;
use crate::refusal::{Refusal, refused};
use crate::resume_fault::ResumeFault;
use crate::resuming::{opened, visit};
use crate::ways::{Direction, backs};
use journal_core::invertible::Invertible;
use rdl_elab::row::Rows;
use rdl_held::held::Held;
use rdl_rewrite::edit::Edit;
use rdl_rewrite::rewrite::patches_of_shallow;
use rdl_text::name::Name;
use rdl_tree::address::Address;
use rdl_tree::description::Description;
use rdl_tree::fault::{Fault, FaultKind};
use rdl_tree::patch::Patch;
use std::alloc::{AllocError, Global};
use std::marker::Model;

/// A map that has rows, with the name that the option asks of its top, and what is held of all its components. A contract sees its
/// description and that name.
#[derive(Debug, Drop)]
pub struct Map {
    description: Description,
    name: Option<Name>,
    held: Held,
}

impl Model for Map {
    ghost use Rattle.rdl_edit.specs.Keeping.{Held};
    ghost use Rattle.rdl_edit.specs.Keeping.{Keeps};
    ghost use Rattle.rdl_tree.specs.contracts.description.Body as body;
    ghost use Rattle.std.specs.Coded.{codes};

    ghost Value = { Held };

    ghost coded = { Prim.hlevel (codes, body.the_row.coded) };

    ghost view = { λ m. record { state = record { description = m.description.items; option = m.name }; placed = m.held.placed } };

    ghost invariant = { λ m. Keeps (record { description = m.description.items; option = m.name }) m.held };
}

/// What a contract knows of a map but for what is held of it: its description, and the name that the option asks of its top. Code
/// makes none.
#[derive(Drop)]
pub struct MapState {
    unit: (),
}

impl Model for MapState {
    ghost use Rattle.std.specs.Prelude.{None};
    ghost use Rattle.std.specs.Coded.{codes};
    ghost use Rattle.rdl_tree.specs.Items.{no_items};
    ghost use Rattle.rdl_tree.specs.contracts.description.Body as body;
    ghost use Rattle.rdl_edit.specs.Step.{State};

    ghost Value = { State };

    ghost coded = { Prim.hlevel (codes, body.the_row.coded) };

    ghost view = { λ _. record { description = no_items; option = None } };
}

/// A map with the steps that lead back from it and on, each list with the next one to be taken first.
#[derive(Debug, Drop)]
pub struct Resumed {
    pub map: Map,
    pub undo: Vec<Back>,
    pub redo: Vec<Back>,
}

/// Want of memory as a fault of the map.
fn no_memory() -> Fault
    ensures { result ≡ out_of_memory }
{
    Fault {
        kind: FaultKind::Memory,
        address: Address::new(),
    }
}

fn top_text(name: Option<&Name>) -> Option<&str>
    ensures { option_copied result ≡ option_copied name.entry }
{
    match name {
        Some(name) => Some(name.as_str()),
        None => None,
    }
}

impl Map {
    /// Takes the description, and drops it where it has a fault.
    pub fn open(alloc: Global, description: Description, name: Option<Name>) -> Result<Map, Fault>
        ensures ok { IfOk result (λ m. m.state ≡ record { description = description.items; option = name }) }
        ensures placed { IfOk result (λ m. m.placed ≤ 3 * all_instances description.items) }
        ensures accepted { IfOk result (λ _. HasRows (record { description = description.items; option = name })) }
        ensures refused { IfErr result (λ fault. (elaborated description.items name ≡ Err fault) ⊎ (fault ≡ out_of_memory)) }
    {
        let held = Held::of(alloc, &description, top_text(name.as_ref()))?;
        Ok(Map {
            description,
            name,
            held,
        })
    }

    /// Takes the description as `open` does, or drops it with the fault of its map, and makes the rows of the map besides.
    pub fn open_with_rows(
        alloc: Global,
        description: Description,
        name: Option<Name>,
    ) -> Result<(Map, Rows), Fault>
        ensures ok { IfOk result (λ shown. shown.0.state ≡ record { description = description.items; option = name }) }
        ensures placed { IfOk result (λ shown. shown.0.placed ≤ 3 * all_instances description.items) }
        ensures rows { IfOk result (λ shown. elaborated description.items name ≡ Ok shown.1) }
        ensures refused { IfErr result (λ fault. (elaborated description.items name ≡ Err fault) ⊎ (fault ≡ out_of_memory)) }
    {
        let map = Map::open(alloc, description, name)?;
        match map.rows(alloc) {
            Ok(rows) => Ok((map, rows)),
            Err(_) => Err(no_memory()),
        }
    }

    /// Takes the description, with the steps that lead back from it and on, each list with the next one to be taken first,
    /// and marks them as read. Refused where a patch doesn't fit or a map on the way has a fault; what was handed in is dropped then.
    pub fn resume(
        alloc: Global,
        description: Description,
        name: Option<Name>,
        undo: Vec<Vec<Patch>>,
        redo: Vec<Vec<Patch>>,
    ) -> Result<Resumed, ResumeFault>
        ensures map { IfOk result (λ r. r.map.state ≡ record { description = description.items; option = name }) }
        ensures placed { IfOk result (λ r. r.map.placed ≤ 3 * all_instances description.items) }
        ensures undo { IfOk result (λ r. r.undo.items ≡ map (λ step. read_back step.items) undo.items) }
        ensures redo { IfOk result (λ r. r.redo.items ≡ map (λ step. read_back step.items) redo.items) }
        ensures undo_fits { IfOk result (λ r. FitInTurn prior Fits r.map.state r.undo.items) }
        ensures redo_fits { IfOk result (λ r. FitInTurn prior Fits r.map.state r.redo.items) }
        ensures accepted { IfOk result (λ _. session_fault name description.items (map (λ step. step.items) undo.items) (map (λ step. step.items) redo.items) ≡ None) }
        ensures refused { IfErr result (λ f. (session_fault name description.items (map (λ step. step.items) undo.items) (map (λ step. step.items) redo.items) ≡ Some f) ⊎ (f ≡ ResumeFault.Memory)) }
    {
        let mut description = description;
        let held = match opened(alloc, &description, top_text(name.as_ref())) {
            Ok(held) => held,
            Err(fault) => return Err(fault),
        };
        let undo = backs(alloc, undo)?;
        let redo = backs(alloc, redo)?;
        let undo = match visit(alloc, &mut description, &held, undo, Direction::Undo) {
            Ok(undo) => undo,
            Err(fault) => return Err(fault),
        };
        let redo = match visit(alloc, &mut description, &held, redo, Direction::Redo) {
            Ok(redo) => redo,
            Err(fault) => return Err(fault),
        };
        let map = Map {
            description,
            name,
            held,
        };
        Ok(Resumed { map, undo, redo })
    }

    pub fn description(&self) -> &Description
        ensures { result.now.items ≡ self.now.state.description }
    {
        &self.description
    }

    /// What is held of all its components, their layouts among it.
    pub fn held(&self) -> &Held
        ensures held { IsHeldOf self.now.state.description result.now }
        ensures top { result.now.top ≡ self.now.state.option }
        ensures placed { result.now.placed ≡ self.now.placed }
    {
        &self.held
    }

    /// How many instances the last step placed, once for each mode: it was the opening, or an accepted edit, undo or redo. The count
    /// stops at the greatest `u64`.
    pub fn placed(&self) -> u64
        ensures { result ≡ self.now.placed }
    {
        self.held.placed()
    }

    /// The rows, made anew.
    pub fn rows(&self, alloc: Global) -> Result<Rows, AllocError>
        ensures { IfOk result (λ rows. elaborated self.now.state.description self.now.state.option ≡ Ok rows) }
    {
        self.held.rows(alloc, &self.description)
    }
}

impl Invertible for Map {
    ghost use Rattle.rdl_edit.specs.Backs.{prior, Fits};
    ghost use Rattle.rdl_edit.specs.OfEdits.{IsLeft, IsOwn, IsTurned};
    ghost use Rattle.rdl_edit.specs.Step.{Leads, Refuses};

    type Change = Edit;

    type Back = Back;

    type Refusal = Refusal;

    type State = MapState;

    ghost state = { λ m. m.state };

    ghost prior = { prior };

    ghost fits = { Fits };

    ghost own = { IsOwn };

    ghost leaves = { IsLeft };

    ghost turns = { IsTurned };

    ghost leads = { Leads };

    ghost refuses = { Refuses };

    /// The step of the edit. What takes it back has one patch for each item that it touched.
    fn apply(&mut self, alloc: Global, edit: &Edit) -> Result<Back, Refusal>
        ensures leads { OnOk result (Leads self.old.state edit.now self.new.state) }
        ensures fits { IfOk result (λ back. Fits self.new.state back) }
        ensures own { IfOk result (λ back. IsOwn self.new.state back) }
        ensures back { IfOk result (λ back. prior self.new.state back ≡ self.old.state) }
        ensures leaves { IfOk result (λ back. IsLeft self.old.state edit.now back) }
        ensures mark { IfOk result (λ back. back.read ≡ false) }
        ensures inverse { IfOk result (λ back. back.patches ≡ inverses (patches self.old.state.description edit.now) self.old.state.description) }
        ensures cost { IfOk result (λ back. IsCheap (patches self.old.state.description edit.now) self.old.state.description back.patches) }
        ensures placed { OnOk result (HasPlaced self.old.state.description (patches self.old.state.description edit.now) self.new.state.description self.new.placed) }
        ensures edited { OnOk result (IsInReach self.old.state.description (patches self.old.state.description edit.now) self.new.state.description self.new.placed) }
        ensures none { OnOk result (keeps_layouts edit.now ≡ true → self.new.placed ≡ 0) }
        ensures back_quiet { IfOk result (λ back. keeps_layouts edit.now ≡ true → IsQuietStep back.patches self.new.state.description) }
        ensures refused { IfErr result (λ refusal. Refuses self.old.state edit.now refusal) }
        ensures err { OnErr result (self.new ≡ self.old) }
    {
        let patches = patches_of_shallow(alloc, &self.description, edit)?;
        let back = match self.held.turn(alloc, &mut self.description, patches) {
            Ok(back) => back,
            Err(fault) => return Err(refused(fault)),
        };
        Ok(Back::new(back, false))
    }

    /// Takes a step back. What leads forward again has as many patches, and the same mark.
    fn revert(&mut self, alloc: Global, back: Back) -> Result<Back, Back>
        requires { Fits self.old.state back }
        ensures leads { OnOk result (self.new.state ≡ prior self.old.state back) }
        ensures fits { IfOk result (λ forward. Fits self.new.state forward) }
        ensures own { IfOk result (λ forward. IsOwn self.old.state back → IsOwn self.new.state forward) }
        ensures back { IfOk result (λ forward. prior self.new.state forward ≡ self.old.state) }
        ensures turns { IfOk result (λ forward. IsTurned self.old.state back forward) }
        ensures mark { IfOk result (λ forward. forward.read ≡ back.read) }
        ensures inverse { IfOk result (λ forward. forward.patches ≡ inverses back.patches self.old.state.description) }
        ensures cost { IfOk result (λ forward. IsCheap back.patches self.old.state.description forward.patches) }
        ensures placed { OnOk result (HasPlaced self.old.state.description back.patches self.new.state.description self.new.placed) }
        ensures edited { OnOk result (IsInReach self.old.state.description back.patches self.new.state.description self.new.placed) }
        ensures none { OnOk result (IsQuietStep back.patches self.old.state.description → self.new.placed ≡ 0) }
        ensures back_quiet { IfOk result (λ forward. IsQuietStep back.patches self.old.state.description → IsQuietStep forward.patches self.new.state.description) }
        ensures handed { IfErr result (λ same. same ≡ back) }
        ensures err { OnErr result (self.new ≡ self.old) }
    {
        let read = back.read();
        let patches = back.into_vec();
        let forward = match self.held.turn_known(alloc, &mut self.description, patches) {
            Ok(forward) => forward,
            Err(same) => return Err(Back::new(same, read)),
        };
        Ok(Back::new(forward, read))
    }
}
