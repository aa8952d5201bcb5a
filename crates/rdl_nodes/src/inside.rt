//! What the targets of dynamic assignments find inside a component.
ghost use Rattle.std.specs.Prelude.{◌≡◌, ◌≤◌, IfOk, IfSome, MatchOption, Some, length, option_map, take};
ghost use Rattle.rdl_nodes.specs.Found.{found_of};
ghost use Rattle.rdl_nodes.specs.HeldInside.{within_of, inside_of};
ghost use Rattle.rdl_nodes.specs.Lasting.{AreLasts};
ghost use Rattle.rdl_seen.specs.Inside.{find};

use crate::lasts::Lasts;
use crate::layouts::Layouts;
use rdl_text::is_same;
use rdl_text::name::Name;
use rdl_tree::shell::Kind;
use std::alloc::{AllocError, Global};
use std::marker::Model;
use std::rc::Rc;

/// An instance of a body.
#[cycle(inside)]
#[derive(Drop)]
pub struct Instance<'a> {
    pub(crate) name: &'a Name,
    pub(crate) within: Within<'a>,
}

/// What a target finds inside a component.
#[cycle(inside)]
#[derive(Drop)]
pub enum Within<'a> {
    /// The component isn't known, or it is a field.
    Nothing,
    /// Its kind, its layouts, whether its instances are fields of which no two share a bit, and its instances.
    Of(Kind, Rc<Layouts>, bool, Rc<Inside<'a>>),
}

/// Among how few instances each name is looked up one by one.
const FEW: usize = 16;

/// The instances of a body, in order, as targets find them. A contract sees the tree of `rdl_seen`.
///
/// Where the last ones of each name stand takes memory of its own, and is known only if there are more than a few and names are looked
/// up among them.
#[cycle(inside)]
#[derive(Drop)]
pub struct Inside<'a> {
    instances: Vec<Instance<'a>>,
    lasts: Option<Box<Lasts>>,
}

impl<'a> Model for Inside<'a> {
    ghost use Rattle.rdl_seen.specs.Inside.{Inside as Instances};
    ghost use Rattle.rdl_nodes.specs.Codes.{coded_inside};

    ghost Value = { Instances };

    ghost coded = { coded_inside };

    ghost use Rattle.rdl_nodes.specs.HeldInside.{inside_of, inside_count};

    ghost view = { λ a. inside_of a.instances.items };

    ghost use Rattle.std.specs.Prelude.{IfSome};
    ghost use Rattle.rdl_nodes.specs.Lasting.{AreLasts};

    ghost invariant = { λ a. IfSome a.lasts (λ lasts. AreLasts a.instances.items lasts.value) };

    ghost size = { inside_count };

    ghost use Rattle.rdl_nodes.specs.InsideFalls.{deep_le-inside};

    ghost size_decreases = { λ a h. deep_le-inside a.instances.items };
}

/// An instance that is found: how many stand before it, and what is inside its component.
#[derive(Clone, Copy)]
pub(crate) struct Found<'i, 'a> {
    pub number: usize,
    pub within: &'i Within<'a>,
}

/// The last one of these instances that has this name, from the one of this number on.
fn find_from<'i, 'a>(
    instances: &'i [Instance<'a>],
    from: usize,
    name: &Name,
) -> Option<Found<'i, 'a>>
    requires { from ≤ length instances.now }
    ensures { MatchOption result (find name.now (inside_of instances.now) ≡ find name.now (inside_of (take from instances.now))) (λ f. Some (found_of f) ≡ find name.now (inside_of instances.now)) }
{
    for i in (from..instances.len()).rev() {
        let instance = &instances[i];
        if is_same(instance.name.as_str(), name.as_str()) {
            let within = &instance.within;
            return Some(Found { number: i, within });
        }
    }
    None
}

/// The last one of these instances that has this name, where the last ones of each name may be known.
fn find_among<'i, 'a>(
    instances: &'i [Instance<'a>],
    lasts: Option<&Lasts>,
    name: &Name,
) -> Option<Found<'i, 'a>>
    requires { IfSome lasts (λ lasts. AreLasts instances.now lasts.now) }
    ensures { option_map found_of result ≡ find name.now (inside_of instances.now) }
{
    let Some(lasts) = lasts else {
        return find_from(instances, 0, name);
    };
    match find_from(instances, lasts.len(), name) {
        Some(found) => Some(found),
        None => lasts.find(instances, name),
    }
}

impl<'a> Within<'a> {
    /// The same, for one more.
    pub fn share(&self) -> Result<Within<'a>, AllocError>
        ensures { IfOk result (λ within. within_of within ≡ within_of self.now) }
    {
        match self {
            Within::Nothing => Ok(Within::Nothing),
            Within::Of(kind, layouts, is_ordered, inside) => {
                let layouts = layouts.clone()?;
                let inside = inside.clone()?;
                Ok(Within::Of(*kind, layouts, *is_ordered, inside))
            }
        }
    }
}

impl<'a> Inside<'a> {
    ghost use Rattle.std.specs.Prelude.{◌≡◌, OnOk, option_map};
    ghost use Rattle.rdl_nodes.specs.Found.{found_of};
    ghost use Rattle.rdl_nodes.specs.HeldInside.{within_of};
    ghost use Rattle.rdl_seen.specs.Inside.{no_instances, with_instance, find};

    /// No instance.
    pub fn new(alloc: Global) -> Inside<'a>
        ensures { result ≡ no_instances }
    {
        Inside {
            instances: Vec::new(alloc),
            lasts: None,
        }
    }

    /// Puts one more instance behind the others.
    pub fn push(&mut self, name: &'a Name, within: Within<'a>) -> Result<(), AllocError>
        ensures { OnOk result (self.new ≡ with_instance name.now (within_of within.entry) self.old) }
    {
        self.instances.push(Instance { name, within })?;
        Ok(())
    }

    /// A name may be looked up among these. Where that is so more than a few times, it takes the same time however many there are.
    pub(crate) fn look(&mut self, alloc: Global) -> Result<(), AllocError>
        ensures { self.new ≡ self.old }
    {
        if self.instances.len() <= FEW {
            return Ok(());
        }
        match &mut self.lasts {
            Some(lasts) => lasts.look(self.instances.as_slice()),
            None => {
                self.lasts = Some(Box::new(alloc, Lasts::none(alloc))?);
                Ok(())
            }
        }
    }

    /// These are all. Where names may be looked up among them, that takes the same time however many there are.
    pub(crate) fn close(&mut self, alloc: Global, is_searched: bool) -> Result<(), AllocError>
        ensures { self.new ≡ self.old }
    {
        if !is_searched || self.instances.len() <= FEW {
            return Ok(());
        }
        let mut lasts = Lasts::none(alloc);
        lasts.reach(self.instances.as_slice())?;
        self.lasts = Some(Box::new(alloc, lasts)?);
        Ok(())
    }

    /// The last instance that has this name.
    pub(crate) fn find<'i>(&'i self, name: &Name) -> Option<Found<'i, 'a>>
        ensures { option_map found_of result ≡ find name.now self.now }
    {
        find_among(self.instances.as_slice(), self.lasts.as_deref(), name)
    }
}
