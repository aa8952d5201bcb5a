//! The way back from where patches have led.
ghost use Rattle.std.specs.Prelude.{◌≡◌, Bool, length, option_copied, reverse, slice_get};
ghost use Rattle.rdl_tree.specs.Items.{Items};

use crate::description::Item;
use crate::patch::Patch;
use std::alloc::Global;

/// A patch that takes another one back. Where it puts an item in, there is room for the body in which it does.
#[derive(Drop)]
pub struct Step {
    pub(crate) back: Patch,
    pub(crate) room: Vec<Item>,
    ghost empty: { length room.items ≡ 0 },
}

impl Step {
    /// A step for which there is no room.
    pub(crate) fn new(alloc: Global, back: Patch) -> Step
        ensures { result.back ≡ back }
    {
        Step {
            back,
            room: Vec::new(alloc),
        }
    }
}

/// What leads back from a description.
pub trait Way {
    ghost sound: { Items → Self → Bool };
}

/// The steps back, of which the last is taken first, and room for a patch of each.
#[derive(Drop)]
pub struct StepsBack {
    pub(crate) steps: Vec<Step>,
    pub(crate) room: Vec<Patch>,
}

impl StepsBack {
    ghost use Rattle.rdl_tree.specs.Way.{step_patches};

    /// The patch of this number of those that lead back, the first one first.
    fn patch(&self, number: usize) -> Option<&Patch>
        ensures { option_copied result ≡ slice_get (step_patches self.now) number }
    {
        match from_the_end(&self.steps, number) {
            Some(step) => Some(&step.back),
            None => None,
        }
    }
}

/// The item that stands before `number` others at the end.
fn from_the_end<T>(items: &[T], number: usize) -> Option<&T>
    ensures { option_copied result ≡ slice_get (reverse items.now) number }
{
    if number < items.len() {
        Some(&items[items.len() - 1 - number])
    } else {
        None
    }
}

/// The way back from where patches have led.
#[derive(Drop)]
pub enum WayBack {
    /// Of patches of all sorts.
    Steps(StepsBack),
    /// Of patches that exchange parts: those that lead back, the first one first.
    Exchanges(Vec<Patch>),
}

impl WayBack {
    ghost use Rattle.std.specs.Prelude.{[], IsTrue};
    ghost use Rattle.rdl_tree.specs.Way.{patches_back, is_sound};

    /// No way at all.
    pub(crate) fn none(&self) -> WayBack
        ensures none { patches_back result ≡ [] }
        ensures sound { (t : Items) → IsTrue (is_sound t result) }
    {
        let alloc = match self {
            WayBack::Steps(way) => *way.room.allocator(),
            WayBack::Exchanges(patches) => *patches.allocator(),
        };
        WayBack::Exchanges(Vec::new(alloc))
    }

    /// How many patches lead back.
    pub(crate) fn len(&self) -> usize
        ensures { result ≡ length (patches_back self.now) }
    {
        match self {
            WayBack::Steps(way) => way.steps.as_slice().len(),
            WayBack::Exchanges(patches) => patches.len(),
        }
    }

    /// The patch of this number of those that lead back, the first one first.
    pub(crate) fn patch(&self, number: usize) -> Option<&Patch>
        ensures { option_copied result ≡ slice_get (patches_back self.now) number }
    {
        match self {
            WayBack::Steps(way) => way.patch(number),
            WayBack::Exchanges(patches) => patches.get(number),
        }
    }
}

impl Way for WayBack {
    ghost use Rattle.rdl_tree.specs.Way.{is_sound};

    ghost sound = { is_sound };
}
