//! The instances that a target passes.
ghost use Rattle.std.specs.Prelude.{◌≡◌, ◌∷◌, [], IfOk, IfSome};
ghost use Rattle.rdl_elab.specs.HeldPath.{held_path};

use crate::walk::shared::InstanceAddress;
use std::alloc::{AllocError, Global};
use std::marker::Model;
use std::rc::Rc;

/// How the instances are held.
#[derive(Drop)]
enum HeldPath {
    /// One in a definition of the root, and one inside it in another, by their numbers.
    Two(u32, u32, u32, u32),
    Shared(Rc<Vec<InstanceAddress>>),
}

/// The instances that a target passes, which several share. Two of them in definitions of the root take no memory. A contract sees
/// the list of their addresses.
#[derive(Drop)]
pub(crate) struct InstancePath {
    held: HeldPath,
}

impl Model for InstancePath {
    ghost use Rattle.std.specs.Prelude.{ℕ, List};
    ghost use Rattle.rdl_elab.specs.HeldPath.{held_path};

    ghost Value = { List (List ℕ) };

    ghost view = { λ p. held_path p.held };
}

/// How these two are held, if both are in definitions of the root and have small numbers.
fn held_two(first: &InstanceAddress, second: &InstanceAddress) -> Option<HeldPath>
    ensures { IfSome result (λ held. held_path held ≡ first.now ∷ second.now ∷ []) }
{
    let outer = first.in_root()?;
    let inner = second.in_root()?;
    Some(HeldPath::Two(outer.0, outer.1, inner.0, inner.1))
}

/// The two of them in memory of their own.
fn both(
    alloc: Global,
    first: InstanceAddress,
    second: InstanceAddress,
) -> Result<Vec<InstanceAddress>, AllocError>
    ensures { IfOk result (λ path. path.items ≡ first ∷ second ∷ []) }
{
    let mut path = Vec::with_capacity(alloc, 2)?;
    path.push(first)?;
    path.push(second)?;
    Ok(path)
}

impl InstancePath {
    ghost use Rattle.std.specs.Prelude.{◌≡◌, ◌+◌, ◌<◌, ◌^◌, ◌∷◌, [], true, IfOk, option_map, slice_get};
    ghost use Rattle.std.specs.Option.{is_none};
    ghost use Rattle.rdl_tree.specs.Address.{number_of};
    ghost use Rattle.rdl_elab.specs.HeldPath.{has_at};

    /// An instance, and one inside it.
    pub(crate) fn of_two(
        alloc: Global,
        first: InstanceAddress,
        second: InstanceAddress,
    ) -> Result<InstancePath, AllocError>
        ensures { IfOk result (λ p. p ≡ first ∷ second ∷ []) }
    {
        match held_two(&first, &second) {
            Some(held) => Ok(InstancePath { held }),
            None => InstancePath::of_all(alloc, both(alloc, first, second)?),
        }
    }

    pub(crate) fn of_all(
        alloc: Global,
        path: Vec<InstanceAddress>,
    ) -> Result<InstancePath, AllocError>
        ensures { IfOk result (λ p. p ≡ path.items) }
    {
        Ok(InstancePath {
            held: HeldPath::Shared(Rc::new(alloc, path)?),
        })
    }

    /// The same instances, for one more.
    pub(crate) fn share(&self) -> Result<InstancePath, AllocError>
        ensures { IfOk result (λ p. p ≡ self.now) }
    {
        let held = match &self.held {
            HeldPath::Two(around, number, below, inner) => {
                HeldPath::Two(*around, *number, *below, *inner)
            }
            HeldPath::Shared(path) => HeldPath::Shared(path.clone()?),
        };
        Ok(InstancePath { held })
    }

    /// Whether there are no more of them than this number.
    pub(crate) fn is_over(&self, number: usize) -> bool
        ensures { result ≡ is_none (slice_get self.now number) }
    {
        match &self.held {
            HeldPath::Two(_, _, _, _) => match number {
                0 => false,
                1 => false,
                _ => true,
            },
            HeldPath::Shared(path) => path.as_slice().get(number).is_none(),
        }
    }

    /// The number that the instance of this number among them has in its body.
    pub(crate) fn number_at(&self, number: usize) -> Option<usize>
        ensures { result ≡ option_map number_of (slice_get self.now number) }
    {
        match &self.held {
            HeldPath::Two(_, first, _, second) => match number {
                0 => Some(*first as usize),
                1 => Some(*second as usize),
                _ => None,
            },
            HeldPath::Shared(path) => match path.as_slice().get(number) {
                Some(next) => Some(next.number()),
                None => None,
            },
        }
    }

    /// Whether the instance of this number among them is this one.
    #[inline(always)]
    pub(crate) fn is_at(&self, number: usize, instance: &InstanceAddress) -> bool
        ensures there { result ≡ has_at instance.now (slice_get self.now number) }
        ensures within { result ≡ true → number + 1 < 2 ^ 64 }
    {
        match &self.held {
            HeldPath::Two(around, first, below, second) => match number {
                0 => InstanceAddress::of_root(*around, *first).is(instance),
                1 => InstanceAddress::of_root(*below, *second).is(instance),
                _ => false,
            },
            HeldPath::Shared(path) => match path.as_slice().get(number) {
                Some(next) => next.is(instance),
                None => false,
            },
        }
    }
}
