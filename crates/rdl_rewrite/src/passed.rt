//! The instances that a target passes, as a walk finds them.
ghost use Rattle.std.specs.Prelude.{◌≡◌, ◌≤◌, ◌<◌, ℕ, true, length, Some, IfOk, IfSome, option_map, option_copied};
ghost use Rattle.std.specs.List.{list_any};
ghost use Rattle.rdl_tree.specs.Address.{holder_of};
ghost use Rattle.rdl_tree.specs.Depth.{depth};
ghost use Rattle.rdl_scope.specs.Target.{instance_in, passes};
ghost use Rattle.rdl_scope.specs.Types.{component_of, items_in};
ghost use Rattle.rdl_scope.specs.Walk.{is_instance};
ghost use Rattle.rdl_rewrite.specs.Addresses.{leads_to, passes_by};
ghost use Rattle.rdl_rewrite.specs.Firsts.{AreFirsts};
ghost use Rattle.rdl_rewrite.specs.Passed.{may_hold, may_pass, passes_from, if_passed, IsBefore};
ghost use Rattle.rdl_rewrite.specs.Sweep.{Knows};

use crate::firsts::Firsts;
use crate::leads::{ends_at, is_on};
use crate::sweep::Sweep;
use rdl_scope::targets::{is_instance, passes};
use rdl_text::name::Name;
use rdl_tree::address::Address;
use rdl_tree::description::Item;
use std::alloc::{AllocError, Global};

/// Whether an instance of this name may have the component that the item holds.
fn may_hold(holder: Option<&Item>, name: &Name) -> bool
    ensures { result ≡ may_hold (option_copied holder.entry) name.now }
{
    match holder {
        Some(Item::Define(..)) => true,
        Some(Item::Instance(shell, _)) => shell.name() == name,
        _ => false,
    }
}

/// Whether these names may pass the taken item, which stands in the component that the holder holds. `is_inside` says
/// whether they begin there.
fn may_pass(
    taken: Option<&Item>,
    holder: Option<&Item>,
    mut is_inside: bool,
    names: &[Name],
) -> bool
    ensures { result ≡ may_pass (option_copied taken.entry) (option_copied holder.entry) is_inside names.now }
{
    'names: for name in names {
        if is_inside && is_instance(taken, name) {
            return true;
        }
        is_inside = may_hold(holder, name);
    }
    false
}

/// Whether the names may pass the taken item, wherever they begin.
pub(crate) fn may_pass_anywhere(sweep: &Sweep, names: &[Name]) -> bool
    ensures { result ≡ may_pass (option_copied sweep.now.taken) (option_copied sweep.now.holder) true names.now }
{
    may_pass(sweep.taken, sweep.holder, true, names)
}

fn has_instance(items: &[Item], name: &Name) -> bool
    ensures { result ≡ list_any (λ item. is_instance name.now (Some item)) items.now }
{
    items.iter().any(|item| is_instance(Some(item), name))
}

/// Whether the taken item is the first instance of the name in its body.
#[tactic(auto, using(crate::proofs::Before::first_there))]
fn is_first(sweep: &Sweep, name: &Name) -> bool
    requires { Knows sweep.now }
    ensures { result ≡ true → instance_in sweep.now.whole.now.items (holder_of sweep.now.way.now) (items_in (holder_of sweep.now.way.now) sweep.now.whole.now.items) name.now ≡ Some sweep.now.way.now }
{
    is_instance(sweep.taken, name) && !has_instance(sweep.before, name)
}

/// The first of two names, where it stands for an instance other than the taken item, and the second is known to stand for
/// that, for an assignment in the body at this address, behind these instances.
#[tactic(auto, using(crate::proofs::Before::is_before))]
pub(crate) fn before_taken<'a>(
    sweep: &Sweep<'a>,
    at: &Address,
    names: &'a [Name],
    firsts: &Firsts<'a>,
) -> Option<&'a Name>
    requires known { Knows sweep.now }
    ensures { IfSome result (λ first. (n : ℕ) → AreFirsts sweep.now.whole.now.items (holder_of sweep.now.way.now) at.now n firsts.now → IsBefore sweep.now.whole.now.items sweep.now.way.now at.now n first.now names.now) }
{
    match names {
        [first, second] if is_first(sweep, second) => {
            let (number, is_inside) = firsts.get(first.as_str())?;
            if is_inside && !ends_at(sweep.way, at, number) {
                Some(first)
            } else {
                None
            }
        }
        _ => None,
    }
}

/// The path, if it passes the item on the way.
fn if_passed(way: &Address, path: Option<Vec<Address>>) -> Option<Vec<Address>>
    ensures { option_map (λ v. v.items) result ≡ if_passed way.now (option_map (λ v. v.items) path) }
{
    match path {
        Some(path) => {
            if is_on(way, path.as_slice()) {
                Some(path)
            } else {
                None
            }
        }
        None => None,
    }
}

/// The instance, and those that the other names pass, if there are any. The instance's component is the one in which the
/// taken item stands.
fn path_inside(
    alloc: Global,
    sweep: &Sweep,
    instance: Address,
    names: &[Name],
) -> Result<Option<Vec<Address>>, AllocError>
    requires nesting { depth sweep.now.whole.now.items ≤ 16 }
    requires known { Knows sweep.now }
    requires inside { 0 < length names.now → component_of sweep.now.whole.now.items instance ≡ Some (holder_of sweep.now.way.now) }
    ensures { IfOk result (λ path. option_map (λ v. v.items) path ≡ passes_from sweep.now.whole.now.items instance names.now) }
{
    if names.is_empty() {
        return Ok(Some(vec![in alloc; instance]?));
    }
    match passes(alloc, sweep.whole, &sweep.place, sweep.siblings, names)? {
        Some(mut path) => {
            path.insert(0, instance)?;
            Ok(Some(path))
        }
        None => Ok(None),
    }
}

/// The instances that the names pass, the first of which stands for this instance, for the assignment of this number in the
/// body at the address. `is_inside` says whether the instance's component is the one in which the taken item stands.
fn path(
    alloc: Global,
    sweep: &Sweep,
    at: &Address,
    number: usize,
    names: &[Name],
    instance: Address,
    is_inside: bool,
    rest: &[Name],
) -> Result<Option<Vec<Address>>, AllocError>
    requires nesting { depth sweep.now.whole.now.items ≤ 16 }
    requires known { Knows sweep.now }
    requires first { passes sweep.now.whole.now.items at.now number names.now ≡ passes_from sweep.now.whole.now.items instance rest.now }
    requires inside { is_inside ≡ leads_to (holder_of sweep.now.way.now) (component_of sweep.now.whole.now.items instance) }
    ensures { IfOk result (λ path. option_map (λ v. v.items) path ≡ passes sweep.now.whole.now.items at.now number names.now) }
{
    if is_inside || rest.is_empty() {
        return path_inside(alloc, sweep, instance, rest);
    }
    passes(alloc, sweep.whole, at, number, names)
}

/// The instances that the names pass, if the taken item is one of them, for the assignment of this number in the body at the
/// address, which stands behind these instances. Bodies are searched only where the names say that this may be so.
pub(crate) fn passed<'a>(
    alloc: Global,
    sweep: &Sweep<'a>,
    at: &Address,
    number: usize,
    names: &'a [Name],
    firsts: &Firsts<'a>,
) -> Result<Option<Vec<Address>>, AllocError>
    requires nesting { depth sweep.now.whole.now.items ≤ 16 }
    requires known { Knows sweep.now }
    requires room { length at.now < 17 }
    requires firsts { AreFirsts sweep.now.whole.now.items (holder_of sweep.now.way.now) at.now number firsts.now }
    ensures { IfOk result (λ path. option_map (λ v. v.items) path ≡ if_passed sweep.now.way.now (passes sweep.now.whole.now.items at.now number names.now)) }
{
    let Some((name, rest)) = names.split_first() else {
        return Ok(None);
    };
    let Some((first, is_inside)) = firsts.get(name.as_str()) else {
        return Ok(None);
    };
    if !ends_at(sweep.way, at, first) && !may_pass(sweep.taken, sweep.holder, is_inside, rest) {
        return Ok(None);
    }
    let instance = at.inside(first);
    let path = path(alloc, sweep, at, number, names, instance, is_inside, rest)?;
    Ok(if_passed(sweep.way, path))
}

/// Whether the taken item is one of the instances that the names pass, for the assignment of this number in the body at the
/// address, which stands behind these instances.
#[tactic(auto, using(crate::proofs::Before::before_passes))]
pub(crate) fn passes_taken<'a>(
    alloc: Global,
    sweep: &Sweep<'a>,
    at: &Address,
    number: usize,
    names: &'a [Name],
    firsts: &Firsts<'a>,
) -> Result<bool, AllocError>
    requires nesting { depth sweep.now.whole.now.items ≤ 16 }
    requires known { Knows sweep.now }
    requires room { length at.now < 17 }
    requires firsts { AreFirsts sweep.now.whole.now.items (holder_of sweep.now.way.now) at.now number firsts.now }
    ensures { IfOk result (λ answer. answer ≡ passes_by sweep.now.way.now (passes sweep.now.whole.now.items at.now number names.now)) }
{
    if let Some(_) = before_taken(sweep, at, names, firsts) {
        return Ok(true);
    }
    let path = passed(alloc, sweep, at, number, names, firsts)?;
    Ok(path.is_some())
}
