//! What follows the name of an item.
ghost use Rattle.std.specs.Prelude.{◌≡◌, ◌≤◌, ◌<◌, ◌++◌, ◌∷◌, [], length, true, is_ok, Some, IfOk, IfErr, IsErrOf, option_copied, if◌then◌else◌};
ghost use Rattle.rdl_tree.specs.ItemAt.{item_at};
ghost use Rattle.rdl_tree.specs.Address.{holder_of};
ghost use Rattle.rdl_tree.specs.Depth.{depth};
ghost use Rattle.rdl_scope.specs.Target.{passes};
ghost use Rattle.rdl_rewrite.specs.Firsts.{AreFirsts, is_dynamic};
ghost use Rattle.rdl_rewrite.specs.Passed.{if_passed};
ghost use Rattle.rdl_rewrite.specs.Led.{IsLed};
ghost use Rattle.rdl_rewrite.specs.Sweep.{Knows};
ghost use Rattle.rdl_rewrite.specs.Fates.{given_if, fate_of_target, fate_in_renaming, fate, fate_patches};
ghost use Rattle.rdl_rewrite.specs.Names.{has_name};
ghost use Rattle.rdl_rewrite.specs.Renaming.{renamed_names, is_reserved, names_in, is_taken, renamed};
ghost use Rattle.rdl_rewrite.specs.Refuses.{RefusesEdit};
ghost use Rattle.rdl_rewrite.specs.declared.edit.PatchRefusal.{PatchRefusal};

use crate::edit::PatchRefusal;
use crate::fate::Fate;
use crate::firsts::Firsts;
use crate::leads::{ends_at, is_at, leads_to};
use crate::names::{is_defined, is_instantiated};
use crate::passed::{before_taken, passed};
use crate::sweep::{Sweep, is_too_deep};
use rdl_parse::class::Class;
use rdl_text::name::Name;
use rdl_tree::address::Address;
use rdl_tree::description::{Body, Description, Item, Of};
use rdl_tree::find::item_at;
use rdl_tree::part::Part;
use rdl_tree::patch::Patch;
use rdl_tree::shell::Shell;
use rdl_tree::target::Target;
use std::alloc::{AllocError, Global};

fn chosen<'a>(is_it: bool, name: &'a Name, old: &'a Name) -> &'a Name
    ensures { result.now ≡ (if is_it then name.now else old.now) }
{
    if is_it { name } else { old }
}

/// The names of a target, which passes the instances at these addresses.
fn renamed_names(
    alloc: Global,
    way: &Address,
    name: &Name,
    path: &[Address],
    names: &[Name],
) -> Result<Vec<Name>, AllocError>
    ensures { IfOk result (λ new. new.items ≡ renamed_names way.now name.now path.now names.now) }
{
    let mut new = Vec::with_capacity(alloc, names.len())?;
    'names: for (i, old) in names.iter().enumerate() {
        let new_name = chosen(is_at(way, path.get(i)), name, old);
        new.push(new_name.try_copy(alloc)?)?;
    }
    Ok(new)
}

/// The definition gets the name if it is the item on the way.
fn definition_fate(alloc: Global, is_it: bool, name: &Name) -> Result<Fate, AllocError>
    ensures { IfOk result (λ fate. fate ≡ given_if is_it (Part.OfDefine name.now)) }
{
    if is_it {
        Ok(Fate::Given(Part::OfDefine(name.try_copy(alloc)?)))
    } else {
        Ok(Fate::Kept)
    }
}

/// The type gets the name if it is the item on the way.
fn type_fate(alloc: Global, is_it: bool, name: &Name) -> Result<Fate, AllocError>
    ensures { IfOk result (λ fate. fate ≡ given_if is_it (Part.OfType name.now)) }
{
    if is_it {
        Ok(Fate::Given(Part::OfType(name.try_copy(alloc)?)))
    } else {
        Ok(Fate::Kept)
    }
}

/// The instance gets the name.
fn shell_fate(alloc: Global, name: &Name, shell: &Shell) -> Result<Fate, AllocError>
    ensures { IfOk result (λ fate. fate ≡ Fate.Given (Part.OfShell (record shell.now { name = name.now }))) }
{
    Ok(Fate::Given(Part::OfShell(shell.renamed(alloc, name)?)))
}

/// The names of a target of two, the second of which stands for the item on the way.
fn with_second(alloc: Global, name: &Name, first: &Name) -> Result<Vec<Name>, AllocError>
    ensures { IfOk result (λ new. new.items ≡ first.now ∷ name.now ∷ []) }
{
    let mut new = Vec::with_capacity(alloc, 2)?;
    new.push(first.try_copy(alloc)?)?;
    new.push(name.try_copy(alloc)?)?;
    Ok(new)
}

/// The target of the assignment of this number in the body at the address, behind these instances, gets the name where it
/// passes the item on the way.
#[tactic(auto, using(crate::proofs::Before::before_renamed))]
fn target_fate<'a>(
    alloc: Global,
    sweep: &Sweep<'a>,
    name: &Name,
    at: &Address,
    number: usize,
    target: &'a Target,
    firsts: &Firsts<'a>,
) -> Result<Fate, AllocError>
    requires nesting { depth sweep.now.whole.now.items ≤ 16 }
    requires known { Knows sweep.now }
    requires room { length at.now < 17 }
    requires firsts { AreFirsts sweep.now.whole.now.items (holder_of sweep.now.way.now) at.now number firsts.now }
    ensures { IfOk result (λ fate. fate ≡ fate_of_target sweep.now.way.now name.now target.now (if_passed sweep.now.way.now (passes sweep.now.whole.now.items at.now number target.now))) }
{
    if let Some(first) = before_taken(sweep, at, target.names(), firsts) {
        let names = with_second(alloc, name, first)?;
        return Ok(Fate::Given(Part::OfTarget(Target::from_vec(names))));
    }
    match passed(alloc, sweep, at, number, target.names(), firsts)? {
        Some(path) => {
            let names = renamed_names(alloc, sweep.way, name, path.as_slice(), target.names())?;
            Ok(Fate::Given(Part::OfTarget(Target::from_vec(names))))
        }
        None => Ok(Fate::Kept),
    }
}

/// What becomes of this item, of this number in the body at the address, behind these instances, where the one on the way
/// gets the name. `led` says whether a reference to the old name leads to that here.
pub(crate) fn fate<'a>(
    alloc: Global,
    sweep: &Sweep<'a>,
    name: &Name,
    at: &Address,
    number: usize,
    found: &'a Item,
    led: bool,
    firsts: &Firsts<'a>,
) -> Result<Fate, AllocError>
    requires nesting { depth sweep.now.whole.now.items ≤ 16 }
    requires known { Knows sweep.now }
    requires room { length at.now < 17 }
    requires here { item_at (at.now ++ number ∷ []) sweep.now.whole.now.items ≡ Some found.now }
    requires led { IsLed sweep.now.whole.now.items sweep.now.way.now (at.now ++ number ∷ []) led }
    requires firsts { is_dynamic found.now ≡ true → AreFirsts sweep.now.whole.now.items (holder_of sweep.now.way.now) at.now number firsts.now }
    ensures { IfOk result (λ fate. fate ≡ fate_in_renaming sweep.now.whole.now.items sweep.now.way.now name.now (at.now ++ number ∷ []) found.now) }
{
    match found {
        Item::Define(..) => definition_fate(alloc, ends_at(sweep.way, at, number), name),
        Item::Instance(shell, of) => {
            if ends_at(sweep.way, at, number) {
                return shell_fate(alloc, name, shell);
            }
            match of {
                Of::Named(_) => type_fate(alloc, leads_to(sweep.taken, led, found), name),
                Of::Anonymous(_) => Ok(Fate::Kept),
            }
        }
        Item::Dynamic(target, ..) => target_fate(alloc, sweep, name, at, number, target, firsts),
        Item::Own(..) => Ok(Fate::Kept),
        Item::Default(..) => Ok(Fate::Kept),
    }
}

fn is_reserved(name: &Name) -> bool
    ensures { result ≡ is_reserved name.now }
{
    !matches!(Class::of(name.as_str()), Class::Name)
}

/// Whether an instance in the body has this name.
fn is_in(name: &Name, body: Option<&Body>) -> bool
    ensures { result ≡ has_name name.now (names_in (option_copied body.entry)) }
{
    match body {
        Some(body) => is_instantiated(name, body),
        None => false,
    }
}

fn is_taken(whole: &Description, way: &Address, name: &Name) -> bool
    ensures { result ≡ is_taken whole.now.items way.now name.now (item_at way.now whole.now.items) }
{
    if way.is_empty() {
        return false;
    }
    match item_at(&whole.items, way.as_slice()) {
        Some(Item::Define(..)) => is_defined(name, &whole.items),
        Some(Item::Instance(..)) => is_in(name, whole.body(&way.holder())),
        _ => false,
    }
}

/// Gives the name to the item on the way, and to every reference and target that stands for it.
pub fn rename<'a>(
    alloc: Global,
    whole: &'a Description,
    way: &'a Address,
    name: &'a Name,
    is_shallow: bool,
) -> Result<Vec<Patch>, PatchRefusal>
    requires { is_shallow ≡ true → depth whole.now.items ≤ 16 }
    ensures which { IfOk result (λ ps. ps.items ≡ fate_patches (fate whole.now.items way.now (Some name.now)) [] 0 whole.now.items) }
    ensures accepted { IfOk result (λ _. is_ok (renamed whole.now.items way.now name.now) ≡ true) }
    ensures level { IfOk result (λ _. depth whole.now.items ≤ 16) }
    ensures too_deep { IsErrOf result PatchRefusal.TooDeep → 16 < depth whole.now.items }
    ensures refused { IfErr result (λ refusal. RefusesEdit whole.now.items (renamed whole.now.items way.now name.now) refusal) }
{
    if is_too_deep(whole, is_shallow) {
        return Err(PatchRefusal::TooDeep);
    }
    if is_taken(whole, way, name) {
        return Err(PatchRefusal::NameTaken);
    }
    if is_reserved(name) {
        return Err(PatchRefusal::Reserved);
    }
    Ok(Sweep::new(whole, way, Some(name)).patches(alloc)?)
}
