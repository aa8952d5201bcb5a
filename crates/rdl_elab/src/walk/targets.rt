//! The instances that the target of a dynamic assignment passes, by what is finished.
ghost use Rattle.std.specs.Prelude.{◌≡◌, ◌∷◌, [], Some, None, IfOk, IfSome, OnOk, option_copied, if◌then◌else◌};
ghost use Rattle.rdl_elab.specs.KeptTargets.{after, kept_from, kept_target};
ghost use Rattle.rdl_elab.specs.PartNames.{IsFirstNamed};

use crate::walk::finished::{Finished, Part};
use crate::walk::instance_path::InstancePath;
use crate::walk::name_marks::NameMarks;
use crate::walk::own_values::OwnValues;
use crate::walk::part_list::{FEW, LookUps, PartList};
use crate::walk::shared::InstanceAddress;
use rdl_scope::types::own_component;
use rdl_text::name::Name;
use rdl_tree::address::Address;
use rdl_tree::description::{Body, Description, Item};
use std::alloc::{AllocError, Global};
use std::marker::Model;

/// How many dynamic assignments in a body are so many that marks don't tell the names that their targets begin with from others.
const MANY: usize = 256;

/// How few dynamic assignments in a body are so few that all instances are looked through for each of them, in place of being put
/// in order.
const SCARCE: usize = 2;

/// Whether the target of an item of the body, or of an item inside it, passes more than one instance.
#[cycle(further)]
fn goes_further(body: &Body) -> bool {
    for item in body.as_slice() {
        if item_goes_further(item) {
            return true;
        }
    }
    false
}

#[cycle(further)]
fn item_goes_further(item: &Item) -> bool {
    match item {
        Item::Dynamic(target, _, _) => target.names().len() > 1,
        _ => match own_component(item) {
            Some(component) => goes_further(&component.body),
            None => false,
        },
    }
}

/// Whether the target of the item of the root of this number, or of an item inside it, passes more than one instance.
fn root_goes_further(description: &Description, number: usize) -> bool {
    match description.items.item(number) {
        Some(item) => item_goes_further(item),
        None => false,
    }
}

/// The last item of the root, from this one on and before that end, of which a target passes more than one instance.
fn last_between(description: &Description, from: usize, end: usize) -> Option<usize> {
    for number in (from..end).rev() {
        if root_goes_further(description, number) {
            return Some(number);
        }
    }
    None
}

/// The marks of the names that the targets of the body's own items from this one on begin with, if they aren't too many to tell
/// names apart.
fn first_names(body: &Body, first: usize) -> Option<NameMarks> {
    let items = body.as_slice();
    let mut marks = NameMarks::none();
    for i in first..items.len() {
        if let Item::Dynamic(target, _, _) = &items[i] {
            if marks.len() >= MANY {
                return None;
            }
            if let Some(name) = target.names().first() {
                marks.put(name.as_str());
            }
        }
    }
    Some(marks)
}

/// The last item of the root of which a target passes more than one instance, as far as that was asked, from the last item
/// on. A contract sees nothing of it.
#[derive(Drop)]
pub(crate) struct Further {
    /// The first item that was asked.
    asked: usize,
    last: Option<usize>,
}

impl Model for Further {
    ghost Value = { Unit {0} };

    ghost view = { λ f. tt };
}

impl Further {
    ghost use Rattle.std.specs.Prelude.{◌≡◌};

    /// Nothing was asked yet.
    pub(crate) fn nothing() -> Further {
        Further {
            asked: usize::MAX,
            last: None,
        }
    }

    /// Whether a target in an item of the root from this one on passes more than one instance.
    fn is_from(&mut self, description: &Description, from: usize) -> bool
        ensures { self.new ≡ self.old }
    {
        if self.last.is_none() && from < self.asked {
            let end = self.asked.min(description.items.len());
            self.last = last_between(description, from, end);
            self.asked = from;
        }
        match self.last {
            Some(last) => from <= last,
            None => false,
        }
    }

    /// Which instances of a body, that of the component at this address with so many of them, are looked up by their names.
    ///
    /// Targets of bodies that are finished later may go on inside it and look up any. Otherwise those are looked up that its
    /// own targets begin with.
    pub(crate) fn look_ups(
        &mut self,
        description: &Description,
        at: &Address,
        own: &OwnValues,
        instances: usize,
    ) -> LookUps
        ensures { self.new ≡ self.old }
    {
        if instances <= FEW {
            return LookUps::None;
        }
        let from = match at.as_slice() {
            [root] => root.saturating_add(1),
            [root, ..] => *root,
            [] => 0,
        };
        if self.is_from(description, from) {
            return LookUps::All;
        }
        let Some(first) = own.first_dynamic() else {
            return LookUps::None;
        };
        match first_names(own.body(), first) {
            Some(marks) if marks.len() <= SCARCE => LookUps::None,
            Some(marks) => LookUps::Marked(marks),
            None => LookUps::All,
        }
    }
}

/// Puts this instance behind the others, and then those that these names pass inside it. It answers whether all of them
/// are there.
fn add_passed<'a>(
    components: &[Finished<'a>],
    part: &Part<'a>,
    names: &'a [Name],
    path: &mut Vec<InstanceAddress>,
) -> Result<bool, AllocError>
    ensures { IfOk result (λ there. (if there then Some path.new.items else None) ≡ after path.old.items (kept_from components.now part.now names.now)) }
{
    path.push(part.instance()?)?;
    let Some((name, rest)) = names.split_first() else {
        return Ok(true);
    };
    let Some(component) = part.component(components) else {
        return Ok(false);
    };
    match component.parts.named(name) {
        Some(next) => add_passed(components, next, rest, path),
        None => Ok(false),
    }
}

/// This instance, and the one of the name inside it, if that is there.
fn path_of_two<'a>(
    alloc: Global,
    components: &[Finished<'a>],
    part: &Part<'a>,
    name: &'a Name,
) -> Result<Option<InstancePath>, AllocError>
    ensures { IfOk result (λ path. path ≡ kept_from components.now part.now (name.now ∷ [])) }
{
    let Some(component) = part.component(components) else {
        return Ok(None);
    };
    match component.parts.named(name) {
        Some(next) => {
            let path = InstancePath::of_two(alloc, part.instance()?, next.instance()?)?;
            Ok(Some(path))
        }
        None => Ok(None),
    }
}

/// This instance, and those that the names pass inside it, if all are there.
fn path_of_all<'a>(
    alloc: Global,
    components: &[Finished<'a>],
    part: &Part<'a>,
    names: &'a [Name],
) -> Result<Option<InstancePath>, AllocError>
    ensures { IfOk result (λ path. path ≡ kept_from components.now part.now names.now) }
{
    let count = names.len().saturating_add(1);
    let mut path = Vec::with_capacity(alloc, count.min(Address::MAX_LEN))?;
    if add_passed(components, part, names, &mut path)? {
        Ok(Some(InstancePath::of_all(alloc, path)?))
    } else {
        Ok(None)
    }
}

/// The instances that the target of item `n` passes. These are those of its body. The one that it passes first is found
/// faster where the target before passed it first.
pub(crate) fn target_path<'p, 'a>(
    alloc: Global,
    components: &[Finished<'a>],
    parts: &'p PartList<'a>,
    n: usize,
    names: &'a [Name],
    first: &mut Option<&'p Part<'a>>,
) -> Result<Option<InstancePath>, AllocError>
    requires first { IfSome (option_copied first.old) (IsFirstNamed parts.now.items) }
    ensures first { OnOk result (IfSome (option_copied first.new) (IsFirstNamed parts.now.items)) }
    ensures path { IfOk result (λ path. path ≡ kept_target components.now parts.now.items n names.now) }
{
    let Some((name, rest)) = names.split_first() else {
        return Ok(None);
    };
    let Some(part) = parts.named_again(name, *first) else {
        return Ok(None);
    };
    *first = Some(part);
    if n <= part.place() {
        return Ok(None);
    }
    match rest {
        [name] => path_of_two(alloc, components, part, name),
        _ => path_of_all(alloc, components, part, rest),
    }
}
