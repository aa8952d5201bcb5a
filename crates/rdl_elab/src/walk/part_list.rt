//! The instances of a component, in their order and by their names.
ghost use Rattle.std.specs.Prelude.{◌≡◌, option_and_then, option_copied, slice_get};
ghost use Rattle.rdl_elab.specs.PartNames.{part_named};

use crate::walk::finished::Part;
use crate::walk::name_marks::NameMarks;
use rdl_scope::by_name::ByName;
use rdl_text::is_same;
use rdl_text::name::Name;
use std::alloc::{AllocError, Global};
use std::marker::Model;

/// How few instances are looked through for a name.
pub(crate) const FEW: usize = 8;

/// How many names are awaited at least.
const SOME: usize = 16;

/// Which instances of a component are looked up by their names.
#[derive(Drop)]
pub(crate) enum LookUps {
    None,
    /// Those of the names that are marked.
    Marked(NameMarks),
    All,
}

/// The number of the first instance of each name, or of each that is marked.
#[derive(Drop)]
pub(crate) struct PartNames<'a> {
    marks: Option<NameMarks>,
    places: ByName<'a, usize>,
}

/// The instances of a component. A contract sees their list.
#[derive(Drop)]
pub(crate) struct PartList<'a> {
    items: Vec<Part<'a>>,
    /// Only where targets look them up, and there are many.
    names: Option<PartNames<'a>>,
}

impl<'a> PartNames<'a> {
    ghost use Rattle.std.specs.Prelude.{◌≡◌, ℕ, List, Some, IfOk, OnOk, true, bytes_eq, if◌then◌else◌};
    ghost use Rattle.rdl_elab.specs.PartNames.{AreNamed, has_name, place_under};

    /// None yet, with room for those of so many instances that are marked.
    fn with_room(
        alloc: Global,
        marks: Option<NameMarks>,
        parts: usize,
    ) -> Result<PartNames<'a>, AllocError>
        ensures { IfOk result (λ names. (q : List ℕ) → place_under names q ≡ None) }
    {
        let room = match &marks {
            Some(marks) => marks.len().saturating_add(SOME),
            None => parts,
        };
        Ok(PartNames {
            marks,
            places: ByName::with_room(alloc, room)?,
        })
    }

    /// Whether the name is one of those that are put in.
    fn has(&self, name: &str) -> bool
        ensures { result ≡ has_name self.now.marks name.now }
    {
        match &self.marks {
            Some(marks) => marks.has(name),
            None => true,
        }
    }

    /// One more instance in front of the others.
    fn put(&mut self, name: &'a str, place: usize) -> Result<(), AllocError>
        ensures marks { OnOk result (self.new.marks ≡ self.old.marks) }
        ensures places { OnOk result ((q : List ℕ) → has_name self.old.marks q ≡ true → place_under self.new q ≡ (if bytes_eq name.now q then Some place else place_under self.old q)) }
    {
        if self.has(name) {
            self.places.put(name, place)?;
        }
        Ok(())
    }

    fn of(
        alloc: Global,
        parts: &[Part<'a>],
        marks: Option<NameMarks>,
    ) -> Result<PartNames<'a>, AllocError>
        ensures { IfOk result (λ names. AreNamed names parts.now) }
    {
        let mut names = PartNames::with_room(alloc, marks, parts.len())?;
        for i in (0..parts.len()).rev() {
            names.put(parts[i].shell().name().as_str(), i)?;
        }
        Ok(names)
    }

    fn get(&self, name: &'a str) -> Option<usize>
        ensures { result ≡ place_under self.now name.now }
    {
        self.places.get(name)
    }
}

impl<'a> Model for PartList<'a> {
    ghost use Rattle.std.specs.Prelude.{IfSome};
    ghost use Rattle.rdl_elab.specs.Kept.{PartList};

    ghost Value = { PartList };

    ghost use Rattle.rdl_elab.specs.PartNames.{AreNamed};

    ghost view = { λ p. record { items = p.items.items } };

    ghost invariant = { λ p. IfSome p.names (λ names. AreNamed names p.items.items) };
}

#[tactic(auto, using(crate::proofs::PartPlaces::naming))]
fn first_named<'p, 'a>(parts: &'p [Part<'a>], name: &str) -> Option<&'p Part<'a>>
    ensures { option_copied result ≡ part_named name.now parts.now }
{
    for part in parts {
        if is_same(part.shell().name().as_str(), name) {
            return Some(part);
        }
    }
    None
}

fn part_at<'p, 'a>(parts: &'p [Part<'a>], place: Option<usize>) -> Option<&'p Part<'a>>
    ensures { option_copied result ≡ option_and_then (slice_get parts.now) place }
{
    parts.get(place?)
}

impl<'a> PartList<'a> {
    ghost use Rattle.std.specs.Prelude.{◌≡◌, IfOk, IfSome, option_copied};
    ghost use Rattle.rdl_elab.specs.PartNames.{IsFirstNamed, part_named};

    /// These instances. The names of many are put in order, as far as they are looked up.
    pub(crate) fn of(
        alloc: Global,
        items: Vec<Part<'a>>,
        look_ups: LookUps,
    ) -> Result<PartList<'a>, AllocError>
        ensures { IfOk result (λ parts. parts.items ≡ items.entry.items) }
    {
        let names = match look_ups {
            LookUps::None => None,
            LookUps::Marked(marks) => Some(PartNames::of(alloc, items.as_slice(), Some(marks))?),
            LookUps::All => Some(PartNames::of(alloc, items.as_slice(), None)?),
        };
        Ok(PartList { items, names })
    }

    pub(crate) fn as_slice(&self) -> &[Part<'a>]
        ensures { result.now ≡ self.now.items }
    {
        self.items.as_slice()
    }

    /// The first instance of this name.
    pub(crate) fn named(&self, name: &'a Name) -> Option<&Part<'a>>
        ensures { option_copied result ≡ part_named name.now self.now.items }
    {
        let parts = self.items.as_slice();
        let text = name.as_str();
        match &self.names {
            Some(names) if names.has(text) => part_at(parts, names.get(text)),
            _ => first_named(parts, text),
        }
    }

    /// The first instance of this name, which may be the one that was found before.
    #[tactic(auto, using(crate::proofs::PartPlaces::again))]
    pub(crate) fn named_again<'p>(
        &'p self,
        name: &'a Name,
        before: Option<&'p Part<'a>>,
    ) -> Option<&'p Part<'a>>
        requires { IfSome (option_copied before) (IsFirstNamed self.now.items) }
        ensures found { option_copied result ≡ part_named name.now self.now.items }
        ensures again { IfSome (option_copied result) (IsFirstNamed self.now.items) }
    {
        match before {
            Some(part) if part.shell().name() == name => Some(part),
            _ => self.named(name),
        }
    }
}
