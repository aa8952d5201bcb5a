//! The types that a body sees.
ghost use Rattle.std.specs.Prelude.{reverse};
ghost use Rattle.rdl_nodes.specs.TypeStack.{placed, Hides, IsIndex};

use crate::inside::Within;
use rdl_scope::by_name::ByName;
use rdl_seen::seen::Seen;
use rdl_text::name::Name;
use std::alloc::{AllocError, Global};
use std::rc::Rc;

/// A type: what is seen of it, and what targets find inside it.
#[derive(Drop)]
pub struct Known<'a> {
    pub seen: Rc<Seen>,
    pub within: Within<'a>,
}

/// A type, its name, and the place of the type that it hides.
#[derive(Drop)]
struct Defined<'a> {
    name: &'a Name,
    known: Known<'a>,
    hides: Option<usize>,
}

/// The place of the nearest type of each name.
#[derive(Drop)]
struct Places<'a> {
    by_name: ByName<'a, usize>,
}

/// The types that are defined so far, the last one nearest, and where the nearest of each name is.
#[derive(Drop)]
pub(crate) struct Types<'a> {
    list: Vec<Defined<'a>>,
    places: Places<'a>,
    ghost stack: { Hides (reverse list.items) × IsIndex places (placed (reverse list.items)) },
}

impl<'a> Places<'a> {
    ghost use Rattle.std.specs.Prelude.{◌≡◌, ℕ, List, ◌∷◌, [], OnOk, OnErr};
    ghost use Rattle.rdl_nodes.specs.TypeStack.{IsIndex, Uncovers};
    ghost use Rattle.rdl_scope.specs.Closed.{lookup};

    /// No type of any name.
    fn new(alloc: Global) -> Places<'a>
        ensures { IsIndex result [] }
    {
        Places {
            by_name: ByName::new(alloc),
        }
    }

    fn get(&self, name: &'a str) -> Option<usize>
        ensures { (types : List (List ℕ × ℕ)) → IsIndex self.now types → result ≡ lookup name.now types }
    {
        self.by_name.get(name)
    }

    /// One more type.
    fn put(&mut self, name: &'a str, place: usize) -> Result<(), AllocError>
        ensures ok { OnOk result ((types : List (List ℕ × ℕ)) → IsIndex self.old types → IsIndex self.new ((name.now, place) ∷ types)) }
        ensures err { OnErr result ((types : List (List ℕ × ℕ)) → IsIndex self.old types → IsIndex self.new types) }
    {
        self.by_name.put(name, place)?;
        Ok(())
    }

    /// Without the nearest type of the name, which hides this one. It wants for no memory, since there is such a type.
    fn uncover(&mut self, name: &'a str, hides: Option<usize>)
        ensures { Uncovers name.now hides self.old self.new }
    {
        match hides {
            Some(place) => match self.by_name.put(name, place) {
                Ok(_) => {}
                Err(_) => {}
            },
            None => self.by_name.remove(name),
        }
    }
}

impl<'a> Defined<'a> {
    ghost use Rattle.std.specs.Prelude.{◌≡◌, option_map, slice_get};
    ghost use Rattle.std.specs.Borrow.{Bor};
    ghost use Rattle.rdl_nodes.specs.HeldTypes.{known_of, held};
    ghost use Rattle.rdl_nodes.specs.declared.types.Known.{Known};

    /// The type at this place.
    fn at<'s>(types: &'s [Defined<'a>], place: usize) -> Option<&'s Known<'a>>
        ensures { option_map (λ (k : Bor Known). known_of k.now) result ≡ option_map held (slice_get types.now place) }
    {
        let defined = types.get(place)?;
        Some(&defined.known)
    }
}

impl<'a> Types<'a> {
    ghost use Rattle.std.specs.Prelude.{◌≡◌, ◌-◌, ◌∷◌, [], length, take, option_map, OnOk};
    ghost use Rattle.std.specs.Borrow.{Bor};
    ghost use Rattle.rdl_scope.specs.Closed.{lookup};
    ghost use Rattle.rdl_nodes.specs.HeldTypes.{known_of, types_of};
    ghost use Rattle.rdl_nodes.specs.declared.types.Known.{Known};

    /// No types.
    pub(crate) fn new(alloc: Global) -> Types<'a>
        ensures { result.list.items ≡ [] }
    {
        Types {
            list: Vec::new(alloc),
            places: Places::new(alloc),
        }
    }

    pub(crate) fn len(&self) -> usize
        ensures { result ≡ length self.now.list.items }
    {
        self.list.len()
    }

    /// The nearest type of this name.
    pub(crate) fn get(&self, name: &'a Name) -> Option<&Known<'a>>
        ensures { option_map (λ (k : Bor Known). known_of k.now) result ≡ lookup name.now (types_of self.now.list.items) }
    {
        let place = self.places.get(name.as_str())?;
        Defined::at(self.list.as_slice(), place)
    }

    /// Defines one more.
    pub(crate) fn push(&mut self, name: &'a Name, known: Known<'a>) -> Result<(), AllocError>
        ensures types { OnOk result (types_of self.new.list.items ≡ (name.now, known_of known.entry) ∷ types_of self.old.list.items) }
        ensures defined { OnOk result (take (length self.old.list.items) self.new.list.items ≡ self.old.list.items) }
    {
        let hides = self.places.get(name.as_str());
        let place = self.list.len();
        self.list.push(Defined { name, known, hides })?;
        if self.places.put(name.as_str(), place).is_err() {
            self.list.pop();
            return Err(AllocError);
        }
        Ok(())
    }

    /// Leaves all but the last one.
    fn pop(&mut self)
        ensures { self.new.list.items ≡ take (length self.old.list.items - 1) self.old.list.items }
    {
        let Some(last) = self.list.pop() else {
            return;
        };
        self.places.uncover(last.name.as_str(), last.hides);
    }

    /// Leaves the first ones, so many of them.
    pub(crate) fn truncate(&mut self, len: usize)
        ensures { self.new.list.items ≡ take len self.old.list.items }
    {
        while self.list.len() > len {
            self.pop();
        }
    }
}
