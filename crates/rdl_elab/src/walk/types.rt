//! The types before an item.
use rdl_scope::by_name::ByName;
use rdl_text::is_same;
use rdl_text::name::Name;
use std::alloc::{AllocError, Global};
use std::marker::Model;
use std::mem;

/// A type, the number of its component among the finished ones, and that of the type whose name it hides.
#[derive(Drop)]
pub(crate) struct TypeEntry<'a> {
    name: &'a Name,
    component: usize,
    hidden: Option<usize>,
}

/// The component of the nearest type of each name.
#[derive(Drop)]
pub(crate) struct TypeIndex<'a> {
    components: ByName<'a, usize>,
}

/// A name, and the component of the nearest type of the name.
#[derive(Drop)]
struct FoundType<'a> {
    name: &'a str,
    component: usize,
}

/// What was looked up last, and what before that, while the types have stayed the same.
#[derive(Drop)]
pub(crate) struct LastFound<'a> {
    last: Option<FoundType<'a>>,
    before: Option<FoundType<'a>>,
}

/// The types that stand before an item, those of the bodies around it included. A contract sees their list, the
/// nearest first.
#[derive(Drop)]
pub(crate) struct Types<'a> {
    items: Vec<TypeEntry<'a>>,
    nearest: TypeIndex<'a>,
    /// Most instances have the type of one shortly before them.
    found: LastFound<'a>,
}

impl<'a> TypeIndex<'a> {
    ghost use Rattle.std.specs.Prelude.{◌≡◌, ℕ, List, ◌∷◌, [], IfOk, OnOk, OnErr};
    ghost use Rattle.rdl_elab.specs.TypeStacks.{IsIndex, Uncovers, Lacks};
    ghost use Rattle.rdl_scope.specs.Closed.{lookup};

    fn with_room(alloc: Global, types: usize) -> Result<TypeIndex<'a>, AllocError>
        ensures { IfOk result (λ index. IsIndex index []) }
    {
        Ok(TypeIndex {
            components: ByName::with_room(alloc, types)?,
        })
    }

    fn get(&self, name: &'a str) -> Option<usize>
        ensures { (types : List (List ℕ × ℕ)) → IsIndex self.now types → result ≡ lookup name.now types }
    {
        self.components.get(name)
    }

    /// One more type.
    fn put(&mut self, name: &'a str, component: usize) -> Result<(), AllocError>
        ensures ok { OnOk result ((types : List (List ℕ × ℕ)) → IsIndex self.old types → IsIndex self.new ((name.now, component) ∷ types)) }
        ensures err { OnErr result ((types : List (List ℕ × ℕ)) → IsIndex self.old types → IsIndex self.new types) }
    {
        self.components.put(name, component)?;
        Ok(())
    }

    /// Without the nearest type of the name, which hides this one. It can't want for memory where there is such a type.
    fn uncover(&mut self, name: &'a str, hidden: Option<usize>) -> Result<(), AllocError>
        ensures ok { OnOk result (Uncovers name.now hidden self.old self.new) }
        ensures err { OnErr result (Lacks name.now self.old) }
    {
        match hidden {
            Some(component) => {
                self.components.put(name, component)?;
            }
            None => {
                self.components.remove(name);
            }
        }
        Ok(())
    }
}

impl<'a> FoundType<'a> {
    ghost use Rattle.std.specs.Prelude.{◌≡◌, ℕ, List, IfSome, Some};
    ghost use Rattle.rdl_scope.specs.Closed.{lookup};
    ghost use Rattle.rdl_elab.specs.TypeStacks.{IsFound};

    /// The component, if it is that of a type of this name.
    #[inline(always)]
    fn component_of(found: &Option<FoundType<'a>>, name: &str) -> Option<usize>
        ensures { (types : List (List ℕ × ℕ)) → IfSome found.now (λ f. IsFound f types) → IfSome result (λ component. lookup name.now types ≡ Some component) }
    {
        match found {
            Some(found) if is_same(found.name, name) => Some(found.component),
            _ => None,
        }
    }
}

impl<'a> LastFound<'a> {
    ghost use Rattle.std.specs.Prelude.{◌≡◌, ℕ, List, IfSome, Some};
    ghost use Rattle.rdl_scope.specs.Closed.{lookup};
    ghost use Rattle.rdl_elab.specs.TypeStacks.{AreFound};

    fn nothing() -> LastFound<'a>
        ensures { (types : List (List ℕ × ℕ)) → AreFound result types }
    {
        LastFound {
            last: None,
            before: None,
        }
    }

    /// The component of the nearest type of the name, if that was looked up.
    #[inline(always)]
    fn get(&self, name: &str) -> Option<usize>
        ensures { (types : List (List ℕ × ℕ)) → AreFound self.now types → IfSome result (λ component. lookup name.now types ≡ Some component) }
    {
        match FoundType::component_of(&self.last, name) {
            Some(component) => Some(component),
            None => FoundType::component_of(&self.before, name),
        }
    }

    /// One more, in place of what was found before the last.
    fn put(&mut self, name: &'a str, component: usize)
        ensures { (types : List (List ℕ × ℕ)) → AreFound self.old types → lookup name.now types ≡ Some component → AreFound self.new types }
    {
        let found = FoundType { name, component };
        self.before = mem::replace(&mut self.last, Some(found));
    }
}

impl<'a> Model for Types<'a> {
    ghost use Rattle.std.specs.Prelude.{ℕ, List, reverse};
    ghost use Rattle.rdl_elab.specs.TypeStacks.{pairs, AreFound, Hides, IsIndex};

    ghost Value = { List (List ℕ × ℕ) };

    ghost view = { λ s. pairs (reverse s.items.items) };

    ghost invariant = { λ s. Hides (reverse s.items.items) × IsIndex s.nearest (pairs (reverse s.items.items)) × AreFound s.found (pairs (reverse s.items.items)) };
}

impl<'a> Types<'a> {
    ghost use Rattle.std.specs.Prelude.{◌≡◌, ◌-◌, ◌∷◌, ◌≤◌, [], length, drop, IfOk, OnOk};
    ghost use Rattle.rdl_scope.specs.Closed.{lookup};

    /// No types, where so many are awaited.
    pub(crate) fn with_room(alloc: Global, types: usize) -> Result<Types<'a>, AllocError>
        ensures { IfOk result (λ types. types ≡ []) }
    {
        Ok(Types {
            items: Vec::new(alloc),
            nearest: TypeIndex::with_room(alloc, types)?,
            found: LastFound::nothing(),
        })
    }

    pub(crate) fn len(&self) -> usize
        ensures { result ≡ length self.now }
    {
        self.items.len()
    }

    pub(crate) fn push(&mut self, name: &'a Name, component: usize) -> Result<(), AllocError>
        ensures { OnOk result (self.new ≡ (name.now, component) ∷ self.old) }
    {
        let hidden = self.get(name);
        self.found = LastFound::nothing();
        self.items.push(TypeEntry {
            name,
            component,
            hidden,
        })?;
        if self.nearest.put(name.as_str(), component).is_err() {
            self.items.pop();
            return Err(AllocError);
        }
        Ok(())
    }

    /// Drops the nearest.
    fn pop(&mut self) -> Result<(), AllocError>
        ensures { OnOk result (self.new ≡ drop 1 self.old) }
    {
        let Some(nearest) = self.items.pop() else {
            return Ok(());
        };
        self.found = LastFound::nothing();
        self.nearest.uncover(nearest.name.as_str(), nearest.hidden)
    }

    /// Keeps those that were there when there were this many.
    pub(crate) fn truncate(&mut self, len: usize) -> Result<(), AllocError>
        requires { len ≤ length self.old }
        ensures { OnOk result (self.new ≡ drop (length self.old - len) self.old) }
    {
        for _ in len..self.items.len() {
            self.pop()?;
        }
        Ok(())
    }

    /// The component of the nearest type of the name.
    pub(crate) fn get(&self, name: &'a Name) -> Option<usize>
        ensures { result ≡ lookup name.now self.now }
    {
        self.nearest.get(name.as_str())
    }

    /// The same, kept for the next time.
    fn look_up(&mut self, name: &'a str) -> Option<usize>
        ensures found { result ≡ lookup name.now self.old }
        ensures same { self.new ≡ self.old }
    {
        let component = self.nearest.get(name)?;
        self.found.put(name, component);
        Some(component)
    }

    /// The same, where it is likely to be asked again.
    #[inline(always)]
    pub(crate) fn find(&mut self, name: &'a Name) -> Option<usize>
        ensures found { result ≡ lookup name.now self.old }
        ensures same { self.new ≡ self.old }
    {
        let name = name.as_str();
        match self.found.get(name) {
            Some(component) => Some(component),
            None => self.look_up(name),
        }
    }
}
