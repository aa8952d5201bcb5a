//! Identifiers as operands.
ghost use Rattle.std.specs.Prelude.{◌≡◌, IfOk};
ghost use Rattle.rdl_script.specs.Operands as spec;

use rdl_parse::class::Class;
use rdl_text::name::{Name, NameFault};
use std::alloc::{AllocError, Global};

/// Which identifiers may stand there.
#[derive(Clone, Copy, Debug, PartialEq, Eq)]
pub(crate) enum NameSort {
    /// Each.
    Any,
    /// Those that aren't reserved.
    Free,
    /// Those, and the reserved words that are properties.
    Property,
}

fn is_free(class: Class) -> bool
    ensures { result ≡ spec.is_free class }
{
    matches!(class, Class::Name)
}

fn is_property(class: Class) -> bool
    ensures { result ≡ spec.is_property class }
{
    matches!(class, Class::Property(_))
}

impl NameSort {
    fn allows(self, class: Class) -> bool
        ensures { result ≡ spec.allows self class }
    {
        match self {
            NameSort::Any => true,
            NameSort::Free => is_free(class),
            NameSort::Property => is_free(class) || is_property(class),
        }
    }
}

/// The name that a text is.
pub(crate) fn name_in(alloc: Global, sort: NameSort, text: &str) -> Result<Option<Name>, AllocError>
    ensures { IfOk result (λ name. name ≡ spec.name_in sort text.now) }
{
    if !sort.allows(Class::of(text)) {
        return Ok(None);
    }
    match Name::new(alloc, text) {
        Ok(name) => Ok(Some(name)),
        Err(NameFault::NotSuch) => Ok(None),
        Err(NameFault::Memory) => Err(AllocError),
    }
}
