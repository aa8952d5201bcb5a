//! Identifiers.
ghost use Rattle.std.specs.Prelude.{◌≡◌, ◌≤◌, ℕ, List, [], ◌∷◌, length, IfOk, IfErr, ◌==◌};
ghost use Rattle.std.specs.List.{list_all};
ghost use Rattle.rdl_text.specs.Name.{IsName, is_letter, is_rest, is_identifier};
ghost use Rattle.rdl_text.specs.declared.name.NameFault.{NameFault};

use crate::same::is_same;
use arrayvec::ArrayString;
use std::alloc::{AllocError, Global};
use std::fmt;
use std::marker::Model;

/// How many bytes a name has at most that takes no memory of its own.
const SHORT: usize = 16;

/// The bytes of a name, which most names are short enough to hold in themselves.
#[derive(Clone, Debug, Drop)]
enum Text {
    Short(ArrayString<SHORT>),
    Long(String),
}

impl Text {
    ghost use Rattle.std.specs.Prelude.{◌≡◌, length, IfOk};
    ghost use Rattle.rdl_text.specs.NameText.{text_bytes};

    fn new(alloc: Global, text: &str) -> Result<Text, AllocError>
        ensures { IfOk result (λ t. text_bytes t ≡ text.now) }
    {
        match ArrayString::from(text) {
            Ok(short) => Ok(Text::Short(short)),
            Err(_) => Ok(Text::Long(String::from_str(alloc, text)?)),
        }
    }

    fn as_str(&self) -> &str
        ensures { result.now ≡ text_bytes self.now }
    {
        match self {
            Text::Short(text) => text.as_str(),
            Text::Long(text) => text.as_str(),
        }
    }

    fn len(&self) -> usize
        ensures { result ≡ length (text_bytes self.now) }
    {
        match self {
            Text::Short(text) => text.len(),
            Text::Long(text) => text.len(),
        }
    }

    fn try_copy(&self, alloc: Global) -> Result<Text, AllocError>
        ensures { IfOk result (λ t. text_bytes t ≡ text_bytes self.now) }
    {
        match self {
            Text::Short(text) => Ok(Text::Short(*text)),
            Text::Long(text) => Ok(Text::Long(String::from_str(alloc, text.as_str())?)),
        }
    }
}

/// An identifier of 1 to 255 bytes. A contract sees its bytes.
#[derive(Clone, Debug, Drop)]
pub struct Name {
    text: Text,
}

impl Model for Name {
    ghost use Rattle.std.specs.Prelude.{ℕ, List};
    ghost use Rattle.rdl_text.specs.NameText.{text_bytes};

    ghost Value = { List ℕ };

    ghost view = { λ n. text_bytes n.text };

    ghost use Rattle.rdl_text.specs.Name.{IsName};

    ghost invariant = { λ n. IsName (text_bytes n.text) };
}

/// Why a text is no `Name` or no `Raw`.
#[derive(Clone, Copy, Debug, PartialEq, Eq, Drop)]
pub enum NameFault {
    /// N1: not such a text.
    NotSuch,
    /// N2: no memory.
    Memory,
}

impl From<AllocError> for NameFault {
    ghost use Rattle.rdl_text.specs.declared.name.NameFault.{NameFault};
    ghost use Rattle.std.specs.Prelude.{◌≡◌};

    ghost from_gives = { λ _ f. f ≡ NameFault.Memory };

    fn from(_error: AllocError) -> NameFault {
        NameFault::Memory
    }
}

/// Whether a byte may begin an identifier.
pub fn is_letter(byte: u8) -> bool
    ensures { result ≡ is_letter byte }
{
    byte.is_ascii_uppercase() || byte.is_ascii_lowercase() || byte == b'_'
}

/// Whether a byte may stand behind the first of an identifier.
pub fn is_rest(byte: u8) -> bool
    ensures { result ≡ is_rest byte }
{
    is_letter(byte) || byte.is_ascii_digit()
}

fn all_rest(bytes: &[u8]) -> bool
    ensures { result ≡ list_all is_rest bytes.now }
{
    bytes.iter().all(|byte| is_rest(*byte))
}

#[tactic(auto, using(crate::proofs::Lists::first_split))]
fn is_identifier(bytes: &[u8]) -> bool
    ensures { result ≡ is_identifier bytes.now }
{
    match bytes {
        [] => false,
        [first, rest @ ..] => is_letter(*first) && all_rest(rest),
    }
}

impl Name {
    pub const MAX_LEN: usize = 255;

    pub fn new(alloc: Global, text: &str) -> Result<Name, NameFault>
        ensures ok { IfOk result (λ n. n ≡ text.now) }
        ensures is_name { IfOk result (λ n. IsName n) }
        ensures not_such { IfErr result (λ f. f ≡ NameFault.NotSuch → ¬ (IsName text.now)) }
    {
        if text.len() > Name::MAX_LEN || !is_identifier(text.as_bytes()) {
            return Err(NameFault::NotSuch);
        }
        let text = Text::new(alloc, text)?;
        Ok(Name { text })
    }

    /// A text that is known to be a name.
    #[inline(always)]
    pub fn of_name(alloc: Global, text: &str) -> Result<Name, AllocError>
        requires { IsName text.now }
        ensures { IfOk result (λ n. n ≡ text.now) }
    {
        let text = Text::new(alloc, text)?;
        Ok(Name { text })
    }

    /// What each name is. It does nothing when it runs.
    pub fn is_name(&self)
        ensures { IsName self.now }
    {
        let _text = &self.text;
    }

    pub fn as_str(&self) -> &str
        ensures { result.now ≡ self.now }
    {
        self.text.as_str()
    }

    pub fn len(&self) -> usize
        ensures { result ≡ length self.now }
    {
        self.text.len()
    }

    pub fn try_copy(&self, alloc: Global) -> Result<Name, AllocError>
        ensures { IfOk result (λ n. n ≡ self.now) }
    {
        let text = self.text.try_copy(alloc)?;
        Ok(Name { text })
    }
}

impl Eq for Name {
    ghost use Rattle.std.specs.Cmp.Rules.{comparing};
    ghost use Rattle.std.proofs.Common.{rules};

    ghost laws = { Prim.search (comparing, rules) };
}

impl PartialEq for Name {
    ghost use Rattle.std.specs.Prelude.{◌==◌};
    ghost use Rattle.std.specs.Cmp.Lexicographic.{pointwise};
    ghost use Rattle.std.specs.Cmp.Rules.{comparing};
    ghost use Rattle.std.proofs.Common.{rules};

    ghost eq = { pointwise ◌==◌ };

    ghost laws = { Prim.search (comparing, rules) };

    fn eq(&self, other: &Name) -> bool {
        is_same(self.text.as_str(), other.text.as_str())
    }
}

impl fmt::Display for Name {
    ghost use Rattle.std.specs.Prelude.{Some};

    ghost output = { λ n. Some n };

    fn fmt<W: fmt::Write>(&self, f: &mut fmt::Formatter<W>) -> fmt::Result {
        f.write_str(self.text.as_str())
    }
}
