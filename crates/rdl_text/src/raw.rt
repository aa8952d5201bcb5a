//! The insides of strings.
ghost use Rattle.std.specs.Prelude.{◌≡◌, ℕ, List, length, IfOk, IfErr, ◌==◌, false};
ghost use Rattle.rdl_text.specs.Raw.{IsRaw, is_inside};
ghost use Rattle.rdl_text.specs.declared.name.NameFault.{NameFault};

use crate::name::NameFault;
use std::alloc::{AllocError, Global};
use std::fmt;
use std::marker::Model;

/// A string as it was spelled, without the quotes around it. A contract sees its bytes.
#[derive(Clone, Debug, Drop)]
pub struct Raw {
    text: String,
}

impl Model for Raw {
    ghost use Rattle.std.specs.Prelude.{ℕ, List, string_bytes};

    ghost Value = { List ℕ };

    ghost view = { λ n. string_bytes n.text };

    ghost use Rattle.rdl_text.specs.Raw.{IsRaw};

    ghost invariant = { λ n. IsRaw (string_bytes n.text) };
}

fn is_inside(bytes: &[u8]) -> bool
    ensures { result ≡ is_inside false bytes.now }
{
    let mut taken = false;
    'scan: for byte in bytes {
        if taken {
            taken = false;
        } else if *byte == b'"' {
            return false;
        } else {
            taken = *byte == b'\\';
        }
    }
    !taken
}

impl Raw {
    pub fn new(alloc: Global, text: &str) -> Result<Raw, NameFault>
        ensures ok { IfOk result (λ r. r ≡ text.now) }
        ensures is_raw { IfOk result (λ r. IsRaw r) }
        ensures not_such { IfErr result (λ f. f ≡ NameFault.NotSuch → ¬ (IsRaw text.now)) }
    {
        if !is_inside(text.as_bytes()) {
            return Err(NameFault::NotSuch);
        }
        let text = String::from_str(alloc, text)?;
        Ok(Raw { text })
    }

    /// What is known to be such a text.
    pub(crate) fn of_inside(alloc: Global, text: &str) -> Result<Raw, AllocError>
        requires { IsRaw text.now }
        ensures { IfOk result (λ r. r ≡ text.now) }
    {
        let text = String::from_str(alloc, text)?;
        Ok(Raw { text })
    }

    pub fn as_str(&self) -> &str
        ensures { result.now ≡ self.now }
    {
        self.text.as_str()
    }

    pub fn len(&self) -> usize
        ensures { result ≡ length self.now }
    {
        self.text.len()
    }

    pub fn try_copy(&self, alloc: Global) -> Result<Raw, AllocError>
        ensures { IfOk result (λ r. r ≡ self.now) }
    {
        let text = String::from_str(alloc, self.text.as_str())?;
        Ok(Raw { text })
    }
}

impl Eq for Raw {
    ghost use Rattle.std.specs.Cmp.Rules.{comparing};
    ghost use Rattle.std.proofs.Common.{rules};

    ghost laws = { Prim.search (comparing, rules) };
}

impl PartialEq for Raw {
    ghost use Rattle.std.specs.Prelude.{◌==◌};
    ghost use Rattle.std.specs.Cmp.Lexicographic.{pointwise};
    ghost use Rattle.std.specs.Cmp.Rules.{comparing};
    ghost use Rattle.std.proofs.Common.{rules};

    ghost eq = { pointwise ◌==◌ };

    ghost laws = { Prim.search (comparing, rules) };

    fn eq(&self, other: &Raw) -> bool {
        self.text.as_str() == other.text.as_str()
    }
}

impl fmt::Display for Raw {
    ghost use Rattle.std.specs.Prelude.{Some};

    ghost output = { λ r. Some r };

    fn fmt<W: fmt::Write>(&self, f: &mut fmt::Formatter<W>) -> fmt::Result {
        f.write_str(self.text.as_str())
    }
}
