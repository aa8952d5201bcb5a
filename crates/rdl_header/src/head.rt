//! What the lines of a row's macros begin with.
ghost use Rattle.std.specs.Prelude.{◌≡◌, [], ◌++◌, codes, option_copied, string_bytes, IfOk, OnOk};
ghost use Rattle.std.specs.List.{flat_map};
ghost use Rattle.std.specs.Option.{option_to_list};
ghost use Rattle.rdl_header.specs.HeaderText.{path_text};

use rdl_elab::row::RowPath;
use rdl_text::name::Name;
use std::alloc::{AllocError, Global};
use std::marker::Model;

/// `#define `, and the path of a row. A contract sees the path.
#[derive(Drop)]
pub(crate) struct Head {
    text: String,
}

impl Model for Head {
    ghost use Rattle.std.specs.Prelude.{◌≡◌, ◌++◌, ℕ, List, codes, drop, string_bytes};

    ghost Value = { List ℕ };

    ghost view = { λ head. drop 8 (string_bytes head.text) };

    ghost invariant = { λ head. string_bytes head.text ≡ codes "#define " ++ drop 8 (string_bytes head.text) };
}

impl Head {
    /// Of no names.
    pub(crate) fn new(alloc: Global) -> Result<Head, AllocError>
        ensures { IfOk result (λ head. head ≡ []) }
    {
        let text = String::from_str(alloc, "#define ")?;
        Ok(Head { text })
    }

    /// That of this path, in the memory of another.
    pub(crate) fn of(self, path: &RowPath) -> Result<Head, AllocError>
        ensures { IfOk result (λ head. head ≡ path_text path.now) }
    {
        let Head { mut text } = self;
        text.clear();
        text.push_str("#define ")?;
        push_path(&mut text, path)?;
        Ok(Head { text })
    }

    /// The path.
    pub(crate) fn path(&self) -> &[u8]
        ensures { result.now ≡ self.now }
    {
        &self.text.as_bytes()[8..]
    }

    /// The text.
    pub(crate) fn as_str(&self) -> &str
        ensures { result.now ≡ codes "#define " ++ self.now }
    {
        self.text.as_str()
    }
}

/// Appends the name of a register, if there is one, and two underscores.
fn push_register(text: &mut String, register: Option<&Name>) -> Result<(), AllocError>
    ensures { OnOk result (string_bytes text.new ≡ string_bytes text.old ++ flat_map (λ name. name ++ codes "__") (option_to_list (option_copied register.entry))) }
{
    match register {
        Some(name) => {
            text.push_str(name.as_str())?;
            text.push_str("__")
        }
        None => Ok(()),
    }
}

/// Appends the names from the top with two underscores between them.
pub(crate) fn push_path(text: &mut String, path: &RowPath) -> Result<(), AllocError>
    ensures { OnOk result (string_bytes text.new ≡ string_bytes text.old ++ path_text path.now) }
{
    let parts = path.parts();
    text.push_str(parts.around.joined())?;
    push_register(text, parts.register)?;
    text.push_str(parts.last.as_str())?;
    Ok(())
}
