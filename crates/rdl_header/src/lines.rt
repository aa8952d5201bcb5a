//! The lines of the header, as far as they are made.
ghost use Rattle.std.specs.Prelude.{◌≡◌, ◌+◌, ◌++◌, [], ◌∷◌, length, codes, string_bytes, IfOk, OnOk};
ghost use Rattle.rdl_header.specs.HeaderText.{hexadecimal_macro, decimal_macro};
ghost use Rattle.rdl_header.specs.Lines.{name_at, noted, no_lines, guarded, added, ended};

use crate::head::Head;
use crate::stretch::Stretch;
use rdl_text::token::Number;
use rdl_write::{push_decimal_end, push_hexadecimal_end};
use std::alloc::{AllocError, Global};
use std::marker::Model;

/// The lines of macros, and, if it is noted, where the names stand in them.
#[derive(Drop)]
pub(crate) struct Lines {
    text: String,
    are_noted: bool,
    names: Vec<Stretch>,
}

/// What lines are made of: their text, and where the names of the macros stand in it.
#[derive(Drop)]
pub(crate) struct Parts {
    pub text: String,
    pub names: Vec<Stretch>,
}

impl Model for Lines {
    ghost use Rattle.std.specs.Prelude.{string_bytes};
    ghost use Rattle.rdl_header.specs.Lines.{Lines as Seen};

    ghost Value = { Seen };

    ghost view = { λ lines. record { text = string_bytes lines.text; are_noted = lines.are_noted; names = lines.names.items } };
}

impl Lines {
    /// No lines.
    pub(crate) fn new(alloc: Global, are_noted: bool) -> Lines
        ensures { result ≡ no_lines are_noted }
    {
        Lines {
            text: String::new(alloc),
            are_noted,
            names: Vec::new(alloc),
        }
    }

    /// The lines of the guard, whose name is the path and `_H`. There is room for so many bytes.
    pub(crate) fn guarded(
        alloc: Global,
        room: usize,
        are_noted: bool,
        path: &str,
    ) -> Result<Lines, AllocError>
        ensures { IfOk result (λ lines. lines ≡ guarded are_noted (record { name = path.now ++ codes "_H"; value = [] })) }
    {
        let mut text = String::with_capacity(alloc, room)?;
        let mut names = Vec::new(alloc);
        text.push_str("#ifndef ")?;
        push_name(&mut text, are_noted, &mut names, path, "_H")?;
        text.push_str("\n#define ")?;
        text.push_str(path)?;
        text.push_str("_H\n")?;
        Ok(Lines {
            text,
            are_noted,
            names,
        })
    }

    /// Puts the line of a macro behind the others. Its name is the path and the ending, its value `0x` and upper-case digits.
    pub(crate) fn push_hexadecimal(
        &mut self,
        head: &Head,
        ending: &str,
        number: Number,
    ) -> Result<(), AllocError>
        ensures { OnOk result (self.new ≡ added self.old (hexadecimal_macro head.now ending.now number ∷ [])) }
    {
        begin(
            &mut self.text,
            self.are_noted,
            &mut self.names,
            head,
            ending,
        )?;
        push_hexadecimal_end(&mut self.text, number)?;
        Ok(())
    }

    /// Puts the line of a macro behind the others. Its name is the path and the ending, its value decimal.
    pub(crate) fn push_decimal(
        &mut self,
        head: &Head,
        ending: &str,
        number: Number,
    ) -> Result<(), AllocError>
        ensures { OnOk result (self.new ≡ added self.old (decimal_macro head.now ending.now number ∷ [])) }
    {
        begin(
            &mut self.text,
            self.are_noted,
            &mut self.names,
            head,
            ending,
        )?;
        push_decimal_end(&mut self.text, number)?;
        Ok(())
    }

    /// Puts the end of what is guarded behind the lines.
    pub(crate) fn end(&mut self) -> Result<(), AllocError>
        ensures { OnOk result (self.new ≡ ended self.old) }
    {
        self.text.push_str("#endif\n")?;
        Ok(())
    }

    pub(crate) fn into_parts(self) -> Parts
        ensures text { string_bytes result.text ≡ self.text }
        ensures names { result.names.items ≡ self.names }
    {
        let Lines {
            text,
            are_noted: _,
            names,
        } = self;
        Parts { text, names }
    }

    pub(crate) fn into_text(self) -> String
        ensures { string_bytes result ≡ self.text }
    {
        self.text
    }
}

/// Notes a place, if places are noted.
fn note(names: &mut Vec<Stretch>, are_noted: bool, place: Stretch) -> Result<(), AllocError>
    ensures { OnOk result (names.new.items ≡ names.old.items ++ noted are_noted (place ∷ [])) }
{
    if are_noted {
        names.push(place)?;
    }
    Ok(())
}

/// Appends a name, which is the path and the ending, and notes where it stands.
fn push_name(
    text: &mut String,
    are_noted: bool,
    names: &mut Vec<Stretch>,
    path: &str,
    ending: &str,
) -> Result<(), AllocError>
    ensures text { OnOk result (string_bytes text.new ≡ string_bytes text.old ++ path.now ++ ending.now) }
    ensures name { OnOk result (names.new.items ≡ names.old.items
        ++ noted are_noted (record { start = length (string_bytes text.old); end = length (string_bytes text.old ++ path.now ++ ending.now) } ∷ [])) }
{
    let start = text.len();
    text.push_str(path)?;
    text.push_str(ending)?;
    let end = text.len();
    note(names, are_noted, Stretch { start, end })
}

/// Begins the line of a macro, whose name is the path and the ending, and notes where the name stands.
fn begin(
    text: &mut String,
    are_noted: bool,
    names: &mut Vec<Stretch>,
    head: &Head,
    ending: &str,
) -> Result<(), AllocError>
    ensures text { OnOk result (string_bytes text.new ≡ string_bytes text.old ++ codes "#define " ++ (head.now ++ ending.now)) }
    ensures name { OnOk result (names.new.items ≡ names.old.items ++ noted are_noted (name_at (length (string_bytes text.old)) (head.now ++ ending.now) ∷ [])) }
{
    let line = text.len();
    text.push_str(head.as_str())?;
    text.push_str(ending)?;
    let behind = text.len();
    let start = line + 8;
    note(names, are_noted, Stretch { start, end: behind })?;
    Ok(())
}
