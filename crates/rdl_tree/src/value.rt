//! Values of properties.
ghost use Rattle.std.specs.Prelude.{◌≡◌, IfOk};
ghost use Rattle.rdl_tree.specs.Word.{word_text};

use rdl_text::raw::Raw;
use rdl_text::token::Number;
use std::alloc::{AllocError, Global};

/// A reserved word that stands for a value: of software or hardware access, of the effect of a read or a write, or of
/// an addressing mode.
#[derive(Clone, Copy, Debug, PartialEq, Eq)]
pub enum Word {
    R,
    W,
    Rw,
    Wr,
    Rw1,
    W1,
    Na,
    Rclr,
    Rset,
    Ruser,
    Woset,
    Woclr,
    Wot,
    Wzs,
    Wzc,
    Wzt,
    Wclr,
    Wset,
    Wuser,
    Compact,
    Regalign,
    Fullalign,
}

/// What stands behind the `=` of an assignment.
#[derive(Debug, Drop)]
pub enum Value {
    Number(Number),
    Text(Raw),
    Bool(bool),
    Word(Word),
}

impl Word {
    /// The word as a text spells it.
    pub fn text(self) -> &'static str
        ensures { result.now ≡ word_text self }
    {
        match self {
            Word::R => "r",
            Word::W => "w",
            Word::Rw => "rw",
            Word::Wr => "wr",
            Word::Rw1 => "rw1",
            Word::W1 => "w1",
            Word::Na => "na",
            Word::Rclr => "rclr",
            Word::Rset => "rset",
            Word::Ruser => "ruser",
            Word::Woset => "woset",
            Word::Woclr => "woclr",
            Word::Wot => "wot",
            Word::Wzs => "wzs",
            Word::Wzc => "wzc",
            Word::Wzt => "wzt",
            Word::Wclr => "wclr",
            Word::Wset => "wset",
            Word::Wuser => "wuser",
            Word::Compact => "compact",
            Word::Regalign => "regalign",
            Word::Fullalign => "fullalign",
        }
    }
}

impl Value {
    pub fn try_copy(&self, alloc: Global) -> Result<Value, AllocError>
        ensures { IfOk result (λ value. value ≡ self.now) }
    {
        match self {
            Value::Number(number) => Ok(Value::Number(*number)),
            Value::Text(text) => Ok(Value::Text(text.try_copy(alloc)?)),
            Value::Bool(answer) => Ok(Value::Bool(*answer)),
            Value::Word(word) => Ok(Value::Word(*word)),
        }
    }
}
