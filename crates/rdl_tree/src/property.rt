//! The properties that a component may have.
ghost use Rattle.std.specs.Prelude.{◌≡◌};
ghost use Rattle.rdl_tree.specs.BuiltIn.{built_in_of};
ghost use Rattle.rdl_tree.specs.Properties.{row, is_owner, has_form, is_mode, is_access, is_read_effect, is_write_effect, on, takes};

use crate::shell::Kind;
use crate::value::Word::{Regalign, Rw};
use crate::value::{Value, Word};
use BuiltIn::{Count, Named, Nothing, Off, Yes};
use Form::{
    Accesses, Alignments, BitCounts, Booleans, Modes, Numbers, OnlyTrue, ReadEffects, Texts,
    Widths, WriteEffects,
};
use Owners::{Addrmaps, All, Containers, Fields, Regs};
use rdl_text::token::Number;

/// A property. Those of the table are in the order in which the rows of a map list their values.
#[derive(Clone, Copy, Debug, PartialEq, Eq)]
pub enum Property {
    Name,
    Desc,
    Addressing,
    Alignment,
    Lsb0,
    Regwidth,
    Accesswidth,
    Shared,
    Fieldwidth,
    Reset,
    Sw,
    Hw,
    Rclr,
    Rset,
    Onread,
    Woset,
    Woclr,
    Onwrite,
    Singlepulse,
    Swmod,
    Swacc,
    We,
    Wel,
    Swwe,
    Swwel,
    Counter,
    Intr,
    Anded,
    Ored,
    Xored,
    Hwclr,
    Hwset,
    Sticky,
    Stickybit,
    Dontcompare,
    Donttest,
}

/// The kinds of component that have a property.
#[derive(Clone, Copy, Debug, PartialEq, Eq)]
pub enum Owners {
    All,
    Addrmaps,
    /// Address maps and register files.
    Containers,
    Regs,
    Fields,
}

/// The values that a property takes.
#[derive(Clone, Copy, Debug, PartialEq, Eq)]
pub enum Form {
    Texts,
    Modes,
    /// Powers of two up to 2^40.
    Alignments,
    /// `true` or 1.
    OnlyTrue,
    /// 8, 16, 32, 64 and 128.
    Widths,
    /// `true`, `false`, 1 and 0.
    Booleans,
    /// 1 to 128.
    BitCounts,
    Numbers,
    Accesses,
    ReadEffects,
    WriteEffects,
}

/// A row of the table. It is small and owns nothing, and is made inline: a call that asks for one column makes no other.
#[derive(Clone, Copy)]
struct Row {
    name: &'static str,
    owners: Owners,
    form: Form,
    built_in: BuiltIn,
    dynamic: bool,
    layout: bool,
}

/// A built-in value, as the table tells it.
#[derive(Clone, Copy)]
enum BuiltIn {
    Nothing,
    Off,
    Yes,
    Count(u8),
    Named(Word),
}

#[inline(always)]
fn row_of(
    name: &'static str,
    owners: Owners,
    form: Form,
    built_in: BuiltIn,
    dynamic: bool,
    layout: bool,
) -> Row
    ensures name { result.name.now ≡ name.now }
    ensures owners { result.owners ≡ owners }
    ensures form { result.form ≡ form }
    ensures built_in { result.built_in ≡ built_in }
    ensures dynamic { result.dynamic ≡ dynamic }
    ensures layout { result.layout ≡ layout }
{
    Row {
        name,
        owners,
        form,
        built_in,
        dynamic,
        layout,
    }
}

impl BuiltIn {
    fn value(self) -> Option<Value>
        ensures { result ≡ built_in_of self }
    {
        match self {
            BuiltIn::Nothing => None,
            BuiltIn::Off => Some(Value::Bool(false)),
            BuiltIn::Yes => Some(Value::Bool(true)),
            BuiltIn::Count(number) => Some(Value::Number(number as Number)),
            BuiltIn::Named(word) => Some(Value::Word(word)),
        }
    }
}

impl Property {
    /// All properties, in order.
    pub const ALL: [Property; 36] = [
        Property::Name,
        Property::Desc,
        Property::Addressing,
        Property::Alignment,
        Property::Lsb0,
        Property::Regwidth,
        Property::Accesswidth,
        Property::Shared,
        Property::Fieldwidth,
        Property::Reset,
        Property::Sw,
        Property::Hw,
        Property::Rclr,
        Property::Rset,
        Property::Onread,
        Property::Woset,
        Property::Woclr,
        Property::Onwrite,
        Property::Singlepulse,
        Property::Swmod,
        Property::Swacc,
        Property::We,
        Property::Wel,
        Property::Swwe,
        Property::Swwel,
        Property::Counter,
        Property::Intr,
        Property::Anded,
        Property::Ored,
        Property::Xored,
        Property::Hwclr,
        Property::Hwset,
        Property::Sticky,
        Property::Stickybit,
        Property::Dontcompare,
        Property::Donttest,
    ];

    /// Its row of the table: name, owners, form, built-in value, whether it is dynamic, and whether it is of the layout.
    #[inline(always)]
    fn row(self) -> Row
        ensures name { result.name.now ≡ (row self).name }
        ensures owners { result.owners ≡ (row self).owners }
        ensures form { result.form ≡ (row self).form }
        ensures built_in { built_in_of result.built_in ≡ (row self).built_in }
        ensures dynamic { result.dynamic ≡ (row self).dynamic }
        ensures layout { result.layout ≡ (row self).layout }
    {
        match self {
            Self::Name => row_of("name", All, Texts, Nothing, true, false),
            Self::Desc => row_of("desc", All, Texts, Nothing, true, false),
            Self::Addressing => row_of("addressing", Addrmaps, Modes, Named(Regalign), false, true),
            Self::Alignment => row_of("alignment", Containers, Alignments, Nothing, false, true),
            Self::Lsb0 => row_of("lsb0", Addrmaps, OnlyTrue, Yes, false, false),
            Self::Regwidth => row_of("regwidth", Regs, Widths, Count(32), false, true),
            Self::Accesswidth => row_of("accesswidth", Regs, Widths, Nothing, false, true),
            Self::Shared => row_of("shared", Regs, Booleans, Off, false, false),
            Self::Fieldwidth => row_of("fieldwidth", Fields, BitCounts, Count(1), false, true),
            Self::Reset => row_of("reset", Fields, Numbers, Nothing, true, false),
            Self::Sw => row_of("sw", Fields, Accesses, Named(Rw), true, false),
            Self::Hw => row_of("hw", Fields, Accesses, Named(Rw), false, false),
            Self::Rclr => row_of("rclr", Fields, Booleans, Off, true, false),
            Self::Rset => row_of("rset", Fields, Booleans, Off, true, false),
            Self::Onread => row_of("onread", Fields, ReadEffects, Nothing, true, false),
            Self::Woset => row_of("woset", Fields, Booleans, Off, true, false),
            Self::Woclr => row_of("woclr", Fields, Booleans, Off, true, false),
            Self::Onwrite => row_of("onwrite", Fields, WriteEffects, Nothing, true, false),
            Self::Singlepulse => row_of("singlepulse", Fields, Booleans, Off, true, false),
            Self::Swmod => row_of("swmod", Fields, Booleans, Off, true, false),
            Self::Swacc => row_of("swacc", Fields, Booleans, Off, true, false),
            Self::We => row_of("we", Fields, Booleans, Off, true, false),
            Self::Wel => row_of("wel", Fields, Booleans, Off, true, false),
            Self::Swwe => row_of("swwe", Fields, Booleans, Off, true, false),
            Self::Swwel => row_of("swwel", Fields, Booleans, Off, true, false),
            Self::Counter => row_of("counter", Fields, Booleans, Off, true, false),
            Self::Intr => row_of("intr", Fields, Booleans, Off, true, false),
            Self::Anded => row_of("anded", Fields, Booleans, Off, true, false),
            Self::Ored => row_of("ored", Fields, Booleans, Off, true, false),
            Self::Xored => row_of("xored", Fields, Booleans, Off, true, false),
            Self::Hwclr => row_of("hwclr", Fields, Booleans, Off, true, false),
            Self::Hwset => row_of("hwset", Fields, Booleans, Off, true, false),
            Self::Sticky => row_of("sticky", Fields, Booleans, Off, true, false),
            Self::Stickybit => row_of("stickybit", Fields, Booleans, Off, true, false),
            Self::Dontcompare => row_of("dontcompare", Fields, Booleans, Off, true, false),
            Self::Donttest => row_of("donttest", Fields, Booleans, Off, true, false),
        }
    }

    pub fn name(self) -> &'static str
        ensures { result.now ≡ (row self).name }
    {
        self.row().name
    }

    /// Which components have it.
    pub fn owners(self) -> Owners
        ensures { result ≡ (row self).owners }
    {
        self.row().owners
    }

    /// Whether a component of the kind has it.
    pub fn on(self, kind: Kind) -> bool
        ensures { result ≡ on self kind }
    {
        self.owners().has(kind)
    }

    /// Which values it takes.
    pub fn form(self) -> Form
        ensures { result ≡ (row self).form }
    {
        self.row().form
    }

    /// Whether it may have the value.
    pub fn takes(self, value: &Value) -> bool
        ensures { result ≡ takes self value.now }
    {
        self.form().has(value)
    }

    /// Whether a dynamic assignment may name it.
    pub fn dynamic(self) -> bool
        ensures { result ≡ (row self).dynamic }
    {
        self.row().dynamic
    }

    /// Whether sizes, addresses or bits depend on it.
    pub fn layout(self) -> bool
        ensures { result ≡ (row self).layout }
    {
        self.row().layout
    }

    /// The value of a component that nothing else gives one. That of `accesswidth` is the `regwidth`, and isn't told
    /// here.
    pub fn built_in(self) -> Option<Value>
        ensures { result ≡ (row self).built_in }
    {
        self.row().built_in.value()
    }
}

impl Owners {
    pub fn has(self, kind: Kind) -> bool
        ensures { result ≡ is_owner self kind }
    {
        match (self, kind) {
            (Owners::All, _) => true,
            (Owners::Addrmaps, Kind::Addrmap) => true,
            (Owners::Containers, Kind::Addrmap | Kind::Regfile) => true,
            (Owners::Regs, Kind::Reg) => true,
            (Owners::Fields, Kind::Field) => true,
            _ => false,
        }
    }
}

impl Form {
    pub fn has(self, value: &Value) -> bool
        ensures { result ≡ has_form self value.now }
    {
        match (self, value) {
            (Form::Texts, Value::Text(_)) => true,
            (Form::Modes, Value::Word(word)) => is_mode(*word),
            (Form::Alignments, Value::Number(number)) => is_alignment(*number),
            (Form::OnlyTrue, Value::Number(number)) => *number == 1,
            (Form::OnlyTrue, Value::Bool(answer)) => *answer,
            (Form::Widths, Value::Number(number)) => is_width(*number),
            (Form::Booleans, Value::Number(number)) => *number <= 1,
            (Form::Booleans, Value::Bool(_)) => true,
            (Form::BitCounts, Value::Number(number)) => 1 <= *number && *number <= 128,
            (Form::Numbers, Value::Number(_)) => true,
            (Form::Accesses, Value::Word(word)) => is_access(*word),
            (Form::ReadEffects, Value::Word(word)) => is_read_effect(*word),
            (Form::WriteEffects, Value::Word(word)) => is_write_effect(*word),
            _ => false,
        }
    }
}

fn is_alignment(number: Number) -> bool
    ensures { result ≡ has_form Form.Alignments (Value.Number number) }
{
    number.is_power_of_two() && number <= 1 << 40
}

fn is_width(number: Number) -> bool
    ensures { result ≡ has_form Form.Widths (Value.Number number) }
{
    number == 8 || number == 16 || number == 32 || number == 64 || number == 128
}

fn is_mode(word: Word) -> bool
    ensures { result ≡ is_mode word }
{
    matches!(word, Word::Compact | Word::Regalign | Word::Fullalign)
}

fn is_access(word: Word) -> bool
    ensures { result ≡ is_access word }
{
    matches!(
        word,
        Word::R | Word::W | Word::Rw | Word::Wr | Word::Rw1 | Word::W1 | Word::Na
    )
}

fn is_read_effect(word: Word) -> bool
    ensures { result ≡ is_read_effect word }
{
    matches!(word, Word::Rclr | Word::Rset | Word::Ruser)
}

fn is_write_effect(word: Word) -> bool
    ensures { result ≡ is_write_effect word }
{
    matches!(
        word,
        Word::Woset
            | Word::Woclr
            | Word::Wot
            | Word::Wzs
            | Word::Wzc
            | Word::Wzt
            | Word::Wclr
            | Word::Wset
            | Word::Wuser
    )
}
