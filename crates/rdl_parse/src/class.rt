//! What the grammar sees of an identifier.
ghost use Rattle.std.specs.Prelude.{◌≡◌};
ghost use Rattle.rdl_parse.specs.Reserved.{table_of};
ghost use Rattle.rdl_parse.specs.Class.{class};
ghost use Rattle.rdl_parse.specs.Reserved.{reserved, look, of_length, by_length};
ghost use Rattle.rdl_parse.specs.Symbol.{property_text};

use rdl_text::is_same;
use rdl_tree::shell::{Kind, Outside};
use rdl_tree::value::Word;

/// A reserved word that is a property.
#[derive(Clone, Copy, Debug, PartialEq, Eq)]
pub enum ReservedProperty {
    Sw,
    Hw,
    Rclr,
    Rset,
    Woset,
    Woclr,
}

/// What an identifier is to the grammar.
#[derive(Clone, Copy, Debug, PartialEq, Eq)]
pub enum Class {
    Kind(Kind),
    /// `external` or `internal`.
    Outside(Outside),
    /// `default`.
    Default,
    /// `true` or `false`.
    Truth(bool),
    Property(ReservedProperty),
    /// A word that is a value and nothing else.
    Word(Word),
    /// A reserved word with no use in this profile.
    Reserved,
    /// An identifier that isn't reserved.
    Name,
}

/// What an identifier is by these words.
fn look(identifier: &str, words: &[(&str, Class)]) -> Class
    ensures { result ≡ look identifier.now (table_of words.now) }
{
    for word in words {
        if is_same(identifier, word.0) {
            return word.1;
        }
    }
    Class::Name
}

/// What an identifier of two letters is.
fn of_two(identifier: &str) -> Class
    ensures { result ≡ look identifier.now (of_length 2 reserved) }
{
    let words = [
        ("sw", Class::Property(ReservedProperty::Sw)),
        ("hw", Class::Property(ReservedProperty::Hw)),
        ("rw", Class::Word(Word::Rw)),
        ("wr", Class::Word(Word::Wr)),
        ("w1", Class::Word(Word::W1)),
        ("na", Class::Word(Word::Na)),
    ];
    look(identifier, &words)
}

/// What an identifier of three letters is.
fn of_three(identifier: &str) -> Class
    ensures { result ≡ look identifier.now (of_length 3 reserved) }
{
    let words = [
        ("reg", Class::Kind(Kind::Reg)),
        ("rw1", Class::Word(Word::Rw1)),
        ("wot", Class::Word(Word::Wot)),
        ("wzs", Class::Word(Word::Wzs)),
        ("wzc", Class::Word(Word::Wzc)),
        ("wzt", Class::Word(Word::Wzt)),
        ("mem", Class::Reserved),
    ];
    look(identifier, &words)
}

/// What an identifier of four letters is.
fn of_four(identifier: &str) -> Class
    ensures { result ≡ look identifier.now (of_length 4 reserved) }
{
    let words = [
        ("true", Class::Truth(true)),
        ("rclr", Class::Property(ReservedProperty::Rclr)),
        ("rset", Class::Property(ReservedProperty::Rset)),
        ("wclr", Class::Word(Word::Wclr)),
        ("wset", Class::Word(Word::Wset)),
        ("enum", Class::Reserved),
    ];
    look(identifier, &words)
}

/// What an identifier of five letters is.
fn of_five(identifier: &str) -> Class
    ensures { result ≡ look identifier.now (of_length 5 reserved) }
{
    let words = [
        ("field", Class::Kind(Kind::Field)),
        ("false", Class::Truth(false)),
        ("woset", Class::Property(ReservedProperty::Woset)),
        ("woclr", Class::Property(ReservedProperty::Woclr)),
        ("ruser", Class::Word(Word::Ruser)),
        ("wuser", Class::Word(Word::Wuser)),
        ("alias", Class::Reserved),
    ];
    look(identifier, &words)
}

/// What an identifier of six letters is.
fn of_six(identifier: &str) -> Class
    ensures { result ≡ look identifier.now (of_length 6 reserved) }
{
    let words = [
        ("signal", Class::Reserved),
        ("struct", Class::Reserved),
        ("encode", Class::Reserved),
    ];
    look(identifier, &words)
}

/// What an identifier of seven letters is.
fn of_seven(identifier: &str) -> Class
    ensures { result ≡ look identifier.now (of_length 7 reserved) }
{
    let words = [
        ("addrmap", Class::Kind(Kind::Addrmap)),
        ("regfile", Class::Kind(Kind::Regfile)),
        ("default", Class::Default),
        ("compact", Class::Word(Word::Compact)),
    ];
    look(identifier, &words)
}

/// What an identifier of eight letters is.
fn of_eight(identifier: &str) -> Class
    ensures { result ≡ look identifier.now (of_length 8 reserved) }
{
    let words = [
        ("external", Class::Outside(Outside::External)),
        ("internal", Class::Outside(Outside::Internal)),
        ("regalign", Class::Word(Word::Regalign)),
        ("property", Class::Reserved),
        ("abstract", Class::Reserved),
    ];
    look(identifier, &words)
}

/// What an identifier of nine letters is.
fn of_nine(identifier: &str) -> Class
    ensures { result ≡ look identifier.now (of_length 9 reserved) }
{
    let words = [("fullalign", Class::Word(Word::Fullalign))];
    look(identifier, &words)
}

/// What an identifier of ten letters is.
fn of_ten(identifier: &str) -> Class
    ensures { result ≡ look identifier.now (of_length 10 reserved) }
{
    let words = [("constraint", Class::Reserved)];
    look(identifier, &words)
}

/// What an identifier is by its length: no reserved word has another one.
#[tactic(auto, unfolding(crate::specs::Reserved::by_length))]
fn by_length(identifier: &str) -> Class
    ensures { result ≡ by_length identifier.now }
{
    match identifier.len() {
        2 => of_two(identifier),
        3 => of_three(identifier),
        4 => of_four(identifier),
        5 => of_five(identifier),
        6 => of_six(identifier),
        7 => of_seven(identifier),
        8 => of_eight(identifier),
        9 => of_nine(identifier),
        10 => of_ten(identifier),
        _ => Class::Name,
    }
}

impl Class {
    #[tactic(auto, using(crate::proofs::Classes::class_by_length))]
    pub fn of(identifier: &str) -> Class
        ensures { result ≡ class identifier.now }
    {
        by_length(identifier)
    }
}

impl ReservedProperty {
    /// The property as a text spells it.
    pub fn text(self) -> &'static str
        ensures { result.now ≡ property_text self }
    {
        match self {
            ReservedProperty::Sw => "sw",
            ReservedProperty::Hw => "hw",
            ReservedProperty::Rclr => "rclr",
            ReservedProperty::Rset => "rset",
            ReservedProperty::Woset => "woset",
            ReservedProperty::Woclr => "woclr",
        }
    }
}
