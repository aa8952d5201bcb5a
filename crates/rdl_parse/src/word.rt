//! What one word may be.
ghost use Rattle.std.specs.Prelude.{◌≡◌, IfSome, IfOk, IfErr, option_map};
ghost use Rattle.std.specs.Option.{option_copied};
ghost use Rattle.rdl_text.specs.Name.{IsName};
ghost use Rattle.rdl_parse.specs.Class.{class};
ghost use Rattle.rdl_parse.specs.Gathering.{outside_by};
ghost use Rattle.rdl_parse.specs.Reading as spec;
ghost use Rattle.rdl_parse.specs.Symbol.{symbol, class_symbol, inside, property_text};
ghost use Rattle.rdl_text.specs.declared.token.TokenKind.{TokenKind};
ghost use Rattle.rdl_tree.specs.declared.value.Value.{Value};
ghost use Rattle.rdl_parse.specs.declared.fault.Stop.{Stop};

use crate::class::{Class, ReservedProperty};
use crate::fault::Stop;
use rdl_text::name::Name;
use rdl_text::token::{Mark, Number, Token, TokenKind};
use rdl_tree::shell::Outside;
use rdl_tree::value::{Value, Word};
use std::alloc::Global;

/// Whether a word is this mark.
#[tactic(auto, using(crate::proofs::Words::identifier_no_mark))]
pub fn is_mark(word: &Token<'_>, mark: Mark) -> bool
    ensures { result ≡ spec.is_mark mark (symbol word.now) }
{
    match word.kind() {
        TokenKind::Mark(own) => own == mark,
        TokenKind::Identifier | TokenKind::Number(_) | TokenKind::Text => false,
    }
}

/// The number that a word is.
#[inline(always)]
#[tactic(auto, using(crate::proofs::Words::identifier_no_number))]
pub fn number_of(word: &Token<'_>) -> Option<Number>
    ensures { result ≡ spec.number_by (symbol word.now) }
{
    match word.kind() {
        TokenKind::Number(number) => Some(number),
        TokenKind::Identifier | TokenKind::Text | TokenKind::Mark(_) => None,
    }
}

/// The identifier, none of the reserved words, that a word is.
#[inline(always)]
pub fn name_of<'a>(word: &Token<'a>) -> Option<&'a str>
    ensures value { option_copied result ≡ spec.name_by (symbol word.now) }
    ensures is_name { IfSome result (λ name. IsName name.now) }
{
    word.is_spelled();
    match word.kind() {
        TokenKind::Identifier => match Class::of(word.source()) {
            Class::Name => Some(word.source()),
            _ => None,
        },
        TokenKind::Number(_) | TokenKind::Text | TokenKind::Mark(_) => None,
    }
}

/// What `external` and `internal` say.
#[inline(always)]
pub(crate) fn outside_of(word: &Token<'_>) -> Option<Outside>
    ensures { result ≡ outside_by (symbol word.now) }
{
    match word.kind() {
        TokenKind::Identifier => match Class::of(word.source()) {
            Class::Outside(outside) => Some(outside),
            _ => None,
        },
        TokenKind::Number(_) | TokenKind::Text | TokenKind::Mark(_) => None,
    }
}

/// The name of the property that a word is.
#[inline(always)]
pub(crate) fn prop_of<'a>(word: &Token<'a>) -> Option<&'a str>
    ensures value { option_copied result ≡ spec.prop_by (symbol word.now) }
    ensures is_name { IfSome result (λ name. IsName name.now) }
{
    word.is_spelled();
    match word.kind() {
        TokenKind::Identifier => match Class::of(word.source()) {
            Class::Name => Some(word.source()),
            Class::Property(property) => Some(property_name(property)),
            _ => None,
        },
        TokenKind::Number(_) | TokenKind::Text | TokenKind::Mark(_) => None,
    }
}

#[tactic(auto, using(crate::proofs::Words::property_is_name))]
pub(crate) fn property_name(property: ReservedProperty) -> &'static str
    ensures value { result.now ≡ property_text property }
    ensures is_name { IsName result.now }
{
    property.text()
}

/// The name that is spelled so.
#[inline(always)]
pub(crate) fn new_name(alloc: Global, text: &str) -> Result<Name, Stop>
    requires { IsName text.now }
    ensures ok { IfOk result (λ name. name ≡ text.now) }
    ensures memory { IfErr result (λ stop. stop ≡ Stop.Memory) }
{
    Ok(Name::of_name(alloc, text)?)
}

fn name_value(name: &str) -> Option<Word>
    ensures { option_map Value.Word result ≡ spec.name_value name.now }
{
    match name {
        "r" => Some(Word::R),
        "w" => Some(Word::W),
        _ => None,
    }
}

fn property_value(property: ReservedProperty) -> Option<Word>
    ensures { option_map Value.Word result ≡ spec.property_value property }
{
    match property {
        ReservedProperty::Sw | ReservedProperty::Hw => None,
        ReservedProperty::Rclr => Some(Word::Rclr),
        ReservedProperty::Rset => Some(Word::Rset),
        ReservedProperty::Woset => Some(Word::Woset),
        ReservedProperty::Woclr => Some(Word::Woclr),
    }
}

fn word_value(word: Word) -> Option<Word>
    ensures { option_map Value.Word result ≡ spec.word_value word }
{
    match word {
        Word::R | Word::W | Word::Rclr | Word::Rset | Word::Woset | Word::Woclr => None,
        _ => Some(word),
    }
}

/// The string that a word is.
#[inline(always)]
fn text_value(alloc: Global, word: &Token<'_>) -> Result<Value, Stop>
    requires { word.now.kind ≡ TokenKind.Text }
    ensures ok { IfOk result (λ value. value ≡ Value.Text (inside word.now.source)) }
    ensures memory { IfErr result (λ stop. stop ≡ Stop.Memory) }
{
    match word.to_raw(alloc)? {
        Some(text) => Ok(Value::Text(text)),
        None => unreachable!(),
    }
}

/// The value that an identifier is.
#[inline(always)]
fn identifier_value(identifier: &str) -> Option<Value>
    ensures { result ≡ spec.value_by (class_symbol (class identifier.now) identifier.now) }
{
    match Class::of(identifier) {
        Class::Truth(truth) => Some(Value::Bool(truth)),
        Class::Name => Some(Value::Word(name_value(identifier)?)),
        Class::Property(property) => Some(Value::Word(property_value(property)?)),
        Class::Word(word) => Some(Value::Word(word_value(word)?)),
        Class::Kind(_) | Class::Outside(_) | Class::Default | Class::Reserved => None,
    }
}

/// The value that a word is.
#[inline(always)]
pub fn value_of(alloc: Global, word: &Token<'_>) -> Result<Option<Value>, Stop>
    ensures ok { IfOk result (λ value. value ≡ spec.value_by (symbol word.now)) }
    ensures memory { IfErr result (λ stop. stop ≡ Stop.Memory) }
{
    match word.kind() {
        TokenKind::Identifier => Ok(identifier_value(word.source())),
        TokenKind::Number(number) => Ok(Some(Value::Number(number))),
        TokenKind::Text => Ok(Some(text_value(alloc, word)?)),
        TokenKind::Mark(_) => Ok(None),
    }
}
