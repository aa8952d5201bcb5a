//! The rows of the table of words: the word of each row that a text begins with.
ghost use Rattle.std.specs.Prelude.{◌≡◌, ℕ, ◌≤◌, ◌<◌, ◌+◌, List, length, true, false, IfSome, Ok};
ghost use Rattle.std.specs.Option.{option_map};
ghost use Rattle.rdl_text.specs.Front.{IsInside, judged_front, kind_in};
ghost use Rattle.rdl_text.specs.Rows.{closing, short_mark, long_mark};
ghost use Rattle.rdl_text.specs.Words as spec;
ghost use Rattle.rdl_text.specs.declared.token.TokenKind.{TokenKind};

use crate::bytes::{Class, base_of, byte_at, is_digit, run_len};
use crate::fault::WordFault;
use crate::name::{Name, is_letter};
use crate::number::{number, sized, value};
use crate::piece::{Front, Row};
use crate::token::{Mark, TokenKind};
use memchr::memchr2;

#[inline(always)]
#[tactic(auto, using(crate::proofs::Steps::row_lemmas), unfolding(crate::specs::Words::identifier, crate::specs::Rows::identifier_len))]
fn identifier(bytes: &[u8]) -> Option<Front>
    ensures word { option_map (judged_front bytes.now) result ≡ spec.identifier bytes.now }
    ensures inside { IfSome result (IsInside bytes.now) }
{
    if !is_letter(byte_at(bytes, 0)) {
        return None;
    }
    Some(Front {
        row: Row::Identifier,
        len: 1 + run_len(bytes, 1, Class::IdentifierRest),
    })
}

#[inline(always)]
#[tactic(auto, using(crate::proofs::Steps::row_lemmas), unfolding(crate::specs::Words::decimal, crate::specs::Rows::decimal_len))]
fn decimal(bytes: &[u8]) -> Option<Front>
    ensures word { option_map (judged_front bytes.now) result ≡ spec.decimal bytes.now }
    ensures inside { IfSome result (IsInside bytes.now) }
{
    if !is_digit(byte_at(bytes, 0), 10) {
        return None;
    }
    Some(Front {
        row: Row::Decimal,
        len: 1 + run_len(bytes, 1, Class::DigitRest(10)),
    })
}

#[inline(always)]
#[tactic(auto, using(crate::proofs::Steps::row_lemmas), unfolding(crate::specs::Words::hexadecimal, crate::specs::Rows::hexadecimal_len))]
fn hexadecimal(bytes: &[u8]) -> Option<Front>
    ensures word { option_map (judged_front bytes.now) result ≡ spec.hexadecimal bytes.now }
    ensures inside { IfSome result (IsInside bytes.now) }
{
    let letter = byte_at(bytes, 1);
    if !(byte_at(bytes, 0) == b'0'
        && (letter == b'x' || letter == b'X')
        && is_digit(byte_at(bytes, 2), 16))
    {
        return None;
    }
    Some(Front {
        row: Row::Hexadecimal,
        len: 3 + run_len(bytes, 3, Class::DigitRest(16)),
    })
}

#[inline(always)]
#[tactic(auto, using(crate::proofs::Steps::row_lemmas), unfolding(crate::specs::Words::verilog, crate::specs::Rows::verilog_len))]
fn verilog(bytes: &[u8]) -> Option<Front>
    ensures word { option_map (judged_front bytes.now) result ≡ spec.verilog bytes.now }
    ensures inside { IfSome result (IsInside bytes.now) }
{
    let width = run_len(bytes, 0, Class::Digit);
    if !(width > 0 && byte_at(bytes, width) == b'\'') {
        return None;
    }
    let base = base_of(byte_at(bytes, width + 1));
    if !is_digit(byte_at(bytes, width + 2), base) {
        return None;
    }
    Some(Front {
        row: Row::Verilog,
        len: width + 3 + run_len(bytes, width + 3, Class::DigitRest(base)),
    })
}

/// The longer of two words that a text begins with.
#[inline(always)]
fn longer(one: Option<Front>, other: Option<Front>) -> Option<Front>
    ensures word { (s : List ℕ) → option_map (judged_front s) result ≡ spec.longer (option_map (judged_front s) one) (option_map (judged_front s) other) }
    ensures inside { (s : List ℕ) → IfSome one (IsInside s) → IfSome other (IsInside s) → IfSome result (IsInside s) }
{
    match (one, other) {
        (None, _) => other,
        (Some(_), None) => one,
        (Some(first), Some(second)) => if first.len < second.len { other } else { one },
    }
}

#[inline(always)]
pub(crate) fn longest_number(bytes: &[u8]) -> Option<Front>
    ensures word { option_map (judged_front bytes.now) result ≡ spec.longer (spec.decimal bytes.now) (spec.longer (spec.hexadecimal bytes.now) (spec.verilog bytes.now)) }
    ensures inside { IfSome result (IsInside bytes.now) }
{
    let second = byte_at(bytes, 1);
    if second == b'x' || second == b'X' {
        longer(decimal(bytes), hexadecimal(bytes))
    } else {
        longer(decimal(bytes), verilog(bytes))
    }
}

/// How many bytes a number has at most that is seen at once to have few bits.
const SMALL: usize = 20;

/// Whether a word is a number of so few digits that its bits suffice.
#[inline(always)]
pub(crate) fn is_small(front: Front) -> bool
    ensures { result ≡ true → (s : List ℕ) → IsInside s front → (value : ℕ) × (kind_in front.row s front.len ≡ Ok (TokenKind.Number value)) }
{
    match front.row {
        Row::Decimal | Row::Hexadecimal => front.len <= SMALL,
        Row::Identifier | Row::Verilog | Row::Text | Row::Mark(_) => false,
    }
}

/// How many bytes of a string are looked at one by one, which for most strings takes less than a search does.
const NEAR: usize = 32;

/// How many bytes stand before the quote that closes a string.
pub(crate) fn closing(bytes: &[u8]) -> Option<usize>
    ensures place { result ≡ closing false bytes.now }
    ensures within { IfSome result (λ n. n < length bytes.now) }
{
    let mut at = 0;
    'near: while at < bytes.len() && at < NEAR {
        let byte = bytes[at];
        if byte == b'"' {
            return Some(at);
        }
        at += if byte == b'\\' { 2 } else { 1 };
    }
    'scan: while at < bytes.len() {
        let Some(plain) = memchr2(b'"', b'\\', &bytes[at..]) else {
            return None;
        };
        at += plain;
        if bytes[at] == b'"' {
            return Some(at);
        }
        at += 2;
    }
    None
}

#[inline(always)]
#[tactic(auto, using(crate::proofs::Steps::row_lemmas), unfolding(crate::specs::Words::string, crate::specs::Rows::string_len))]
fn string(bytes: &[u8]) -> Option<Front>
    ensures word { option_map (judged_front bytes.now) result ≡ spec.string bytes.now }
    ensures inside { IfSome result (IsInside bytes.now) }
{
    if byte_at(bytes, 0) != b'"' {
        return None;
    }
    let len = closing(&bytes[1..])? + 2;
    Some(Front {
        row: Row::Text,
        len,
    })
}

#[inline(always)]
pub(crate) fn short_mark(byte: u8) -> Option<Mark>
    ensures { result ≡ short_mark byte }
{
    match byte {
        b'{' => Some(Mark::OpenBrace),
        b'}' => Some(Mark::CloseBrace),
        b'[' => Some(Mark::OpenBracket),
        b']' => Some(Mark::CloseBracket),
        b':' => Some(Mark::Colon),
        b';' => Some(Mark::Semicolon),
        b',' => Some(Mark::Comma),
        b'.' => Some(Mark::Dot),
        b'=' => Some(Mark::Equals),
        b'@' => Some(Mark::At),
        _ => None,
    }
}

#[inline(always)]
pub(crate) fn long_mark(first: u8, second: u8) -> Option<Mark>
    ensures { result ≡ long_mark first second }
{
    match (first, second) {
        (b'+', b'=') => Some(Mark::PlusEquals),
        (b'%', b'=') => Some(Mark::PercentEquals),
        (b'-', b'>') => Some(Mark::Arrow),
        _ => None,
    }
}

#[inline(always)]
#[tactic(auto, using(crate::proofs::Steps::row_lemmas), unfolding(crate::specs::Words::mark))]
fn mark(bytes: &[u8]) -> Option<Front>
    ensures word { option_map (judged_front bytes.now) result ≡ spec.mark bytes.now }
    ensures inside { IfSome result (IsInside bytes.now) }
{
    let first = byte_at(bytes, 0);
    match long_mark(first, byte_at(bytes, 1)) {
        Some(mark) => Some(Front {
            row: Row::Mark(mark),
            len: 2,
        }),
        None => match short_mark(first) {
            Some(mark) => Some(Front {
                row: Row::Mark(mark),
                len: 1,
            }),
            None => None,
        },
    }
}

/// The longest word that a text begins with.
#[inline(always)]
pub(crate) fn longest(bytes: &[u8]) -> Option<Front>
    ensures word { option_map (judged_front bytes.now) result ≡ spec.longest bytes.now }
    ensures inside { IfSome result (IsInside bytes.now) }
{
    let first = byte_at(bytes, 0);
    if is_letter(first) {
        identifier(bytes)
    } else if is_digit(first, 10) {
        longest_number(bytes)
    } else if first == b'"' {
        string(bytes)
    } else {
        mark(bytes)
    }
}

/// What a Verilog number of so many bytes is.
fn verilog_kind(bytes: &[u8], len: usize) -> Result<TokenKind, WordFault>
    requires { IsInside bytes.now (record { row = Row.Verilog; len = len }) }
    ensures { result ≡ kind_in Row.Verilog bytes.now len }
{
    let width = run_len(bytes, 0, Class::Digit);
    let base = base_of(byte_at(bytes, width + 1));
    sized(
        value(10, &bytes[..width]),
        value(base, &bytes[width + 2..len]),
    )
}

/// What a word is that a text begins with, or why it is refused.
#[inline(always)]
pub(crate) fn kind_of(bytes: &[u8], front: Front) -> Result<TokenKind, WordFault>
    requires { IsInside bytes.now front }
    ensures { result ≡ kind_in front.row bytes.now front.len }
{
    match front.row {
        Row::Identifier if front.len > Name::MAX_LEN => Err(WordFault::IdentifierTooLong),
        Row::Identifier => Ok(TokenKind::Identifier),
        Row::Decimal => number(value(10, &bytes[..front.len])),
        Row::Hexadecimal => number(value(16, &bytes[2..front.len])),
        Row::Verilog => verilog_kind(bytes, front.len),
        Row::Text => Ok(TokenKind::Text),
        Row::Mark(mark) => Ok(TokenKind::Mark(mark)),
    }
}
