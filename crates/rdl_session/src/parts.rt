//! The parts of a session's lines: what a separator parts, numbers, and addresses.
ghost use Rattle.std.specs.Prelude.{◌≡◌, nat_eq, option_map};
ghost use Rattle.std.specs.Char.{is_ascii_digit};
ghost use Rattle.std.specs.List.{list_all, position};
ghost use Rattle.rdl_session.specs.Reading as spec;

use rdl_tree::address::Address;
use std::str;

fn position_of(bytes: &[u8], separator: u8) -> Option<usize>
    ensures { result ≡ position (λ b. nat_eq b separator) bytes.now }
{
    bytes.iter().position(|byte| *byte == separator)
}

/// What stands before the first such byte, and behind it.
pub(crate) fn cut(bytes: &[u8], separator: u8) -> Option<(&[u8], &[u8])>
    ensures { option_map (λ p. (p.0.now, p.1.now)) result ≡ spec.cut_at separator bytes.now }
{
    match position_of(bytes, separator) {
        Some(at) => Some((&bytes[..at], &bytes[at + 1..])),
        None => None,
    }
}

/// So many bytes, and what is behind them.
#[tactic(auto, unfolding(crate::specs::Reading::taken))]
pub(crate) fn taken(bytes: &[u8], count: usize) -> Option<(&[u8], &[u8])>
    ensures { option_map (λ p. (p.0.now, p.1.now)) result ≡ spec.taken count bytes.now }
{
    if count <= bytes.len() {
        Some((&bytes[..count], &bytes[count..]))
    } else {
        None
    }
}

fn all_digits(bytes: &[u8]) -> bool
    ensures { result ≡ list_all is_ascii_digit bytes.now }
{
    bytes.iter().all(|byte| byte.is_ascii_digit())
}

/// Whether the bytes are digits without a leading zero.
#[tactic(auto, unfolding(crate::specs::Reading::is_plain))]
fn is_plain(bytes: &[u8]) -> bool
    ensures { result ≡ spec.is_plain bytes.now }
{
    all_digits(bytes) && (bytes.len() == 1 || (bytes.len() > 1 && bytes[0] != b'0'))
}

/// The number that the bytes are, in decimal without leading zeros.
pub(crate) fn number(bytes: &[u8]) -> Option<usize>
    ensures { result ≡ spec.number_in bytes.now }
{
    if !is_plain(bytes) {
        return None;
    }
    match str::from_utf8(bytes) {
        Ok(text) => text.parse::<usize>().ok(),
        Err(_) => None,
    }
}

/// The address that the bytes are: numbers parted by dots.
pub(crate) fn address(bytes: &[u8]) -> Option<Address>
    ensures { result ≡ spec.address_in 17 bytes.now }
{
    let mut address = Address::new();
    let mut rest = bytes;
    'numbers: while let Some((first, others)) = cut(rest, b'.') {
        let number = number(first)?;
        if address.len() == Address::MAX_LEN {
            return None;
        }
        address.push(number);
        rest = others;
    }
    let last = number(rest)?;
    if address.len() == Address::MAX_LEN {
        return None;
    }
    address.push(last);
    Some(address)
}
