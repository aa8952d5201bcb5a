//! A text as a description, or as one statement.
ghost use Rattle.std.specs.Prelude.{◌≡◌, ◌⊎◌, ◌<◌, ◌≤◌, List, length, IfOk, IfErr, MatchResult, Ok, Err};
ghost use Rattle.rdl_text.specs.declared.fault.WordFault.{WordFault};
ghost use Rattle.rdl_parse.specs.declared.fault.ParseFaultKind.{ParseFaultKind};
ghost use Rattle.rdl_tree.specs.Items.{Items};
ghost use Rattle.rdl_tree.specs.View.{items_of};
ghost use Rattle.rdl_tree.specs.Limits.{IsWithinLimits};
ghost use Rattle.rdl_tree.specs.declared.description.Item.{Item};
ghost use Rattle.rdl_parse.specs.Faults as spec;
ghost use Rattle.rdl_parse.specs.Faults.{max_text, out_of_memory, too_long};
ghost use Rattle.rdl_parse.specs.Parsing.{HasWords, SpellsText, SpellsItemText, HasWordFault, Refuses, RefusesItem};
ghost use Rattle.rdl_parse.specs.FirstFault.{Reads, parse_reading, item_reading};
ghost use Rattle.rdl_parse.specs.Places.{Located};

use crate::fault::{Fault, ParseFault, ParseFaultKind, Stop};
use crate::places::{Places, start_of};
use crate::text;
use rdl_text::list::Tokens;
use rdl_text::tokens;
use rdl_tree::description::{Description, Item};
use std::alloc::Global;

/// The most bytes that a text may have.
pub const MAX_LEN: usize = 67_108_864;

const TOO_LONG: ParseFault = ParseFault {
    kind: ParseFaultKind::TooLong,
    offset: 0,
};

/// The words of a text that isn't too long.
fn words_of<'a>(alloc: Global, text: &'a str) -> Result<Tokens<'a>, ParseFault>
    ensures ok { IfOk result (λ ws. HasWords text.now ws) }
    ensures long { max_text < length text.now → result ≡ Err too_long }
    ensures err { IfErr result (λ f. (f ≡ out_of_memory) ⊎ ((f ≡ too_long) × (max_text < length text.now)) ⊎ ((kind : WordFault) × (f.kind ≡ ParseFaultKind.Words kind) × HasWordFault text.now kind f.offset)) }
{
    if text.len() > MAX_LEN {
        return Err(TOO_LONG);
    }
    match tokens(alloc, text) {
        Ok(words) => Ok(words),
        Err(fault) => Err(ParseFault {
            kind: ParseFaultKind::Words(fault.kind),
            offset: fault.offset,
        }),
    }
}

/// Why reading the words of a text stopped, as a fault of the text.
fn stop_fault(text: &str, words: &Tokens<'_>, stop: Stop) -> ParseFault
    ensures { result ≡ spec.stop_fault text.now words.now stop }
{
    let (kind, offset) = match stop {
        Stop::Memory => return ParseFault::MEMORY,
        Stop::Fault(Fault::End) => (ParseFaultKind::UnexpectedEnd, text.len()),
        Stop::Fault(Fault::Unexpected(left)) => {
            (ParseFaultKind::UnexpectedWord, start_of(words, left))
        }
        Stop::Fault(Fault::TooDeep(left)) => (ParseFaultKind::TooDeep, start_of(words, left)),
        Stop::Fault(Fault::TooLarge(left)) => (ParseFaultKind::TooLarge, start_of(words, left)),
    };
    ParseFault { kind, offset }
}

/// Does the same as `parse`, and gives the words of the text with it.
pub fn parse_worded<'a>(
    alloc: Global,
    text: &'a str,
) -> Result<(Description, Places<'a>, Tokens<'a>), ParseFault>
    ensures words { IfOk result (λ x. HasWords text.now x.2) }
    ensures found { IfOk result (λ x. SpellsText text.now x.0.items x.1 × IsWithinLimits x.0.items) }
    ensures only { (d : Items) (p : Located) → SpellsText text.now d p → IsWithinLimits d → MatchResult result (λ x. (x.0.items ≡ d) × (x.1 ≡ p)) (λ f. f ≡ out_of_memory) }
    ensures refused { IfErr result (λ f. (f ≡ out_of_memory) ⊎ Refuses text.now f) }
    ensures long { max_text < length text.now → result ≡ Err too_long }
    ensures exact { Reads (λ x. (x.0.items, x.1)) result (parse_reading text.now) }
{
    let words = match words_of(alloc, text) {
        Ok(words) => words,
        Err(fault) => return Err(fault),
    };
    match text::text(alloc, words.as_words()) {
        Ok((description, spots)) => match Places::new(alloc, text, &words, spots.as_slice()) {
            Ok(places) => Ok((description, places, words)),
            Err(_) => Err(ParseFault::MEMORY),
        },
        Err(stop) => Err(stop_fault(text, &words, stop)),
    }
}

/// The description that the text spells, and the places of its items.
///
/// A fault is the first one: that the text is too long, then the first of its words', then the first at which reading
/// the words from left to right stops.
pub fn parse<'a>(alloc: Global, text: &'a str) -> Result<(Description, Places<'a>), ParseFault>
    // What is answered is spelled, within the limits.
    ensures found { IfOk result (λ x. SpellsText text.now x.0.items x.1 × IsWithinLimits x.0.items) }
    // What is spelled within the limits is answered, unless memory runs out.
    ensures only { (d : Items) (p : Located) → SpellsText text.now d p → IsWithinLimits d → MatchResult result (λ x. (x.0.items ≡ d) × (x.1 ≡ p)) (λ f. f ≡ out_of_memory) }
    // A fault is the text's, with its place: one of S9 to S12 only where it spells nothing within the limits.
    ensures refused { IfErr result (λ f. (f ≡ out_of_memory) ⊎ Refuses text.now f) }
    // A text that is too long is told so, before anything else.
    ensures long { max_text < length text.now → result ≡ Err too_long }
    // Which fault it is.
    ensures exact { Reads (λ x. (x.0.items, x.1)) result (parse_reading text.now) }
{
    match parse_worded(alloc, text) {
        Ok((description, places, _words)) => Ok((description, places)),
        Err(fault) => Err(fault),
    }
}

/// The items of a text that is exactly one statement: a definition with instances, or several instances, are several
/// items. The faults are those of `parse`.
pub fn parse_item(alloc: Global, text: &str) -> Result<Vec<Item>, ParseFault>
    ensures found { IfOk result (λ xs. SpellsItemText text.now xs.items × IsWithinLimits (items_of xs.items)) }
    ensures only { (xs : List Item) → SpellsItemText text.now xs → IsWithinLimits (items_of xs) → MatchResult result (λ ys. ys.items ≡ xs) (λ f. f ≡ out_of_memory) }
    ensures refused { IfErr result (λ f. (f ≡ out_of_memory) ⊎ RefusesItem text.now f) }
    ensures long { max_text < length text.now → result ≡ Err too_long }
    ensures exact { Reads (λ xs. xs.items) result (item_reading text.now) }
{
    let words = match words_of(alloc, text) {
        Ok(words) => words,
        Err(fault) => return Err(fault),
    };
    match text::items(alloc, words.as_words()) {
        Ok(items) => Ok(items),
        Err(stop) => Err(stop_fault(text, &words, stop)),
    }
}
