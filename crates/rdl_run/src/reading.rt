//! From bytes to a description or to the items of one statement.
ghost use Rattle.std.specs.Prelude.{◌≡◌, ◌≢◌, IfOk, IfErr, IfSome, IsUtf8};
ghost use Rattle.rdl_parse.specs.Faults.{out_of_memory};
ghost use Rattle.rdl_parse.specs.Parsing.{HasWords};
ghost use Rattle.rdl_weave.specs.Sources.{IsSource};
ghost use Rattle.rdl_weave.specs.Spelled.{IsRead};
ghost use Rattle.rdl_run.specs.Readings.{ReadsMap, ReadsItems, IsNoText, RefusesMap, RefusesItems};
ghost use Rattle.rdl_run.specs.ReadingFaults.{IfRefused};

use rdl_parse::fault::{ParseFault, ParseFaultKind};
use rdl_parse::parse::{parse_item, parse_worded};
use rdl_parse::places::Places;
use rdl_text::fault::WordFault;
use rdl_text::list::Tokens;
use rdl_tree::description::{Description, Item};
use rdl_weave::source::Source;
use std::alloc::{AllocError, Global};
use std::str;

/// Why a text isn't read.
#[derive(Clone, Copy, Debug, PartialEq, Eq, Drop)]
pub enum ReadingFault {
    Refused(ParseFault),
    /// S8: no memory.
    Memory,
}

fn reading_fault(fault: ParseFault) -> ReadingFault
    ensures { IfRefused (λ f. (f ≡ fault) × (f ≢ out_of_memory)) result }
{
    match fault.kind {
        ParseFaultKind::Words(WordFault::Memory) => ReadingFault::Memory,
        _ => ReadingFault::Refused(fault),
    }
}

/// The text of the bytes.
fn as_utf8(bytes: &[u8]) -> Result<&str, ReadingFault>
    ensures text { IfOk result (λ text. IsUtf8 bytes.now × (text.now ≡ bytes.now)) }
    ensures refused { IfErr result (λ e. IfRefused (IsNoText bytes.now) e) }
{
    match str::from_utf8(bytes) {
        Ok(text) => Ok(text),
        Err(e) => Err(ReadingFault::Refused(ParseFault {
            kind: ParseFaultKind::Words(WordFault::BadCharacter),
            offset: e.valid_up_to(),
        })),
    }
}

/// What was read of a text with these words, which spells this description, if edits are to be woven into it.
fn source_if(
    alloc: Global,
    text: &str,
    words: &Tokens<'_>,
    description: &Description,
    places: &Places<'_>,
    is_edited: bool,
) -> Result<Option<Source>, AllocError>
    requires words { HasWords text.now words.now }
    requires read { IsRead text.now description.now.items places.now }
    ensures { IfOk result (λ source. IfSome source (IsSource text.now)) }
{
    if !is_edited {
        return Ok(None);
    }
    Ok(Some(Source::of(alloc, text, words, description, places)?))
}

/// The description that the bytes spell, and the places of its items; and what was read of the text, if edits are to be woven into it.
pub fn map_of<'a>(
    alloc: Global,
    bytes: &'a [u8],
    is_edited: bool,
) -> Result<(Description, Places<'a>, Option<Source>), ReadingFault>
    ensures read { IfOk result (λ x. ReadsMap bytes.now x.0.items x.1) }
    ensures source { IfOk result (λ x. IfSome x.2 (IsSource bytes.now)) }
    ensures refused { IfErr result (λ e. IfRefused (RefusesMap bytes.now) e) }
{
    match as_utf8(bytes) {
        Err(fault) => Err(fault),
        Ok(text) => match parse_worded(alloc, text) {
            Ok((description, places, words)) => {
                match source_if(alloc, text, &words, &description, &places, is_edited) {
                    Ok(source) => Ok((description, places, source)),
                    Err(_) => Err(ReadingFault::Memory),
                }
            }
            Err(fault) => Err(reading_fault(fault)),
        },
    }
}

/// The items of the bytes, which are exactly one statement.
pub fn items_of(alloc: Global, bytes: &[u8]) -> Result<Vec<Item>, ReadingFault>
    ensures read { IfOk result (λ items. ReadsItems bytes.now items.items) }
    ensures refused { IfErr result (λ e. IfRefused (RefusesItems bytes.now) e) }
{
    match as_utf8(bytes) {
        Err(fault) => Err(fault),
        Ok(text) => match parse_item(alloc, text) {
            Ok(items) => Ok(items),
            Err(fault) => Err(reading_fault(fault)),
        },
    }
}
