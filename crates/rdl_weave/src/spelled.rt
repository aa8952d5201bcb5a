//! Whether a text spells a map with a certain canonical text.
ghost use Rattle.std.specs.Prelude.{◌≡◌, ◌↔◌, ℕ, List, IsTrue, IfOk, MatchOption, bytes_eq};
ghost use Rattle.rdl_parse.specs.Parsing.{HasWords};
ghost use Rattle.rdl_parse.specs.Places.{Located};
ghost use Rattle.rdl_weave.specs.Spelled.{IsRead, SpellsAs, SpellsNone};

use rdl_parse::fault::{ParseFault, ParseFaultKind};
use rdl_parse::parse::parse_worded;
use rdl_parse::places::Places;
use rdl_text::fault::WordFault;
use rdl_text::list::Tokens;
use rdl_tree::description::Description;
use rdl_write::rdl;
use std::alloc::{AllocError, Global};

/// A text that spells a map: its words, the map and the places of its items.
#[derive(Drop)]
pub(crate) struct Read<'a> {
    pub(crate) words: Tokens<'a>,
    pub(crate) map: Description,
    pub(crate) places: Places<'a>,
}

/// The map that the text spells, if it spells one.
pub(crate) fn read_map<'a>(alloc: Global, text: &'a str) -> Result<Option<Read<'a>>, AllocError>
    ensures { IfOk result (λ found. MatchOption found (SpellsNone text.now) (λ read. HasWords text.now read.words × IsRead text.now read.map.items read.places)) }
{
    match parse_worded(alloc, text) {
        Ok((map, places, words)) => Ok(Some(Read { words, map, places })),
        Err(fault) => match fault.kind {
            ParseFaultKind::Words(WordFault::Memory) => Err(AllocError),
            _ => Ok(None),
        },
    }
}

fn has_bytes(bytes: &[u8], text: &str) -> bool
    ensures { result ≡ bytes_eq bytes.now text.now }
{
    bytes == text.as_bytes()
}

/// Whether this is the canonical text of the map that was read of a text.
pub(crate) fn is_canonical(
    alloc: Global,
    canonical: &str,
    map: &Description,
) -> Result<bool, AllocError>
    ensures { (text : List ℕ) (places : Located) → IsRead text map.now.items places → IfOk result (λ answer. IsTrue answer ↔ SpellsAs canonical.now text) }
{
    let text = rdl(alloc, map)?;
    Ok(has_bytes(text.as_bytes(), canonical))
}

/// Whether the text spells a map whose canonical text is this.
pub(crate) fn spells_as(alloc: Global, canonical: &str, text: &str) -> Result<bool, AllocError>
    ensures { IfOk result (λ answer. IsTrue answer ↔ SpellsAs canonical.now text.now) }
{
    match read_map(alloc, text)? {
        Some(read) => is_canonical(alloc, canonical, &read.map),
        None => Ok(false),
    }
}
