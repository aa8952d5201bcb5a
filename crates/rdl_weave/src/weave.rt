//! The woven text.
ghost use Rattle.std.specs.Prelude.{◌≡◌, ◌<◌, ◌+◌, ◌⊎◌, IsTrue, string_bytes, length, Err, IfOk, IfSome, None, MatchResult};
ghost use Rattle.rdl_parse.specs.Faults.{max_text};
ghost use Rattle.rdl_origin.specs.View.{list_of};
ghost use Rattle.rdl_weave.specs.InTurn.{KeepsOrder};
ghost use Rattle.rdl_weave.specs.Keeping.{Keeps};
ghost use Rattle.rdl_weave.specs.Sound.{IsSound};
ghost use Rattle.rdl_weave.specs.Sources.{IsSource};
ghost use Rattle.rdl_weave.specs.Spelled.{SpellsAs};
ghost use Rattle.rdl_weave.specs.Untouched.{sizes_of};
ghost use Rattle.rdl_weave.specs.Weaving.{IsWoven, MayBeTooLong};
ghost use Rattle.rdl_weave.specs.declared.fault.WeaveFault.TheVariants.{Memory, NotWoven, TooLong};

use crate::coarse::{Ground, Was, coarse};
use crate::fault::WeaveFault;
use crate::honest::{Check, keeps};
use crate::member::Past;
use crate::plan::{LEVELS, Loom, weave_body};
use crate::render::Room;
use crate::source::Source;
use crate::spelled::is_canonical;
use crate::thin::{is_spelled, long_gaps};
use crate::turn::keeps_order;
use crate::unit::style_of;
use crate::untouched::push_sizes;
use crate::woven::Woven;
use rdl_origin::origin::Origins;
use rdl_parse::parse::MAX_LEN;
use rdl_source::span::Span;
use rdl_source::statement::Statements;
use rdl_tree::description::Description;
use std::alloc::{AllocError, Global};

/// The statements of a text with its map.
#[derive(Drop)]
struct Laid {
    map: Description,
    statements: Statements,
}

fn text_of(
    alloc: Global,
    source: &str,
    laid: &Laid,
    origins: &Origins,
    last: &Description,
    sizes: &[u64],
    is_coarse: bool,
) -> Result<Woven, AllocError> {
    let bytes = source.as_bytes();
    let loom = Loom {
        source: bytes,
        style: style_of(bytes, &laid.statements),
        sizes,
        is_coarse,
    };
    let past = Past {
        body: &laid.map.items,
        origins,
        statements: &laid.statements,
    };
    weave_body(alloc, loom, Room::root(bytes), past, &last.items, 0, LEVELS)
}

/// Whether the text spells the map with the canonical text, and keeps what no edit touched of the source, and its order. It is read
/// without these gaps.
fn holds(
    alloc: Global,
    canonical: &str,
    statements: &Statements,
    origins: &Origins,
    check: Check<'_>,
    text: &str,
    gaps: &[Span],
) -> Result<bool, AllocError>
    requires { check.text.now ≡ text.now }
    ensures { IfOk result (λ answer. IsTrue answer → SpellsAs canonical.now text.now
        × Keeps check.entry.source.now check.entry.sizes.now text.now statements.now (list_of origins.now)
        × KeepsOrder check.entry.source.now check.entry.sizes.now text.now statements.now (list_of origins.now)) }
{
    let origins = origins.as_slice();
    if !keeps(check, statements, origins) || !keeps_order(check, statements, origins) {
        return Ok(false);
    }
    is_spelled(alloc, canonical, text, gaps)
}

/// What is answered of a text that is too long: none, if the source and the canonical text are short, so that another may be found.
fn too_long(source: &str, canonical: &str) -> Result<Option<String>, WeaveFault>
    ensures none { IfOk result (λ found. found ≡ None) }
    ensures long { result ≡ Err TooLong → max_text < length source.now + length canonical.now }
    ensures fault { result ≡ Err NotWoven → ⊥ }
{
    if source.len() > MAX_LEN || canonical.len() > MAX_LEN - source.len() {
        return Err(WeaveFault::TooLong);
    }
    Ok(None)
}

/// The text that is woven, if it is one that the map asks for.
fn woven(
    alloc: Global,
    source: &str,
    laid: &Laid,
    origins: &Origins,
    last: &Description,
    sizes: &[u64],
    canonical: &str,
    is_coarse: bool,
) -> Result<Option<String>, WeaveFault>
    requires { sizes.now ≡ sizes_of last.now.items }
    ensures found { IfOk result (λ found. IfSome found (λ text. SpellsAs canonical.now (string_bytes text)
        × Keeps source.now sizes.now (string_bytes text) laid.now.statements (list_of origins.now)
        × KeepsOrder source.now sizes.now (string_bytes text) laid.now.statements (list_of origins.now))) }
    ensures long { result ≡ Err TooLong → max_text < length source.now + length canonical.now }
    ensures fault { result ≡ Err NotWoven → ⊥ }
{
    let mut woven = text_of(alloc, source, laid, origins, last, sizes, is_coarse)?;
    woven.sort();
    let Woven { text, kept, gaps } = woven;
    let Ok(text) = String::from_utf8(text) else {
        return Ok(None);
    };
    if text.len() > MAX_LEN {
        return too_long(source, canonical);
    }
    let check = Check {
        source: source.as_bytes(),
        sizes,
        text: text.as_bytes(),
        kept: kept.as_slice(),
    };
    let gaps = long_gaps(alloc, check.text, gaps.as_slice())?;
    let statements = &laid.statements;
    if !holds(
        alloc,
        canonical,
        statements,
        origins,
        check,
        text.as_str(),
        gaps.as_slice(),
    )? {
        return Ok(None);
    }
    Ok(Some(text))
}

/// The source text of a map with only the edits woven in that made of it the last map, whose canonical text is this.
///
/// The origins say of each item of the source's map which item of the last map it is. What was read of the source isn't read again.
#[tactic(auto, using(crate::proofs::Sounding::laid_fits))]
pub fn weave(
    alloc: Global,
    source: &str,
    known: Option<Source>,
    origins: &Origins,
    last: &Description,
    canonical: &str,
) -> Result<String, WeaveFault>
    requires known { IfSome known (IsSource source.now) }
    // What is answered spells a map with this canonical text.
    ensures reads { IfOk result (λ text. SpellsAs canonical.now (string_bytes text)) }
    // Where the source does so already, it is the answer, unless memory runs out.
    ensures same { SpellsAs canonical.now source.now → MatchResult result (λ text. string_bytes text ≡ source.now) (λ fault. fault ≡ Memory) }
    // Else each statement that no edit touched stands in the answer as it stood, with its comments, and so does what floats; and those that
    // weren't moved stand in their order.
    ensures woven { IfOk result (λ text. (string_bytes text ≡ source.now) ⊎ IsWoven source.now origins.now last.now.items (string_bytes text)) }
    // A text is too long only where source and canonical text together are longer than a text may be, or the last text that is tried is.
    ensures long { result ≡ Err TooLong → MayBeTooLong source.now origins.now last.now.items canonical.now }
    // There is always an answer where each statement that no edit touched spells by itself the items of the last map that are its own, what
    // floats holds no word, and the last map can be written, but for want of memory and a text that would be too long.
    ensures refused { result ≡ Err NotWoven → IsSound source.now origins.now last.now.items canonical.now → ⊥ }
{
    let Some(read) = Source::known_or_read(alloc, source, known)? else {
        return Err(WeaveFault::NotWoven);
    };
    if is_canonical(alloc, canonical, &read.map)? {
        return Ok(String::from_str(alloc, source)?);
    }
    let Source { map, statements } = read;
    let Some(statements) = statements else {
        return Err(WeaveFault::NotWoven);
    };
    let laid = Laid { map, statements };
    let mut sizes = Vec::new(alloc);
    push_sizes(&mut sizes, &last.items)?;
    let sizes = sizes.as_slice();
    if let Some(text) = woven(alloc, source, &laid, origins, last, sizes, canonical, false)? {
        return Ok(text);
    }
    if let Some(text) = woven(alloc, source, &laid, origins, last, sizes, canonical, true)? {
        return Ok(text);
    }
    let ground = Ground {
        source: source.as_bytes(),
        sizes,
    };
    let was = Was {
        statements: &laid.statements,
        origins,
    };
    match coarse(alloc, canonical, ground, was, &last.items)? {
        Some(text) => Ok(text),
        None => Err(WeaveFault::NotWoven),
    }
}
