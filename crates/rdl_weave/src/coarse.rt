//! The last text that is tried: each statement that no edit touched as it stood, and the other items of the last map spelled anew.
ghost use Rattle.std.specs.Prelude.{◌≡◌, ◌<◌, ◌++◌, [], length, Err, IfOk, IfSome, OnOk, MatchOption, Some, None, string_bytes, option_copied, slice_range};
ghost use Rattle.rdl_origin.specs.View.{list_of};
ghost use Rattle.rdl_parse.specs.Faults.{max_text};
ghost use Rattle.rdl_source.specs.Beside as beside;
ghost use Rattle.rdl_source.specs.View as source_view;
ghost use Rattle.rdl_write.specs.MapText.{deeper};
ghost use Rattle.rdl_weave.specs.Coarse as spec;
ghost use Rattle.rdl_weave.specs.Coarse.{text_of, spans_of};
ghost use Rattle.rdl_weave.specs.Keeping.{Keeps};
ghost use Rattle.rdl_weave.specs.Sound.{Fits};
ghost use Rattle.rdl_weave.specs.Spelled.{SpellsAs};
ghost use Rattle.rdl_weave.specs.Untouched as untouched;
ghost use Rattle.rdl_weave.specs.Untouched.{sizes_of};
ghost use Rattle.rdl_weave.specs.declared.fault.WeaveFault.TheVariants.{NotWoven, TooLong};

use crate::covers::covers;
use crate::fault::WeaveFault;
use crate::honest::split;
use crate::spelled::spells_as;
use crate::untouched::is_untouched;
use rdl_origin::origin::{Origin, Origins};
use rdl_parse::parse::MAX_LEN;
use rdl_source::span::Span;
use rdl_source::statement::{Inner, Statement, Statements};
use rdl_tree::description::{Body, Item, Of};
use rdl_write::{close_definition, close_instance, open_definition, open_instance, push_item};
use std::alloc::{AllocError, Global};
use std::str;

/// A source, and how many items each item of the last map and what is inside it are.
#[derive(Clone, Copy)]
pub(crate) struct Ground<'a> {
    pub(crate) source: &'a [u8],
    pub(crate) sizes: &'a [u64],
}

/// What a body was: its statements, and what became of its items.
#[derive(Clone, Copy)]
pub(crate) struct Was<'a> {
    pub(crate) statements: &'a Statements,
    pub(crate) origins: &'a Origins,
}

/// Whether the item has this number in the last map.
fn is_now(now: Option<u32>, number: u64) -> bool
    ensures { result ≡ untouched.is_now number now }
{
    match now {
        Some(now) => u64::from(now) == number,
        None => false,
    }
}

/// Whether no edit touched the statement of so many items, which these are, and the first of them has this number.
fn is_kept(sizes: &[u64], number: u64, items: usize, own: &[Origin]) -> bool
    ensures { result ≡ spec.is_kept sizes.now number items own.now }
{
    let [first, ..] = own else {
        return false;
    };
    is_now(first.now, number) && is_untouched(sizes, items, own)
}

/// The one of these statements, with these items, for which that is so.
fn kept_at<'s>(
    sizes: &[u64],
    number: u64,
    statements: &'s [Statement],
    origins: &[Origin],
) -> Option<&'s Statement>
    ensures { option_copied result ≡ spec.kept_at sizes.now number statements.now origins.now }
{
    let mut rest = origins;
    'statements: for statement in statements {
        let (own, others) = split(rest, statement.items);
        if is_kept(sizes, number, statement.items, own) {
            return Some(statement);
        }
        rest = others;
    }
    None
}

/// What was inside the one of these items that has this number.
fn inside_now(number: u64, own: &[Origin]) -> Option<&Origins>
    ensures { option_copied result ≡ spec.inside_now number own.now }
{
    'items: for origin in own {
        if is_now(origin.now, number) {
            return Some(&origin.inside);
        }
    }
    None
}

/// What the body was of the item of this number, in a statement with these braces and items.
fn changed_in<'s>(number: u64, inside: &'s Option<Inner>, own: &'s [Origin]) -> Option<Was<'s>>
    ensures { MatchOption result (spec.changed_in number inside.now own.now ≡ None) (λ was. spec.changed_in number inside.now own.now ≡ Some (was.statements.now, was.origins.now)) }
{
    let Some(inner) = inside else {
        return None;
    };
    let Some(origins) = inside_now(number, own) else {
        return None;
    };
    Some(Was {
        statements: &inner.body,
        origins,
    })
}

/// The same of these statements, with these items.
fn changed_at<'s>(
    number: u64,
    statements: &'s [Statement],
    origins: &'s [Origin],
) -> Option<Was<'s>>
    ensures { MatchOption result (spec.changed_at number statements.now origins.now ≡ None) (λ was. spec.changed_at number statements.now origins.now ≡ Some (was.statements.now, was.origins.now)) }
{
    let mut rest = origins;
    'statements: for statement in statements {
        let (own, others) = split(rest, statement.items);
        if let Some(was) = changed_in(number, &statement.inside, own) {
            return Some(was);
        }
        rest = others;
    }
    None
}

/// What the source has in the span, if it has it.
fn part(source: &[u8], span: Span) -> &[u8]
    ensures { result.now ≡ slice_range source.now span.from span.to }
{
    let from = span.from.min(source.len());
    let to = span.to.min(source.len()).max(from);
    &source[from..to]
}

/// Whether a text is empty or its last byte is a line feed.
pub(crate) fn ends_line(bytes: &[u8]) -> bool
    ensures { result ≡ beside.ends_line bytes.now }
{
    bytes.is_empty() || bytes[bytes.len() - 1] == b'\n'
}

/// Puts in a text, ended by a line feed.
fn put_line(text: &mut String, old: &str) -> Result<(), AllocError>
    ensures { OnOk result (string_bytes text.new ≡ string_bytes text.old ++ beside.line old.now) }
{
    text.push_str(old)?;
    if ends_line(old.as_bytes()) {
        return Ok(());
    }
    text.push_str("\n")
}

/// Puts in what the source has in the span, as lines, if it is a text.
#[tactic(auto, using(crate::proofs::Pieces::cut_text, crate::proofs::Pieces::cut_spans, crate::proofs::Pieces::no_text, crate::proofs::Pieces::no_spans))]
fn put_old(
    text: &mut String,
    spans: &mut Vec<Span>,
    source: &[u8],
    span: Span,
) -> Result<(), AllocError>
    ensures text { OnOk result (string_bytes text.new ≡ string_bytes text.old ++ text_of source.now (spec.cut source.now span)) }
    ensures spans { OnOk result (spans.new.items ≡ spans.old.items ++ spans_of (spec.cut source.now span)) }
{
    let Ok(old) = str::from_utf8(part(source, span)) else {
        return Ok(());
    };
    put_line(text, old)?;
    spans.push(span)?;
    Ok(())
}

/// Puts in a statement with its lead and its trail, and what floats before it.
#[tactic(auto, using(crate::proofs::Pieces::text_twice, crate::proofs::Pieces::spans_twice))]
fn put_kept(
    text: &mut String,
    spans: &mut Vec<Span>,
    source: &[u8],
    statement: &Statement,
) -> Result<(), AllocError>
    ensures text { OnOk result (string_bytes text.new ≡ string_bytes text.old ++ text_of source.now (spec.kept_or source.now (Some statement.now) [])) }
    ensures spans { OnOk result (spans.new.items ≡ spans.old.items ++ spans_of (spec.kept_or source.now (Some statement.now) [])) }
{
    let core = Span {
        from: statement.lead.from,
        to: statement.trail.to,
    };
    put_old(text, spans, source, statement.float)?;
    put_old(text, spans, source, core)
}

/// Puts in what floats before the statement with these items, if an edit touched it.
#[tactic(auto, using(crate::proofs::Pieces::none_text, crate::proofs::Pieces::none_spans, crate::proofs::Pieces::some_text, crate::proofs::Pieces::some_spans))]
fn put_touched(
    text: &mut String,
    spans: &mut Vec<Span>,
    ground: Ground<'_>,
    statement: &Statement,
    own: &[Origin],
) -> Result<(), AllocError>
    ensures text { OnOk result (string_bytes text.new ≡ string_bytes text.old ++ text_of ground.entry.source.now (spec.float_of ground.entry.source.now ground.entry.sizes.now statement.now own.now)) }
    ensures spans { OnOk result (spans.new.items ≡ spans.old.items ++ spans_of (spec.float_of ground.entry.source.now ground.entry.sizes.now statement.now own.now)) }
{
    if is_untouched(ground.sizes, statement.items, own) {
        return Ok(());
    }
    put_old(text, spans, ground.source, statement.float)
}

/// Puts in what floats before those of the statements that an edit touched.
fn put_loose(
    text: &mut String,
    spans: &mut Vec<Span>,
    ground: Ground<'_>,
    statements: &[Statement],
    origins: &[Origin],
) -> Result<(), AllocError>
    ensures text { OnOk result (string_bytes text.new ≡ string_bytes text.old ++ text_of ground.entry.source.now (spec.loose ground.entry.source.now ground.entry.sizes.now statements.now origins.now)) }
    ensures spans { OnOk result (spans.new.items ≡ spans.old.items ++ spans_of (spec.loose ground.entry.source.now ground.entry.sizes.now statements.now origins.now)) }
{
    let mut rest = origins;
    'statements: for statement in statements {
        let (own, others) = split(rest, statement.items);
        put_touched(text, spans, ground, statement, own)?;
        rest = others;
    }
    Ok(())
}

/// A text as far as it is put together, and the spans of the source that stand in it.
#[derive(Drop)]
pub(crate) struct Sheet {
    text: String,
    spans: Vec<Span>,
}

/// Puts in an item of the last map that doesn't go out as it stood. Its body was that.
#[cycle(coarse)]
fn put_changed(
    alloc: Global,
    sheet: &mut Sheet,
    ground: Ground<'_>,
    indent: &str,
    was: Was<'_>,
    item: &Item,
    number: u64,
) -> Result<(), AllocError>
    ensures text { let source = ground.entry.source.now in OnOk result (string_bytes sheet.new.text ≡ string_bytes sheet.old.text
        ++ text_of source (spec.anew source ground.entry.sizes.now indent.now (source_view.list_of was.entry.statements.now) (list_of was.entry.origins.now) number item.now)) }
    ensures spans { let source = ground.entry.source.now in OnOk result (sheet.new.spans.items ≡ sheet.old.spans.items
        ++ spans_of (spec.anew source ground.entry.sizes.now indent.now (source_view.list_of was.entry.statements.now) (list_of was.entry.origins.now) number item.now)) }
{
    let statements = was.statements.as_slice();
    let Some(was) = changed_at(number, statements, was.origins.as_slice()) else {
        return push_item(alloc, &mut sheet.text, indent, item);
    };
    match item {
        Item::Define(name, component) => {
            open_definition(&mut sheet.text, indent, name, component.kind)?;
            put_inner(alloc, sheet, ground, indent, was, &component.body, number)?;
            close_definition(&mut sheet.text, indent)
        }
        Item::Instance(shell, Of::Anonymous(component)) => {
            open_instance(&mut sheet.text, indent, shell, component.kind)?;
            put_inner(alloc, sheet, ground, indent, was, &component.body, number)?;
            close_instance(&mut sheet.text, indent, shell)
        }
        _ => push_item(alloc, &mut sheet.text, indent, item),
    }
}

#[cycle(coarse)]
fn put_inner(
    alloc: Global,
    sheet: &mut Sheet,
    ground: Ground<'_>,
    indent: &str,
    was: Was<'_>,
    body: &Body,
    number: u64,
) -> Result<(), AllocError>
    ensures text { let source = ground.entry.source.now in OnOk result (string_bytes sheet.new.text ≡ string_bytes sheet.old.text
        ++ text_of source (spec.body_pieces source ground.entry.sizes.now (deeper indent.now) was.entry.statements.now was.entry.origins.now (spec.next number 1) body.now)) }
    ensures spans { let source = ground.entry.source.now in OnOk result (sheet.new.spans.items ≡ sheet.old.spans.items
        ++ spans_of (spec.body_pieces source ground.entry.sizes.now (deeper indent.now) was.entry.statements.now was.entry.origins.now (spec.next number 1) body.now)) }
{
    let indent = deeper(alloc, indent)?;
    let number = number.saturating_add(1);
    put_body(alloc, sheet, ground, indent.as_str(), was, body, number)
}

fn deeper(alloc: Global, indent: &str) -> Result<String, AllocError>
    ensures { IfOk result (λ text. string_bytes text ≡ deeper indent.now) }
{
    let mut text = String::from_str(alloc, indent)?;
    text.push_str("    ")?;
    Ok(text)
}

/// Puts in an item of the last map, if it isn't one of the so many that stand in the text already. Says how many of those behind it do.
#[cycle(coarse)]
fn put_item(
    alloc: Global,
    sheet: &mut Sheet,
    ground: Ground<'_>,
    indent: &str,
    was: Was<'_>,
    item: &Item,
    number: u64,
    skip: usize,
) -> Result<usize, AllocError>
    ensures text { let source = ground.entry.source.now in OnOk result (string_bytes sheet.new.text ≡ string_bytes sheet.old.text
        ++ text_of source (spec.item_pieces source ground.entry.sizes.now indent.now (source_view.list_of was.entry.statements.now) (list_of was.entry.origins.now) skip number item.now)) }
    ensures spans { let source = ground.entry.source.now in OnOk result (sheet.new.spans.items ≡ sheet.old.spans.items
        ++ spans_of (spec.item_pieces source ground.entry.sizes.now indent.now (source_view.list_of was.entry.statements.now) (list_of was.entry.origins.now) skip number item.now)) }
    ensures skip { IfOk result (λ more. more ≡ spec.item_skip ground.entry.sizes.now (source_view.list_of was.entry.statements.now) (list_of was.entry.origins.now) skip number) }
{
    if skip > 0 {
        return Ok(skip - 1);
    }
    let statements = was.statements.as_slice();
    let origins = was.origins.as_slice();
    let Some(statement) = kept_at(ground.sizes, number, statements, origins) else {
        put_changed(alloc, sheet, ground, indent, was, item, number)?;
        return Ok(0);
    };
    put_kept(&mut sheet.text, &mut sheet.spans, ground.source, statement)?;
    Ok(statement.items.saturating_sub(1))
}

/// Puts in a body of the last map, whose items have their numbers from this one on. It was that.
#[cycle(coarse)]
fn put_body(
    alloc: Global,
    sheet: &mut Sheet,
    ground: Ground<'_>,
    indent: &str,
    was: Was<'_>,
    body: &Body,
    number: u64,
) -> Result<(), AllocError>
    ensures text { let source = ground.entry.source.now in OnOk result (string_bytes sheet.new.text ≡ string_bytes sheet.old.text
        ++ text_of source (spec.body_pieces source ground.entry.sizes.now indent.now was.entry.statements.now was.entry.origins.now number body.now)) }
    ensures spans { let source = ground.entry.source.now in OnOk result (sheet.new.spans.items ≡ sheet.old.spans.items
        ++ spans_of (spec.body_pieces source ground.entry.sizes.now indent.now was.entry.statements.now was.entry.origins.now number body.now)) }
{
    let statements = was.statements.as_slice();
    let origins = was.origins.as_slice();
    put_loose(
        &mut sheet.text,
        &mut sheet.spans,
        ground,
        statements,
        origins,
    )?;
    let mut skip = 0usize;
    let mut at = number;
    'items: for item in body.as_slice() {
        skip = put_item(alloc, sheet, ground, indent, was, item, at, skip)?;
        at = at.saturating_add(item.count());
    }
    let last = was.statements.last();
    put_old(&mut sheet.text, &mut sheet.spans, ground.source, last)
}

/// The text, if all stands in it that has to, and it spells the map with this canonical text.
#[tactic(auto, using(crate::proofs::Spoken::answer_keeps, crate::proofs::Spoken::not_uncovered, crate::proofs::Spoken::not_unspelled))]
pub(crate) fn coarse(
    alloc: Global,
    canonical: &str,
    ground: Ground<'_>,
    was: Was<'_>,
    last: &Body,
) -> Result<Option<String>, WeaveFault>
    requires { ground.sizes.now ≡ sizes_of last.now }
    ensures found { IfOk result (λ found. IfSome found (λ text. SpellsAs canonical.now (string_bytes text)
        × Keeps ground.entry.source.now ground.entry.sizes.now (string_bytes text) was.entry.statements.now (list_of was.entry.origins.now))) }
    ensures text { IfOk result (λ found. IfSome found (λ text. string_bytes text
        ≡ text_of ground.entry.source.now (spec.coarse ground.entry.source.now ground.entry.sizes.now was.entry.statements.now was.entry.origins.now last.now))) }
    ensures sound { Fits ground.entry.source.now was.entry.statements.now was.entry.origins.now last.now canonical.now → IfOk result (λ found. found ≡ None → ⊥) }
    ensures long { result ≡ Err TooLong
        → max_text < length (text_of ground.entry.source.now (spec.coarse ground.entry.source.now ground.entry.sizes.now was.entry.statements.now was.entry.origins.now last.now)) }
    ensures fault { result ≡ Err NotWoven → ⊥ }
{
    let mut sheet = Sheet {
        text: String::new(alloc),
        spans: Vec::new(alloc),
    };
    put_body(alloc, &mut sheet, ground, "", was, last, 0)?;
    let origins = was.origins.as_slice();
    if !covers(
        sheet.spans.as_slice(),
        ground.sizes,
        was.statements,
        origins,
    ) {
        return Ok(None);
    }
    if sheet.text.len() > MAX_LEN {
        return Err(WeaveFault::TooLong);
    }
    if !spells_as(alloc, canonical, sheet.text.as_str())? {
        return Ok(None);
    }
    Ok(Some(sheet.text))
}
