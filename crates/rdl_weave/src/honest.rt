//! Whether a woven text keeps of the source what no edit touched.
ghost use Rattle.std.specs.Prelude.{◌≡◌, IsTrue, take, drop};
ghost use Rattle.std.specs.List.{All};
ghost use Rattle.rdl_origin.specs.View.{list_of};
ghost use Rattle.rdl_source.specs.View.{bare_of};
ghost use Rattle.rdl_weave.specs.Keeping.{Keeps, KeepsOne, KeepsInside};
ghost use Rattle.rdl_weave.specs.Keeping as spec;

use crate::stands::stands;
use crate::untouched::is_untouched;
use crate::woven::Kept;
use rdl_origin::origin::Origin;
use rdl_source::span::Span;
use rdl_source::statement::{Statement, Statements};

/// A source and a text that is woven of it: how many items each item of the last map and what is inside it are, and where bytes of
/// the source stand in the text, as far as it is noted.
#[derive(Clone, Copy)]
pub(crate) struct Check<'a> {
    pub(crate) source: &'a [u8],
    pub(crate) sizes: &'a [u64],
    pub(crate) text: &'a [u8],
    pub(crate) kept: &'a [Kept],
}

/// The first of the items, so many, and those behind them.
pub(crate) fn split(origins: &[Origin], count: usize) -> (&[Origin], &[Origin])
    ensures front { result.0.now ≡ take count origins.now }
    ensures back { result.1.now ≡ drop count origins.now }
{
    if count <= origins.len() {
        (&origins[..count], &origins[count..])
    } else {
        (origins, &[])
    }
}

/// Whether the item is still there, and had items inside.
pub(crate) fn holds_items(origin: &Origin) -> bool
    ensures { result ≡ spec.holds_items origin.entry.now }
{
    origin.now.is_some() && !origin.inside.is_empty()
}

/// Whether the text keeps what no edit touched of these statements, whose items are these.
#[cycle(honest)]
pub(crate) fn keeps(check: Check<'_>, statements: &Statements, origins: &[Origin]) -> bool
    ensures { IsTrue result → Keeps check.entry.source.now check.entry.sizes.now check.entry.text.now statements.now origins.now }
{
    let mut rest = origins;
    'statements: for statement in statements.as_slice() {
        let (own, others) = split(rest, statement.items);
        if !keeps_statement(check, statement, own) {
            return false;
        }
        rest = others;
    }
    stands(check.source, statements.last(), check.text, check.kept)
}

#[cycle(honest)]
fn keeps_statement(check: Check<'_>, statement: &Statement, own: &[Origin]) -> bool
    ensures { let source = check.entry.source.now in let sizes = check.entry.sizes.now in let text = check.entry.text.now in
        IsTrue result → KeepsOne source sizes text (bare_of statement.now) own.now (KeepsInside source sizes text statement.now.inside own.now) }
{
    if !stands(check.source, statement.float, check.text, check.kept) {
        return false;
    }
    if is_untouched(check.sizes, statement.items, own) {
        let core = Span {
            from: statement.lead.from,
            to: statement.trail.to,
        };
        return stands(check.source, core, check.text, check.kept);
    }
    keeps_inside(check, statement, own)
}

#[cycle(honest)]
fn keeps_inside(check: Check<'_>, statement: &Statement, own: &[Origin]) -> bool
    ensures { IsTrue result → KeepsInside check.entry.source.now check.entry.sizes.now check.entry.text.now statement.now.inside own.now }
{
    match &statement.inside {
        Some(inner) => keeps_copies(check, &inner.body, own),
        None => true,
    }
}

#[cycle(honest)]
fn keeps_copies(check: Check<'_>, body: &Statements, own: &[Origin]) -> bool
    ensures { IsTrue result → All (λ o. IsTrue (spec.holds_items o) → Keeps check.entry.source.now check.entry.sizes.now check.entry.text.now body.now (list_of o.inside)) own.now }
{
    'copies: for origin in own {
        if holds_items(origin) && !keeps(check, body, origin.inside.as_slice()) {
            return false;
        }
    }
    true
}
