//! Whether all that has to stand in a text is among the spans that were put in.
ghost use Rattle.std.specs.Prelude.{◌≡◌, ◌||◌, not};
ghost use Rattle.std.specs.List.{list_all};
ghost use Rattle.rdl_origin.specs.View.{list_of};
ghost use Rattle.rdl_source.specs.View.{bare_of};
ghost use Rattle.rdl_weave.specs.Coarse as spec;
ghost use Rattle.rdl_weave.specs.Keeping as keeping;

use crate::honest::{holds_items, split};
use crate::untouched::is_untouched;
use rdl_origin::origin::Origin;
use rdl_source::span::Span;
use rdl_source::statement::{Inner, Statement, Statements};

/// Whether the span is one of these.
fn has(spans: &[Span], span: Span) -> bool
    ensures { result ≡ spec.has spans.now span }
{
    'spans: for other in spans {
        if other.from == span.from && other.to == span.to {
            return true;
        }
    }
    false
}

/// Whether these spans are all that has to stand of these statements, whose items are these.
#[cycle(covers)]
pub(crate) fn covers(
    spans: &[Span],
    sizes: &[u64],
    statements: &Statements,
    origins: &[Origin],
) -> bool
    ensures { result ≡ spec.covers spans.now sizes.now statements.now origins.now }
{
    let mut rest = origins;
    'statements: for statement in statements.as_slice() {
        let (own, others) = split(rest, statement.items);
        if !covers_statement(spans, sizes, statement, own) {
            return false;
        }
        rest = others;
    }
    has(spans, statements.last())
}

#[cycle(covers)]
fn covers_statement(spans: &[Span], sizes: &[u64], statement: &Statement, own: &[Origin]) -> bool
    ensures { result ≡ spec.covers_one spans.now sizes.now (bare_of statement.now) own.now (spec.covers_inside spans.now sizes.now statement.now.inside own.now) }
{
    if !has(spans, statement.float) {
        return false;
    }
    if is_untouched(sizes, statement.items, own) {
        let core = Span {
            from: statement.lead.from,
            to: statement.trail.to,
        };
        return has(spans, core);
    }
    covers_inside(spans, sizes, statement, own)
}

#[cycle(covers)]
fn covers_inside(spans: &[Span], sizes: &[u64], statement: &Statement, own: &[Origin]) -> bool
    ensures { result ≡ spec.covers_inside spans.now sizes.now statement.now.inside own.now }
{
    match &statement.inside {
        Some(inner) => covers_copies(spans, sizes, &inner.body, own),
        None => true,
    }
}

#[cycle(covers)]
fn covers_copies(spans: &[Span], sizes: &[u64], body: &Statements, own: &[Origin]) -> bool
    ensures { result ≡ list_all (λ o. not (keeping.holds_items o) || spec.covers spans.now sizes.now body.now (list_of o.inside)) own.now }
{
    'copies: for origin in own {
        if holds_items(origin) && !covers(spans, sizes, body, origin.inside.as_slice()) {
            return false;
        }
    }
    true
}
