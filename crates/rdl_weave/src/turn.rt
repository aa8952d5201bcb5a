//! Whether what no edit touched or moved stands in a woven text in the order of the source.
ghost use Rattle.std.specs.Prelude.{◌≡◌, ◌++◌, IfSome, IsTrue, List, drop, not};
ghost use Rattle.std.specs.List.{All, list_all};
ghost use Rattle.rdl_origin.specs.View.{list_of};
ghost use Rattle.rdl_source.specs.View.{bare_of};
ghost use Rattle.rdl_source.specs.declared.span.Span.{Span};
ghost use Rattle.rdl_weave.specs.InTurn as spec;
ghost use Rattle.rdl_weave.specs.InTurn.{InTurn, InTurnInside, InTurnOf, KeepsOrder, still, still_one};
ghost use Rattle.rdl_weave.specs.Keeping.{holds_items};

use crate::honest::{Check, holds_items, split};
use crate::stands::end_of;
use crate::untouched::is_untouched;
use rdl_origin::origin::Origin;
use rdl_source::span::Span;
use rdl_source::statement::{Statement, Statements};

/// Whether no edit moved one of these items.
fn are_unmoved(own: &[Origin]) -> bool
    ensures { result ≡ list_all (λ o. not o.is_moved) own.now }
{
    own.iter().all(|origin| !origin.is_moved)
}

/// Whether no edit touched or moved a statement of so many items, which these are.
fn is_still(sizes: &[u64], items: usize, own: &[Origin]) -> bool
    ensures { result ≡ spec.is_still sizes.now items own.now }
{
    is_untouched(sizes, items, own) && are_unmoved(own)
}

/// Where the text goes on behind the statement, from a place on; there, if an edit touched or moved it.
#[tactic(auto, using(crate::proofs::Turning::behind_none, crate::proofs::Turning::behind_some))]
fn place_behind(check: Check<'_>, statement: &Statement, own: &[Origin], at: usize) -> Option<usize>
    ensures { let source = check.entry.source.now in let text = check.entry.text.now in
        IfSome result (λ end. (ss : List Span) → InTurn source ss (drop end text) → InTurn source (still_one check.entry.sizes.now (bare_of statement.now) own.now ++ ss) (drop at text)) }
{
    if !is_still(check.sizes, statement.items, own) {
        return Some(at);
    }
    let core = Span {
        from: statement.lead.from,
        to: statement.trail.to,
    };
    end_of(check.source, core, check.text, check.kept, at)
}

/// Whether those of a body's statements that no edit touched or moved stand in the text one behind another.
#[tactic(auto, using(crate::proofs::Turning::turn_done))]
fn are_in_turn(check: Check<'_>, statements: &Statements, origins: &[Origin]) -> bool
    ensures { IsTrue result → InTurn check.entry.source.now (still check.entry.sizes.now statements.now origins.now) check.entry.text.now }
{
    let mut rest = origins;
    let mut at = 0usize;
    'statements: for statement in statements.as_slice() {
        let (own, others) = split(rest, statement.items);
        let Some(end) = place_behind(check, statement, own, at) else {
            return false;
        };
        at = end;
        rest = others;
    }
    true
}

/// Whether this is so of these statements, and at each depth inside them.
#[cycle(turn)]
pub(crate) fn keeps_order(check: Check<'_>, statements: &Statements, origins: &[Origin]) -> bool
    ensures { IsTrue result → KeepsOrder check.entry.source.now check.entry.sizes.now check.entry.text.now statements.now origins.now }
{
    are_in_turn(check, statements, origins) && keeps_inside(check, statements, origins)
}

#[cycle(turn)]
#[tactic(auto, using(crate::proofs::Turning::inside_done))]
fn keeps_inside(check: Check<'_>, statements: &Statements, origins: &[Origin]) -> bool
    ensures { IsTrue result → InTurnInside check.entry.source.now check.entry.sizes.now check.entry.text.now statements.now origins.now }
{
    let mut rest = origins;
    'statements: for statement in statements.as_slice() {
        let (own, others) = split(rest, statement.items);
        if !keeps_inside_one(check, statement, own) {
            return false;
        }
        rest = others;
    }
    true
}

#[cycle(turn)]
fn keeps_inside_one(check: Check<'_>, statement: &Statement, own: &[Origin]) -> bool
    ensures { IsTrue result → InTurnOf check.entry.source.now check.entry.sizes.now check.entry.text.now statement.now.items statement.now.inside own.now }
{
    match &statement.inside {
        Some(inner) => {
            is_untouched(check.sizes, statement.items, own) || keep_copies(check, &inner.body, own)
        }
        None => true,
    }
}

#[cycle(turn)]
fn keep_copies(check: Check<'_>, body: &Statements, own: &[Origin]) -> bool
    ensures { let source = check.entry.source.now in let sizes = check.entry.sizes.now in let text = check.entry.text.now in
        IsTrue result → All (λ o. IsTrue (holds_items o) → KeepsOrder source sizes text body.now (list_of o.inside)) own.now }
{
    'copies: for origin in own {
        if holds_items(origin) && !keeps_order(check, body, origin.inside.as_slice()) {
            return false;
        }
    }
    true
}
