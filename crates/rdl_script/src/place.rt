//! Places as operands.
ghost use Rattle.std.specs.Prelude.{◌≡◌, IfOk, option_map};
ghost use Rattle.rdl_rewrite.specs.declared.place.Place.{Place};
ghost use Rattle.rdl_script.specs.Operands as spec;
ghost use Rattle.rdl_script.specs.Seen.{seen_place};

use crate::line::split_word;
use crate::path::segment_in;
use rdl_rewrite::place::Place;
use rdl_tree::path::Segment;
use std::alloc::{AllocError, Global};

/// A place, and what stands behind its words.
pub(crate) type Placed<'a> = (Place, &'a str);

fn before<'a>(sibling: Option<Segment>, rest: &'a str) -> Option<Placed<'a>>
    ensures { option_map seen_place result ≡ option_map (λ s. (Place.Before s, rest.now)) sibling }
{
    Some((Place::Before(sibling?), rest))
}

fn after<'a>(sibling: Option<Segment>, rest: &'a str) -> Option<Placed<'a>>
    ensures { option_map seen_place result ≡ option_map (λ s. (Place.After s, rest.now)) sibling }
{
    Some((Place::After(sibling?), rest))
}

/// The place that a text begins with, and what stands behind it.
#[tactic(auto, unfolding(crate::specs::Operands::place_in))]
pub(crate) fn place_in<'a>(
    alloc: Global,
    operands: &'a str,
) -> Result<Option<Placed<'a>>, AllocError>
    ensures { IfOk result (λ place. option_map seen_place place ≡ spec.place_in operands.now) }
{
    let (word, rest) = split_word(operands);
    let (sibling, behind) = split_word(rest);
    match word {
        "first" => Ok(Some((Place::First, rest))),
        "last" => Ok(Some((Place::Last, rest))),
        "before" => Ok(before(segment_in(alloc, sibling)?, behind)),
        "after" => Ok(after(segment_in(alloc, sibling)?, behind)),
        _ => Ok(None),
    }
}
