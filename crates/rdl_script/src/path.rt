//! Paths and targets as operands.
ghost use Rattle.std.specs.Prelude.{◌≡◌, ◌<◌, IfOk, option_map};
ghost use Rattle.std.specs.Option.{option_copied};
ghost use Rattle.rdl_script.specs.Operands as spec;
ghost use Rattle.rdl_tree.specs.declared.path.Segment.{Segment};
ghost use Rattle.rdl_script.specs.declared.name.NameSort.TheVariants.{Any};

use crate::name::{NameSort, name_in};
use rdl_text::name::Name;
use rdl_tree::path::{Path, Segment};
use rdl_tree::target::Target;
use std::alloc::{AllocError, Global};

/// What stands behind this character, if it is the first.
fn behind(text: &str, first: char) -> Option<&str>
    requires { first < 128 }
    ensures { option_copied result ≡ spec.behind first text.now }
{
    text.strip_prefix(first)
}

fn definition(name: Option<Name>) -> Option<Segment>
    ensures { result ≡ option_map Segment.Def name }
{
    Some(Segment::Def(name?))
}

fn instance(name: Option<Name>) -> Option<Segment>
    ensures { result ≡ option_map Segment.Inst name }
{
    Some(Segment::Inst(name?))
}

/// The segment that a text is: `$NAME` or `NAME`.
#[tactic(auto, unfolding(crate::specs::Operands::segment_in))]
pub(crate) fn segment_in(alloc: Global, text: &str) -> Result<Option<Segment>, AllocError>
    ensures { IfOk result (λ segment. segment ≡ spec.segment_in text.now) }
{
    match behind(text, '$') {
        Some(name) => Ok(definition(name_in(alloc, NameSort::Free, name)?)),
        None => Ok(instance(name_in(alloc, NameSort::Free, text)?)),
    }
}

/// The segments that the parts between the `/` of a text are.
fn all_segments(alloc: Global, text: &str) -> Result<Option<Path>, AllocError>
    ensures { IfOk result (λ path. path ≡ spec.all_of spec.segment_in (spec.parts 47 text.now)) }
{
    let mut path = Path::new(alloc);
    let mut rest = text;
    'parts: while let Some((part, others)) = rest.split_once('/') {
        match segment_in(alloc, part)? {
            Some(segment) => path.push(segment)?,
            None => return Ok(None),
        }
        rest = others;
    }
    match segment_in(alloc, rest)? {
        Some(segment) => path.push(segment)?,
        None => return Ok(None),
    }
    Ok(Some(path))
}

fn segments_in(alloc: Global, text: &str) -> Result<Option<Path>, AllocError>
    ensures { IfOk result (λ path. path ≡ spec.segments_in text.now) }
{
    if text.is_empty() {
        Ok(Some(Path::new(alloc)))
    } else {
        all_segments(alloc, text)
    }
}

/// The path that a text is.
#[tactic(auto, unfolding(crate::specs::Operands::path_in))]
pub(crate) fn path_in(alloc: Global, text: &str) -> Result<Option<Path>, AllocError>
    ensures { IfOk result (λ path. path ≡ spec.path_in text.now) }
{
    match behind(text, '/') {
        Some(segments) => segments_in(alloc, segments),
        None => Ok(None),
    }
}

/// The names that the parts between the `.` of a text are.
fn all_names(alloc: Global, text: &str) -> Result<Option<Vec<Name>>, AllocError>
    ensures { IfOk result (λ names. option_map (λ v. v.items) names ≡ spec.all_of (spec.name_in Any) (spec.parts 46 text.now)) }
{
    let mut names = Vec::new(alloc);
    let mut rest = text;
    'parts: while let Some((part, others)) = rest.split_once('.') {
        match name_in(alloc, NameSort::Any, part)? {
            Some(name) => names.push(name)?,
            None => return Ok(None),
        }
        rest = others;
    }
    match name_in(alloc, NameSort::Any, rest)? {
        Some(name) => names.push(name)?,
        None => return Ok(None),
    }
    Ok(Some(names))
}

/// The target that a text is.
#[tactic(auto, unfolding(crate::specs::Operands::target_in))]
pub(crate) fn target_in(alloc: Global, text: &str) -> Result<Option<Target>, AllocError>
    ensures { IfOk result (λ target. target ≡ spec.target_in text.now) }
{
    match all_names(alloc, text)? {
        Some(names) => Ok(Some(Target::from_vec(names))),
        None => Ok(None),
    }
}
