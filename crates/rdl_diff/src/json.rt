//! Entries as objects in JSON.
ghost use Rattle.std.specs.Prelude.{◌≡◌, ◌++◌, ◌∷◌, [], codes, drop, flat_map, map, option_copied, string_bytes, IfOk, OnOk};
ghost use Rattle.rdl_list.specs.ListText.{path_text, span_text};
ghost use Rattle.rdl_write.specs.Texts.{hexadecimal, value_text};
ghost use Rattle.serde_json.specs.Data.{null, string};
ghost use Rattle.serde_json.specs.View.{view};
ghost use Rattle.serde_json.specs.Written.{compact_text};
ghost use Rattle.rdl_diff.specs.DiffText.{changed, come, gone, renamed};
ghost use Rattle.rdl_diff.specs.Json.{alike_data, change_data, changed_data, come_data, entry_data, gone_data, is_null, json_text, line_data, object_of, or_null, sizes_data, told_data, value_data, whole};
ghost use Rattle.rdl_diff.specs.Seen.{change_seen, changes_seen, entry_seen, line_seen, path_seen, seen};
ghost use Rattle.rdl_diff.specs.Told.{told};

use crate::change::{Change, are_breaking};
use crate::entry::Entry;
use crate::line::Line;
use crate::names::push_names;
use crate::told::{Told, push_sizes, told_by};
use crate::what::What;
use rdl_elab::layout::Span;
use rdl_elab::row::{Row, RowPath};
use rdl_list::{push_path, push_span};
use rdl_text::token::Number;
use rdl_tree::property::Property;
use rdl_tree::value::Value;
use rdl_write::{kind_text, push_hexadecimal, push_value};
use serde_json::{Value as Json, json};
use std::alloc::{AllocError, Global};

fn text_json(alloc: Global, text: &str) -> Result<Json, AllocError>
    ensures { IfOk result (λ j. view j ≡ string text.now) }
{
    Ok(Json::String(String::from_str(alloc, text)?))
}

/// A number as its text, since a reader may keep 53 bits of one.
fn number_json(alloc: Global, number: Number) -> Result<Json, AllocError>
    ensures { IfOk result (λ j. view j ≡ string (hexadecimal number)) }
{
    let mut text = String::new(alloc);
    push_hexadecimal(&mut text, number)?;
    Ok(Json::String(text))
}

fn number_or_null(alloc: Global, number: Option<Number>) -> Result<Json, AllocError>
    ensures { IfOk result (λ j. view j ≡ or_null (λ n. string (hexadecimal n)) number) }
{
    match number {
        Some(number) => number_json(alloc, number),
        None => Ok(Json::Null),
    }
}

fn sizes_json(alloc: Global, sizes: &[Number]) -> Result<Json, AllocError>
    ensures { IfOk result (λ j. view j ≡ sizes_data sizes.now) }
{
    match sizes {
        [] => Ok(Json::Null),
        [_, ..] => {
            let mut text = String::new(alloc);
            push_sizes(&mut text, sizes)?;
            Ok(Json::String(text))
        }
    }
}

fn bits_json(alloc: Global, bits: Option<Span>) -> Result<Json, AllocError>
    ensures { IfOk result (λ j. view j ≡ or_null (λ b. string (span_text b)) bits) }
{
    match bits {
        Some(bits) => {
            let mut text = String::new(alloc);
            push_span(&mut text, &bits)?;
            Ok(Json::String(text))
        }
        None => Ok(Json::Null),
    }
}

/// A word as its text.
fn word_json(alloc: Global, value: &Value) -> Result<Json, AllocError>
    ensures { IfOk result (λ j. view j ≡ string (value_text value.now)) }
{
    let mut text = String::new(alloc);
    push_value(&mut text, value)?;
    Ok(Json::String(text))
}

fn value_json(alloc: Global, value: &Value) -> Result<Json, AllocError>
    ensures { IfOk result (λ j. view j ≡ value_data value.now) }
{
    match value {
        Value::Number(number) => number_json(alloc, *number),
        Value::Text(text) => text_json(alloc, text.as_str()),
        Value::Bool(is_set) => Ok(Json::Bool(*is_set)),
        Value::Word(_) => word_json(alloc, value),
    }
}

fn value_or_null(alloc: Global, value: Option<&Value>) -> Result<Json, AllocError>
    ensures { IfOk result (λ j. view j ≡ or_null value_data (option_copied value.entry)) }
{
    match value {
        Some(value) => value_json(alloc, value),
        None => Ok(Json::Null),
    }
}

/// What a row tells of a part.
fn told_json(alloc: Global, part: &Told) -> Result<Json, AllocError>
    ensures { IfOk result (λ j. view j ≡ told_data (seen part.now)) }
{
    match part {
        Told::Kind(kind) => text_json(alloc, kind_text(*kind)),
        Told::Number(number) => number_or_null(alloc, *number),
        Told::Sizes(sizes) => sizes_json(alloc, sizes),
        Told::Bits(bits) => bits_json(alloc, *bits),
        Told::Value(value) => value_or_null(alloc, *value),
    }
}

/// What one part was and is.
#[tactic(auto, unfolding(crate::specs::Json::change_data))]
fn change_json(alloc: Global, what: &str, old: Json, new: Json) -> Result<Json, AllocError>
    ensures { IfOk result (λ j. view j ≡ change_data what.now (view old) (view new)) }
{
    json!(in alloc; {"new": new, "old": old, "what": what})
}

fn changed_json(alloc: Global, change: &Change<'_>) -> Result<Json, AllocError>
    ensures { IfOk result (λ j. view j ≡ changed_data (change_seen change.now)) }
{
    let old = told_json(alloc, &change.old)?;
    let new = told_json(alloc, &change.new)?;
    change_json(alloc, change.what.text(), old, new)
}

fn all_changed(alloc: Global, changes: &[Change<'_>]) -> Result<Vec<Json>, AllocError>
    ensures { IfOk result (λ js. map view js.items ≡ map (λ c. changed_data (change_seen c)) changes.now) }
{
    let mut all = Vec::with_capacity(alloc, changes.len())?;
    'changes: for change in changes {
        all.push(changed_json(alloc, change)?)?;
    }
    Ok(all)
}

/// All that is told of a row that one map alone has.
const WHOLE: [What; 13] = [
    What::Kind,
    What::Base,
    What::Offset,
    What::Size,
    What::Dims,
    What::Stride,
    What::Bits,
    What::Value(Property::Reset),
    What::Value(Property::Sw),
    What::Value(Property::Hw),
    What::Value(Property::Onread),
    What::Value(Property::Onwrite),
    What::Value(Property::Name),
];

fn is_null(value: &Json) -> bool
    ensures { result ≡ is_null (view value.now) }
{
    matches!(value, Json::Null)
}

/// Adds what a part was, if it was anything.
fn push_gone_part(
    alloc: Global,
    list: &mut Vec<Json>,
    what: What,
    was: Json,
) -> Result<(), AllocError>
    ensures { OnOk result (map view list.new.items ≡ map view list.old.items ++ gone_data what (view was)) }
{
    if is_null(&was) {
        return Ok(());
    }
    list.push(change_json(alloc, what.text(), was, Json::Null)?)?;
    Ok(())
}

/// Adds what a part is, if it is anything.
fn push_come_part(
    alloc: Global,
    list: &mut Vec<Json>,
    what: What,
    is: Json,
) -> Result<(), AllocError>
    ensures { OnOk result (map view list.new.items ≡ map view list.old.items ++ come_data what (view is)) }
{
    if is_null(&is) {
        return Ok(());
    }
    list.push(change_json(alloc, what.text(), Json::Null, is)?)?;
    Ok(())
}

/// What these parts of a row were.
fn gone_parts(alloc: Global, row: &Row, parts: &[What]) -> Result<Vec<Json>, AllocError>
    ensures { IfOk result (λ js. map view js.items ≡ flat_map (λ w. gone_data w (told_data (told w row.now))) parts.now) }
{
    let mut list = Vec::new(alloc);
    'parts: for part in parts {
        let was = told_json(alloc, &told_by(row, *part))?;
        push_gone_part(alloc, &mut list, *part, was)?;
    }
    Ok(list)
}

/// What these parts of a row are.
fn come_parts(alloc: Global, row: &Row, parts: &[What]) -> Result<Vec<Json>, AllocError>
    ensures { IfOk result (λ js. map view js.items ≡ flat_map (λ w. come_data w (told_data (told w row.now))) parts.now) }
{
    let mut list = Vec::new(alloc);
    'parts: for part in parts {
        let is = told_json(alloc, &told_by(row, *part))?;
        push_come_part(alloc, &mut list, *part, is)?;
    }
    Ok(list)
}

/// A line.
#[tactic(auto, unfolding(crate::specs::Json::object_of))]
fn object_of(
    alloc: Global,
    is_breaking: bool,
    line: &str,
    path: &str,
    changes: Vec<Json>,
) -> Result<Json, AllocError>
    ensures { IfOk result (λ j. view j ≡ object_of is_breaking line.now path.now (map view changes.items)) }
{
    json!(in alloc; {"breaks": is_breaking, "changes": changes, "line": line, "path": path})
}

/// A path.
fn path_text(alloc: Global, names: &RowPath) -> Result<String, AllocError>
    ensures { IfOk result (λ text. string_bytes text ≡ path_text (drop 1 names.now)) }
{
    let mut text = String::new(alloc);
    push_path(&mut text, names, 1)?;
    Ok(text)
}

/// The change of a row that has another name.
fn renaming(alloc: Global, old: &str, new: &str) -> Result<Vec<Json>, AllocError>
    ensures { IfOk result (λ js. map view js.items ≡ change_data (codes "path") (string old.now) (string new.now) ∷ []) }
{
    let was = text_json(alloc, old)?;
    let is = text_json(alloc, new)?;
    let mut list = Vec::with_capacity(alloc, 1)?;
    list.push(change_json(alloc, "path", was, is)?)?;
    Ok(list)
}

fn renamed_json(alloc: Global, old: &Row, new: &Row) -> Result<Json, AllocError>
    ensures { IfOk result (λ j. view j ≡ line_data (renamed old.now new.now)) }
{
    let was = path_text(alloc, &old.names)?;
    let is = path_text(alloc, &new.names)?;
    let changes = renaming(alloc, was.as_str(), is.as_str())?;
    object_of(alloc, true, "renamed", is.as_str(), changes)
}

#[tactic(auto, unfolding(crate::specs::Json::whole))]
fn gone_json(alloc: Global, row: &Row) -> Result<Json, AllocError>
    ensures { IfOk result (λ j. view j ≡ line_data (gone row.now)) }
{
    let path = path_text(alloc, &row.names)?;
    let changes = gone_parts(alloc, row, &WHOLE)?;
    object_of(alloc, true, "gone", path.as_str(), changes)
}

#[tactic(auto, unfolding(crate::specs::Json::whole))]
fn come_json(alloc: Global, row: &Row) -> Result<Json, AllocError>
    ensures { IfOk result (λ j. view j ≡ line_data (come row.now)) }
{
    let path = path_text(alloc, &row.names)?;
    let changes = come_parts(alloc, row, &WHOLE)?;
    object_of(alloc, false, "new", path.as_str(), changes)
}

#[tactic(auto, using(crate::proofs::JsonLines::changed_all))]
fn differs_json(alloc: Global, names: &RowPath, changes: &[Change<'_>]) -> Result<Json, AllocError>
    ensures { IfOk result (λ j. view j ≡ line_data (changed (drop 1 names.now) (changes_seen changes.now))) }
{
    let path = path_text(alloc, names)?;
    let all = all_changed(alloc, changes)?;
    let is_breaking = are_breaking(changes);
    object_of(alloc, is_breaking, "differs", path.as_str(), all)
}

fn line_json(alloc: Global, line: &Line<'_>) -> Result<Json, AllocError>
    ensures { IfOk result (λ j. view j ≡ line_data (line_seen line.now)) }
{
    match line {
        Line::Renamed(rename) => renamed_json(alloc, rename.old, rename.new),
        Line::Gone(row) => gone_json(alloc, row),
        Line::Come(row) => come_json(alloc, row),
        Line::Changed(names, changes) => differs_json(alloc, names, changes.as_slice()),
    }
}

/// Paths as texts.
fn paths_json(alloc: Global, paths: &[Vec<&str>]) -> Result<Vec<Json>, AllocError>
    ensures { IfOk result (λ js. map view js.items ≡ map (λ p. string (path_text (path_seen p))) paths.now) }
{
    let mut list = Vec::with_capacity(alloc, paths.len())?;
    'paths: for path in paths {
        let mut text = String::new(alloc);
        push_names(&mut text, path.as_slice())?;
        list.push(Json::String(text))?;
    }
    Ok(list)
}

/// Things of which the same is told.
#[tactic(auto, unfolding(crate::specs::Json::alike_data))]
fn alike_of(alloc: Global, paths: Vec<Json>) -> Result<Json, AllocError>
    ensures { IfOk result (λ j. view j ≡ alike_data (map view paths.items)) }
{
    json!(in alloc; {"line": "alike", "paths": paths})
}

#[tactic(auto, using(crate::proofs::JsonLines::alike_all))]
fn entry_json(alloc: Global, entry: &Entry<'_>) -> Result<Json, AllocError>
    ensures { IfOk result (λ j. view j ≡ entry_data (entry_seen entry.now)) }
{
    match entry {
        Entry::Alike(paths) => alike_of(alloc, paths_json(alloc, paths.as_slice())?),
        Entry::Line(line) => line_json(alloc, line),
    }
}

/// The text of an entry's object.
fn object_text(alloc: Global, entry: &Entry<'_>) -> Result<String, AllocError>
    ensures { IfOk result (λ text. string_bytes text ≡ compact_text (entry_data (entry_seen entry.now))) }
{
    entry_json(alloc, entry)?.to_string(alloc)
}

/// Appends an entry as an object.
pub(crate) fn push_json(
    alloc: Global,
    text: &mut String,
    entry: &Entry<'_>,
) -> Result<(), AllocError>
    ensures { OnOk result (string_bytes text.new ≡ string_bytes text.old ++ json_text (entry_seen entry.now)) }
{
    let object = object_text(alloc, entry)?;
    text.push_str(object.as_str())?;
    text.push_str("\n")
}
