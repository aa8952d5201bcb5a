//! Which operand of a line isn't of its form, and what would be.

use crate::usage::{Operand, Usage};
use rdl_explain_map::stretch::{Stretch, nth_word, words_from};
use rdl_explain_map::values::{property_named, push_values};
use rdl_parse::class::Class;
use std::alloc::{AllocError, Global};
use std::str;

/// The operand at fault.
#[derive(Drop)]
pub(crate) struct Misfit {
    pub mark: Stretch,
    /// What is wrong.
    pub what: String,
    /// What to write, or nothing.
    pub cure: String,
}

fn text_of(mark: Stretch, line: &[u8]) -> &str {
    str::from_utf8(mark.of(line)).unwrap_or("")
}

fn told(alloc: Global, mark: Stretch, what: &str, cure: &str) -> Result<Misfit, AllocError> {
    Ok(Misfit {
        mark,
        what: String::from_str(alloc, what)?,
        cure: String::from_str(alloc, cure)?,
    })
}

/// What isn't of its form in the operands of this command.
pub(crate) fn misfit_in(alloc: Global, line: &[u8], usage: Usage) -> Result<Misfit, AllocError> {
    if usage.operand == Operand::Nothing {
        return left_over(alloc, line, 1, usage.name);
    }
    match path_misfit(alloc, line)? {
        Some(misfit) => Ok(misfit),
        None => behind_path(alloc, line, usage),
    }
}

fn behind_path(alloc: Global, line: &[u8], usage: Usage) -> Result<Misfit, AllocError> {
    match usage.operand {
        Operand::Nothing | Operand::Path => left_over(alloc, line, 2, usage.name),
        Operand::PlaceAndText => place_misfit(alloc, line, true),
        Operand::Place => place_misfit(alloc, line, false),
        Operand::NewName => name_misfit(alloc, line),
        Operand::Sizes => sizes_misfit(alloc, line),
        Operand::Bits => bits_misfit(alloc, line),
        Operand::Number => number_misfit(alloc, line),
        Operand::PropertyAndValue => property_misfit(alloc, line, 2, true),
        Operand::Property => property_misfit(alloc, line, 2, false),
        Operand::TargetPropertyAndValue => target_misfit(alloc, line, true),
        Operand::TargetAndProperty => target_misfit(alloc, line, false),
    }
}

/// Words behind the last operand.
fn left_over(alloc: Global, line: &[u8], number: usize, name: &str) -> Result<Misfit, AllocError> {
    let mark = words_from(line, number);
    let mut what = String::new(alloc);
    write!(what, "nothing more stands after `{name}`")?;
    if number > 1 {
        what.clear();
        what.push_str("nothing more stands after the path")?;
    }
    let cure = match name {
        "undo" | "redo" => "each step is a line of its own",
        "list" => "it lists the whole map",
        _ => "",
    };
    told(alloc, mark, what.as_str(), cure)
}

/// What isn't of its form in the path, if anything.
fn path_misfit(alloc: Global, line: &[u8]) -> Result<Option<Misfit>, AllocError> {
    let mark = nth_word(line, 1);
    let path = text_of(mark, line);
    if path.is_empty() {
        return Ok(Some(told(alloc, mark, "the path is missing", "")?));
    }
    let Some(segments) = path.strip_prefix("/") else {
        return Ok(Some(no_slash(alloc, mark, path)?));
    };
    if segments.is_empty() {
        return Ok(None);
    }
    let mut start = mark.start.saturating_add(1);
    for segment in segments.split('/') {
        let at = Stretch::new(start, segment.len());
        if let Some(misfit) = segment_misfit(alloc, at, segment)? {
            return Ok(Some(misfit));
        }
        start = at.end().saturating_add(1);
    }
    Ok(None)
}

fn no_slash(alloc: Global, mark: Stretch, path: &str) -> Result<Misfit, AllocError> {
    let mut cure = String::new(alloc);
    if path.contains('.') {
        cure.push_str(
            "a `/` stands before each name, and a `$` before that of a definition: write /",
        )?;
        let mut is_first = true;
        for name in path.split('.') {
            cure.push_str(if is_first { "$" } else { "/" })?;
            cure.push_str(name)?;
            is_first = false;
        }
    } else {
        write!(cure, "write `/{path}`, or `/${path}` for a definition")?;
    }
    told(alloc, mark, "a path begins with `/`", cure.as_str())
}

const SHELL: &str =
    "between double quotes and in `<<EOF` a shell takes `$uart` away: write the line in single quotes, or `<<'EOF'`";

/// What is wrong with a name of a path, if anything.
fn segment_misfit(
    alloc: Global,
    mark: Stretch,
    segment: &str,
) -> Result<Option<Misfit>, AllocError> {
    let name = segment.strip_prefix("$").unwrap_or(segment);
    if name.is_empty() {
        let at = Stretch::new(mark.start, 1);
        return Ok(Some(told(alloc, at, "a name of the path is missing", SHELL)?));
    }
    if name.contains('[') {
        let cure = "an edit is of the whole array: leave the `[` and what follows it out";
        return Ok(Some(told(alloc, mark, "one element of an array has no path", cure)?));
    }
    if name.contains('*') || name.contains('?') {
        let cure = "there are no patterns: write a line for each item";
        return Ok(Some(told(alloc, mark, "a path has names alone", cure)?));
    }
    if name.contains('.') {
        let cure = "the names of a path have `/` between them; with dots a TARGET is written";
        return Ok(Some(told(alloc, mark, "a dot stands in a path", cure)?));
    }
    if !is_name(name) {
        return Ok(Some(told(alloc, mark, "no name is spelled so", "")?));
    }
    if !is_free(name) {
        return Ok(Some(reserved(alloc, mark, name)?));
    }
    Ok(None)
}

fn reserved(alloc: Global, mark: Stretch, name: &str) -> Result<Misfit, AllocError> {
    let mut what = String::new(alloc);
    write!(what, "`{name}` is a reserved word and no name")?;
    told(alloc, mark, what.as_str(), "")
}

fn is_free(name: &str) -> bool {
    matches!(Class::of(name), Class::Name)
}

fn is_name(name: &str) -> bool {
    let bytes = name.as_bytes();
    match bytes {
        [] => false,
        [first, ..] => {
            !first.is_ascii_digit()
                && bytes.len() <= 255
                && bytes
                    .iter()
                    .all(|byte| *byte == b'_' || byte.is_ascii_alphanumeric())
        }
    }
}

fn place_misfit(alloc: Global, line: &[u8], has_text: bool) -> Result<Misfit, AllocError> {
    let mark = nth_word(line, 2);
    let cure = "PLACE is `first`, `last`, `before ITEM` or `after ITEM`";
    let next = match text_of(mark, line) {
        "" => return told(alloc, mark, "the place is missing", cure),
        "first" | "last" => 3,
        "before" | "after" => {
            let sibling = nth_word(line, 3);
            if let Some(misfit) = sibling_misfit(alloc, sibling, text_of(sibling, line))? {
                return Ok(misfit);
            }
            4
        }
        _ => return told(alloc, mark, "no place is spelled so", cure),
    };
    if has_text {
        let cure = "TEXT is a statement with its `;`";
        return told(alloc, words_from(line, next), "the text is missing", cure);
    }
    let mark = words_from(line, next);
    told(alloc, mark, "nothing more stands after the place", "")
}

fn sibling_misfit(
    alloc: Global,
    mark: Stretch,
    sibling: &str,
) -> Result<Option<Misfit>, AllocError> {
    if sibling.is_empty() {
        return Ok(Some(told(alloc, mark, "the ITEM of the place is missing", "")?));
    }
    if let Some((_, last)) = sibling.rsplit_once('/') {
        let mut cure = String::new(alloc);
        write!(cure, "an item stays in its body: write `{last}`")?;
        let what = "ITEM is a name in the same body, and no path";
        return Ok(Some(told(alloc, mark, what, cure.as_str())?));
    }
    segment_misfit(alloc, mark, sibling)
}

fn name_misfit(alloc: Global, line: &[u8]) -> Result<Misfit, AllocError> {
    let mark = nth_word(line, 2);
    let name = text_of(mark, line);
    if name.is_empty() {
        return told(alloc, mark, "the new name is missing", "");
    }
    if name.starts_with("/") || name.starts_with("$") {
        return told(alloc, mark, "the new name has no `/` and no `$`", "");
    }
    if !is_name(name) {
        let cure = "a name is a letter or `_`, then letters, digits and `_`";
        return told(alloc, mark, "no name is spelled so", cure);
    }
    told(
        alloc,
        words_from(line, 3),
        "nothing more stands after the name",
        "",
    )
}

fn sizes_misfit(alloc: Global, line: &[u8]) -> Result<Misfit, AllocError> {
    let mark = words_from(line, 2);
    let text = text_of(mark, line);
    let mut cure = String::new(alloc);
    if text.is_empty() {
        return told(alloc, mark, "the size is missing", "`none` takes it away");
    }
    if is_number(text) {
        write!(cure, "write `[{text}]`")?;
    } else if text.contains(':') {
        cure.push_str("a range of bits is set by `bits`")?;
    }
    told(alloc, mark, "a size stands in brackets", cure.as_str())
}

fn bits_misfit(alloc: Global, line: &[u8]) -> Result<Misfit, AllocError> {
    let mark = words_from(line, 2);
    let text = text_of(mark, line);
    let mut cure = String::new(alloc);
    if text.is_empty() {
        return told(
            alloc,
            mark,
            "the bits are missing",
            "`none` takes them away",
        );
    }
    let inside = text.strip_prefix("[").unwrap_or(text);
    let inside = inside.strip_suffix("]").unwrap_or(inside);
    match inside.split_once(':') {
        Some((high, low)) if is_number(high) && is_number(low) => {
            write!(cure, "write `[{high}:{low}]`")?;
        }
        None if is_number(inside) => {
            write!(
                cure,
                "for one bit write `[{inside}:{inside}]`; `resize` sets how many"
            )?;
        }
        _ => {}
    }
    told(alloc, mark, "bits are written `[high:low]`", cure.as_str())
}

/// Whether it is a decimal number.
fn is_number(text: &str) -> bool {
    !text.is_empty() && text.as_bytes().iter().all(|byte| byte.is_ascii_digit())
}

fn number_misfit(alloc: Global, line: &[u8]) -> Result<Misfit, AllocError> {
    let mark = words_from(line, 2);
    let text = text_of(mark, line);
    let mut cure = String::new(alloc);
    if text.is_empty() {
        return told(alloc, mark, "the number is missing", "`none` takes it away");
    }
    let digits = text.strip_suffix("h").or(text.strip_suffix("H"));
    let digits = digits.or(text.strip_prefix("$")).or(text.strip_prefix("#"));
    if let Some(digits) = digits {
        if digits
            .as_bytes()
            .iter()
            .all(|byte| byte.is_ascii_hexdigit())
        {
            write!(cure, "write `0x{digits}`")?;
        }
    }
    told(
        alloc,
        mark,
        "a number is written `16`, `0x10` or `8'h10`",
        cure.as_str(),
    )
}

fn property_misfit(
    alloc: Global,
    line: &[u8],
    number: usize,
    has_value: bool,
) -> Result<Misfit, AllocError> {
    let mark = nth_word(line, number);
    let name = text_of(mark, line);
    if name.is_empty() {
        return told(alloc, mark, "the property is missing", "");
    }
    let is_free = matches!(Class::of(name), Class::Name | Class::Property(_));
    if !is_name(name) || !is_free {
        return told(alloc, mark, "no property is spelled so", "");
    }
    let behind = words_from(line, number.saturating_add(1));
    if has_value {
        value_misfit(alloc, behind, text_of(behind, line), name)
    } else {
        told(alloc, behind, "nothing more stands after the property", "")
    }
}

fn value_misfit(
    alloc: Global,
    mark: Stretch,
    value: &str,
    name: &str,
) -> Result<Misfit, AllocError> {
    let mut cure = String::new(alloc);
    match property_named(name) {
        Some(property) => push_values(alloc, &mut cure, property, value)?,
        None => cure.push_str("a value is a number, a word or a string in double quotes")?,
    }
    if value.is_empty() {
        return told(
            alloc,
            mark,
            "the value is missing, which is always written",
            cure.as_str(),
        );
    }
    if value.starts_with("=") {
        return told(alloc, mark, "no `=` stands before the value", cure.as_str());
    }
    told(alloc, mark, "no value is spelled so", cure.as_str())
}

fn target_misfit(alloc: Global, line: &[u8], has_value: bool) -> Result<Misfit, AllocError> {
    let mark = nth_word(line, 2);
    let target = text_of(mark, line);
    if target.is_empty() {
        return told(alloc, mark, "the target is missing", "");
    }
    if target.contains('[') {
        let cure = "an assignment is of all elements: leave the `[` and what follows it out";
        return told(alloc, mark, "one element of an array is no target", cure);
    }
    if !target.split('.').all(is_name) {
        let cure = "a TARGET is names of instances with dots between them, as `status.busy`";
        return told(alloc, mark, "no target is spelled so", cure);
    }
    property_misfit(alloc, line, 3, has_value)
}
