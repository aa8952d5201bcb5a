//! Where another answer may be mistaken for want of memory: targets that lead nowhere, and long texts.
use crate::assert_holds;
use crate::layouts::elaborated;
use crate::parse::{description, repeated};
use rdl_diff::choice::{Choice, Format, Severity};
use rdl_diff::diff_text;
use rdl_diff::moves::Moves;
use rdl_elab::row::Rows;
use rdl_header::header;
use rdl_list::list_text;
use rdl_scope::targets::through;
use rdl_session::laws::written_sessions_are_parsed;
use rdl_text::raw::Raw;
use rdl_tree::address::Address;
use rdl_write::rdl;
use std::alloc::{AllocError, Global};
use std::test::Fail;

// ---- Targets.

/// A map, and whether the target of its top's second item leads to an instance.
const TARGETS: [(&str, bool); 4] = [
    (
        "addrmap top { reg { field {} f; } a; a.f->reset = 1; };",
        true,
    ),
    (
        "addrmap top { reg { field {} f; } a; b.f->reset = 1; };",
        false,
    ),
    (
        "addrmap top { reg { field {} f; } a; a.g->reset = 1; };",
        false,
    ),
    (
        "addrmap top { reg { field {} f; } a; a.f.f->reset = 1; };",
        false,
    ),
];

fn targets() -> &'static [(&'static str, bool)] {
    &TARGETS
}

fn second_item() -> Address {
    let mut address = Address::new();
    address.push(0);
    address.push(1);
    address
}

fn leads_somewhere(alloc: Global, text: &str) -> Result<bool, Fail> {
    let description = description(alloc, text)?;
    Ok(through(alloc, &description, &second_item())?.is_some())
}

#[test]
fn targets_lead_to_an_instance_or_nowhere(rt: HostRuntime) -> Result<(), Fail> {
    for (text, leads) in targets() {
        assert_holds(&rt, leads_somewhere(rt.alloc(), text)? == *leads, text);
    }
    Ok(())
}

// ---- Long texts.

/// Longer than a block of 65,536 bytes.
const LONG: usize = 70_000;

fn is_long_string(alloc: Global) -> Result<bool, Fail> {
    let text = repeated(alloc, &[("a", LONG)])?;
    let raw = Raw::new(alloc, text.as_str())?.try_copy(alloc)?;
    Ok(raw.as_str() == text.as_str())
}

/// A map with a string that is long.
fn described(alloc: Global) -> Result<String, AllocError> {
    repeated(
        alloc,
        &[
            ("addrmap top { desc = \"", 1),
            ("a", LONG),
            ("\"; reg { field {} f; } a; };", 1),
        ],
    )
}

/// All but moves with what holds a row.
fn all(alloc: Global) -> Choice {
    Choice {
        moves: Moves::Own,
        severity: Severity::Any,
        ignored: Vec::new(alloc),
        format: Format::Text,
    }
}

fn is_copied_and_written(alloc: Global, text: &str) -> Result<bool, Fail> {
    let description = description(alloc, text)?.try_copy(alloc)?;
    let rows = elaborated(alloc, text)?;
    let lines = diff_text(alloc, &all(alloc), &[], rows.as_slice())?;
    Ok(rdl(alloc, &description)?.len() > LONG && !lines.is_empty())
}

fn is_read_again_as_a_session(alloc: Global, text: &str) -> Result<bool, Fail> {
    let description = description(alloc, text)?;
    Ok(written_sessions_are_parsed(alloc, &description, &[], &[])?.is_ok())
}

#[test]
fn a_string_of_70000_bytes_has_room(rt: HostRuntime) -> Result<(), Fail> {
    let text = described(rt.alloc())?;
    let is_copied = is_copied_and_written(rt.alloc(), text.as_str())?;
    let is_read = is_read_again_as_a_session(rt.alloc(), text.as_str())?;
    assert!(rt; is_copied && is_read && is_long_string(rt.alloc())?);
    Ok(())
}

/// 2,048 registers, by types of two instances each.
const DOUBLED: &str = "reg t0 { field {} f; };
regfile t1 { t0 a; t0 b; };
regfile t2 { t1 a; t1 b; };
regfile t3 { t2 a; t2 b; };
regfile t4 { t3 a; t3 b; };
regfile t5 { t4 a; t4 b; };
regfile t6 { t5 a; t5 b; };
regfile t7 { t6 a; t6 b; };
regfile t8 { t7 a; t7 b; };
regfile t9 { t8 a; t8 b; };
regfile t10 { t9 a; t9 b; };
regfile t11 { t10 a; t10 b; };
addrmap top { t11 a; };";

fn are_long(alloc: Global, rows: &Rows) -> Result<bool, Fail> {
    let list = list_text(alloc, rows.as_slice())?;
    let header = header(alloc, rows.as_slice())?;
    let lines = diff_text(alloc, &all(alloc), &[], rows.as_slice())?;
    Ok(list.len() > LONG && header.len() > LONG && lines.len() > LONG)
}

#[test]
fn the_texts_of_4096_rows_have_room(rt: HostRuntime) -> Result<(), Fail> {
    let rows = elaborated(rt.alloc(), DOUBLED)?;
    assert!(rt; are_long(rt.alloc(), &rows)?);
    Ok(())
}
