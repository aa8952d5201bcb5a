//! The lines of rows made by hand, and the texts of no rows.
use crate::assert_same;
use crate::rows::bytes;
use rdl_elab::row::Row;
use rdl_header::header;
use rdl_list::list_text;
use rdl_text::token::Number;
use rdl_tree::shell::Kind;
use std::alloc::{AllocError, Global};
use std::slice;
use std::test::Fail;

/// The names, the kind, the base and the sizes of a row, and its line.
type Instance = (
    &'static [&'static str],
    Kind,
    u64,
    &'static [Number],
    &'static str,
);

// Of elements of 12 bytes, each 32 behind the one before.
const INSTANCES: [Instance; 3] = [
    (
        &["top"],
        Kind::Addrmap,
        0,
        &[],
        "0x0 addrmap top size 0xC\n",
    ),
    (
        &["top", "g"],
        Kind::Regfile,
        0xABCDEF,
        &[2, 10],
        "0xABCDEF regfile top.g[2][10] size 0xC stride 0x20\n",
    ),
    (
        &["top", "g", "r"],
        Kind::Reg,
        u64::MAX,
        &[1],
        "0xFFFFFFFFFFFFFFFF reg top.g.r[1] size 0xC stride 0x20\n",
    ),
];

fn instances() -> &'static [Instance] {
    &INSTANCES
}

fn row_line(alloc: Global, row: Row) -> Result<String, AllocError> {
    list_text(alloc, slice::from_ref(&row))
}

fn line_of(alloc: Global, instance: &Instance) -> Result<String, Fail> {
    let (names, kind, base, sizes, _) = instance;
    let row = bytes(alloc, names, *kind, *base, sizes)?;
    Ok(row_line(alloc, row)?)
}

#[test]
fn shows_instances_by_their_bytes(rt: HostRuntime) -> Result<(), Fail> {
    for instance in instances() {
        assert_same(
            &rt,
            line_of(rt.alloc(), instance)?.as_str(),
            instance.4,
            "the row",
        );
    }
    Ok(())
}

fn has_no_header(alloc: Global) -> bool {
    match header(alloc, &[]) {
        Ok(text) => text.is_empty(),
        Err(_) => false,
    }
}

#[test]
fn shows_nothing_without_rows(rt: HostRuntime) -> Result<(), Fail> {
    assert!(rt; list_text(rt.alloc(), &[])?.is_empty() && has_no_header(rt.alloc()));
    Ok(())
}
