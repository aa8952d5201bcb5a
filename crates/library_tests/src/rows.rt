//! Rows made by hand.
use rdl_elab::row::{Extent, LeadingNames, Location, NamesAround, Row, RowPath};
use rdl_elab::row_values::RowValues;
use rdl_text::name::Name;
use rdl_text::token::Number;
use rdl_tree::shell::Kind;
use std::alloc::{AllocError, Global};
use std::rc::Rc;
use std::test::Fail;

fn path(alloc: Global, names: &[&str]) -> Result<RowPath, Fail> {
    let (last, before) = names.split_last().ok_or("no names")?;
    let mut around = NamesAround::none(alloc);
    for name in before {
        around = around.inside(alloc, &Name::new(alloc, name)?)?;
    }
    let leading = LeadingNames::new(Rc::new(alloc, around)?);
    Ok(RowPath::new(leading, Name::new(alloc, last)?))
}

fn extent(alloc: Global, sizes: &[Number]) -> Result<Extent, AllocError> {
    Extent::new(alloc, 0, 12, sizes, 32)
}

fn placed(
    alloc: Global,
    names: RowPath,
    kind: Kind,
    base: u64,
    extent: Extent,
) -> Result<Row, AllocError> {
    let values = RowValues::from_vec(alloc, Vec::new(alloc))?;
    Ok(Row {
        names,
        kind,
        base,
        location: Location::Bytes(extent),
        values,
    })
}

/// A row without any values, of elements of 12 bytes, each 32 behind the one before.
pub(crate) fn bytes(
    alloc: Global,
    names: &[&str],
    kind: Kind,
    base: u64,
    sizes: &[Number],
) -> Result<Row, Fail> {
    let names = path(alloc, names)?;
    Ok(placed(alloc, names, kind, base, extent(alloc, sizes)?)?)
}
