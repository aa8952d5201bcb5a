//! What is told of a location.
ghost use Rattle.std.specs.Prelude.{◌≡◌};
ghost use Rattle.rdl_diff.specs.Told.{offset_at, size_at, dims_at, stride_of, stride_at, bits_at};

use rdl_elab::layout::Span;
use rdl_elab::row::Location;
use rdl_text::token::Number;

pub(crate) fn offset_at(location: &Location) -> Option<Number>
    ensures { result ≡ offset_at location.now }
{
    match location {
        Location::Bytes(extent) => Some(Number::from(extent.offset())),
        Location::Bits(_) => None,
    }
}

pub(crate) fn size_at(location: &Location) -> Option<Number>
    ensures { result ≡ size_at location.now }
{
    match location {
        Location::Bytes(extent) => Some(Number::from(extent.size())),
        Location::Bits(_) => None,
    }
}

pub(crate) fn dims_at(location: &Location) -> &[Number]
    ensures { result.now ≡ dims_at location.now }
{
    match location {
        Location::Bytes(extent) => extent.dims(),
        Location::Bits(_) => &[],
    }
}

fn stride_of(dims: &[Number], stride: Number) -> Option<Number>
    ensures { result ≡ stride_of dims.now stride }
{
    match dims {
        [] => None,
        [_, ..] => Some(stride),
    }
}

pub(crate) fn stride_at(location: &Location) -> Option<Number>
    ensures { result ≡ stride_at location.now }
{
    match location {
        Location::Bytes(extent) => stride_of(extent.dims(), extent.stride()),
        Location::Bits(_) => None,
    }
}

pub(crate) fn bits_at(location: &Location) -> Option<Span>
    ensures { result ≡ bits_at location.now }
{
    match location {
        Location::Bytes(_) => None,
        Location::Bits(span) => Some(*span),
    }
}
