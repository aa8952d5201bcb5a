//! What is compared of two rows.
ghost use Rattle.std.specs.Prelude.{◌≡◌};
ghost use Rattle.rdl_diff.specs.Told.{what_text};

use rdl_tree::property::Property;

/// A part of a row.
#[derive(Clone, Copy, Debug, PartialEq, Eq)]
pub enum What {
    Kind,
    Base,
    Offset,
    Size,
    Dims,
    Stride,
    Bits,
    /// The value of a property.
    Value(Property),
}

impl What {
    /// Its name in a line.
    pub fn text(self) -> &'static str
        ensures { result.now ≡ what_text self }
    {
        match self {
            What::Kind => "kind",
            What::Base => "base",
            What::Offset => "offset",
            What::Size => "size",
            What::Dims => "dims",
            What::Stride => "stride",
            What::Bits => "bits",
            What::Value(property) => property.name(),
        }
    }
}
