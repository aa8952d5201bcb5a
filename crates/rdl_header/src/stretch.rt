//! A part of a text.
ghost use Rattle.std.specs.Prelude.{◌≡◌, slice_range};
ghost use Rattle.rdl_header.specs.Lines.{IsCut};

/// Where a part of a text stands: from its first byte up to the byte behind its last.
#[derive(Clone, Copy)]
pub(crate) struct Stretch {
    pub(crate) start: usize,
    pub(crate) end: usize,
}

/// The part of the text that stands there.
pub(crate) fn part<'a>(text: &'a str, stretch: Stretch) -> &'a str
    requires { IsCut text.now stretch }
    ensures { result.now ≡ slice_range text.now stretch.start stretch.end }
{
    &text[stretch.start..stretch.end]
}
