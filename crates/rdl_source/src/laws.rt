//! Laws of gaps, and of texts behind one another. They do nothing when they run.
ghost use Rattle.rdl_source.specs.Alone.{StatementsAreShallow, StatementsStandAlone};
ghost use Rattle.rdl_source.specs.Beside.{LineEnds, LinesPartWords, SemicolonsPartWords, TextsAppend};
ghost use Rattle.rdl_source.specs.Every.{EveryMapIsLaidOut};
ghost use Rattle.rdl_source.specs.NoWord.{GapsHoldNoWord};
ghost use Rattle.rdl_source.specs.Silent.{FloatsHoldNoWord};

/// A text that is cut as a gap has no words, by the definition of words.
pub fn gaps_hold_no_word()
    ensures { GapsHoldNoWord }
{}

/// What floats between the statements of a text is a text by itself, and has no words.
pub fn floats_hold_no_word()
    ensures { FloatsHoldNoWord }
{}

/// With a line feed between two texts, the words are those of the first, and then those of the second at its place. So it
/// is behind a text that ends with one.
pub fn lines_part_words()
    ensures feed { LineEnds }
    ensures line { LinesPartWords }
{}

/// Where a semicolon is a word of a text, the words before it are the same whatever stands behind it.
pub fn semicolons_part_words()
    ensures { SemicolonsPartWords }
{}

/// The text of a map behind that of another spells the items of the other, and then its own, if the other ends with a line
/// feed, or gets one.
pub fn texts_append()
    ensures { TextsAppend }
{}

/// Each statement of a text, with its lead and its trail, spells by itself the items that it spells there; and bodies nest at most as
/// deep as the items do.
pub fn statements_stand_alone()
    ensures alone { StatementsStandAlone }
    ensures shallow { StatementsAreShallow }
{}

/// Each text that spells a map has statements, with the places of the map's items.
pub fn every_map_is_laid_out()
    ensures { EveryMapIsLaidOut }
{}
