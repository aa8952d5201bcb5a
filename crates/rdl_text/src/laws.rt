//! Laws of the definition of words. They do nothing when they run.
ghost use Rattle.rdl_text.specs.Joined.{NameIsWord, QuotedIsWord, MarkIsWord};
ghost use Rattle.rdl_text.specs.WellSpelled.{WordsAreWellSpelled};

/// A name is one word where no byte follows that an identifier goes on with. The inside of a string with its quotes is one
/// word, and so is a mark, whatever follows.
pub fn parts_are_words()
    ensures name { NameIsWord }
    ensures quoted { QuotedIsWord }
    ensures mark { MarkIsWord }
{}

/// Each word of a text is spelled as a word of its kind, and the value of a number has the bits of a number.
pub fn words_are_well_spelled()
    ensures { WordsAreWellSpelled }
{}
