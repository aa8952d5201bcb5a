//! Laws of the text that is put together item by item. They do nothing when they run.
ghost use Rattle.rdl_weave.specs.Laws.{CoarseKeeps, CoarseKeepsOrder, CoarseSpells, SourcesAreSound};

/// The text in which every statement that no edit touched stands as it stood, and the other items of the last map are spelled
/// anew, keeps what no edit touched, where the spans that stand in it cover the source's statements; it keeps the order of what wasn't
/// moved either, where the origins say so; and it spells the last map, where these statements fit it and the text isn't too long.
pub fn coarse_texts_stand()
    ensures keeps { CoarseKeeps }
    ensures order { CoarseKeepsOrder }
    ensures spells { CoarseSpells }
{}

/// A source is sound for what edits made of its map, where the origins say which items of the last map those of the source's are:
/// what no edit touched spells the same items there, and all of it is met on a walk through the last map.
pub fn sources_are_sound()
    ensures { SourcesAreSound }
{}
