//! The words of a whole text, or of exactly one statement.
ghost use Rattle.std.specs.Prelude.{◌≡◌};
ghost use Rattle.rdl_parse.specs.Finds.{seen};
ghost use Rattle.rdl_parse.specs.Reading as spec;
ghost use Rattle.rdl_parse.specs.Reading.{Gives, parsed, text_at, items_at, limit};
ghost use Rattle.rdl_parse.specs.Symbol.{symbols};

use crate::fault::Stop;
use crate::found::{Found, Spot};
use crate::reader::{Reader, wrong};
use crate::room::WHOLE;
use rdl_text::list::Words;
use rdl_tree::description::{Body, Description, Item};
use std::alloc::Global;

/// How deep bodies nest at most.
const LEVELS: u32 = 16;

impl<'a> Reader<'a> {
    /// The end of the words.
    #[tactic(auto, unfolding(crate::specs::Reading::end_at))]
    fn end(&self) -> Result<(), Stop>
        ensures { Gives (λ _. tt) result (spec.end_at (symbols self.now.rest)) }
    {
        if self.rest.len() == 0 {
            Ok(())
        } else {
            Err(wrong(&self.rest))
        }
    }
}

/// The description that all of the words spell, and a spot for each item.
#[tactic(auto, unfolding(crate::specs::Reading::text_at))]
pub(crate) fn text(alloc: Global, words: Words<'_>) -> Result<(Description, Vec<Spot>), Stop>
    ensures { Gives parsed result (text_at 16 limit (symbols words.entry)) }
{
    let mut reader = Reader::new(alloc, words);
    let Found { items, spots } = reader.statements(alloc, LEVELS, WHOLE)?;
    reader.end()?;
    let items = Body::from_vec(items);
    Ok((Description { items }, spots))
}

/// The items of the one statement that the words are.
#[tactic(auto, unfolding(crate::specs::Reading::items_at))]
pub(crate) fn items(alloc: Global, words: Words<'_>) -> Result<Vec<Item>, Stop>
    ensures { Gives (λ xs. xs.items) result (items_at 16 limit (symbols words.entry)) }
{
    let mut reader = Reader::new(alloc, words);
    let mut found = Found::new(alloc);
    let _room = reader.statement(alloc, LEVELS, WHOLE, &mut found)?;
    reader.end()?;
    Ok(found.items)
}
