//! What is read of a source.
ghost use Rattle.std.specs.Prelude.{◌≡◌, ◌≤◌, IfOk, IfSome, MatchOption};
ghost use Rattle.rdl_parse.specs.Parsing.{HasWords};
ghost use Rattle.rdl_source.specs.Laid.{Laid, depth};
ghost use Rattle.rdl_tree.specs.Limits.{IsWithinLimits};
ghost use Rattle.rdl_weave.specs.Spelled.{IsRead};
ghost use Rattle.rdl_weave.specs.Weaving.{AreStatements};

use crate::spelled::{Read, read_map};
use rdl_parse::places::Places;
use rdl_source::statement::Statements;
use rdl_text::list::Tokens;
use rdl_tree::description::Description;
use std::alloc::{AllocError, Global};

/// What was read of a text that spells a map.
#[derive(Debug, Drop)]
pub struct Source {
    /// The map.
    pub map: Description,
    /// The statements of the text, if it has them. Bodies nest at most 16 deep there.
    pub statements: Option<Statements>,
}

/// The statements of a text with these words, which spells this map with its items at these places.
#[tactic(auto, using(crate::proofs::Sounding::lie_so))]
fn statements_of(
    alloc: Global,
    text: &str,
    words: &Tokens<'_>,
    map: &Description,
    places: &Places<'_>,
) -> Result<Option<Statements>, AllocError>
    requires words { HasWords text.now words.now }
    requires read { IsRead text.now map.now.items places.now }
    ensures found { IfOk result (λ found. IfSome found (AreStatements text.now)) }
    // They are the only ones.
    ensures only { (laid : Laid) (s : AreStatements text.now laid) → IsWithinLimits s.map → depth laid ≤ 16
        → IfOk result (λ found. MatchOption found ⊥ (λ x. x ≡ laid)) }
{
    match Statements::of(alloc, text, words, places.as_slice())? {
        Some(statements) => Ok(Some(statements)),
        None => Ok(None),
    }
}

impl Source {
    ghost use Rattle.std.specs.Prelude.{IfOk, IfSome, MatchOption};
    ghost use Rattle.rdl_parse.specs.Parsing.{HasWords};
    ghost use Rattle.rdl_weave.specs.Sources.{IsSource};
    ghost use Rattle.rdl_weave.specs.Spelled.{IsRead, SpellsNone};

    /// What was read of a text with these words, which spells this map with its items at these places. The map is copied.
    pub fn of(
        alloc: Global,
        text: &str,
        words: &Tokens<'_>,
        map: &Description,
        places: &Places<'_>,
    ) -> Result<Source, AllocError>
        requires words { HasWords text.now words.now }
        requires read { IsRead text.now map.now.items places.now }
        ensures { IfOk result (IsSource text.now) }
    {
        let statements = statements_of(alloc, text, words, map, places)?;
        let map = map.try_copy(alloc)?;
        Ok(Source { map, statements })
    }

    /// Reads a text. There is none where it spells no map.
    pub(crate) fn read(alloc: Global, text: &str) -> Result<Option<Source>, AllocError>
        ensures { IfOk result (λ found. MatchOption found (SpellsNone text.now) (IsSource text.now)) }
    {
        let Some(read) = read_map(alloc, text)? else {
            return Ok(None);
        };
        let Read { words, map, places } = read;
        let statements = statements_of(alloc, text, &words, &map, &places)?;
        Ok(Some(Source { map, statements }))
    }

    /// What is known of a text already, or else what is read of it.
    pub(crate) fn known_or_read(
        alloc: Global,
        text: &str,
        known: Option<Source>,
    ) -> Result<Option<Source>, AllocError>
        requires { IfSome known (IsSource text.now) }
        ensures { IfOk result (λ found. MatchOption found (SpellsNone text.now) (IsSource text.now)) }
    {
        match known {
            Some(source) => Ok(Some(source)),
            None => Source::read(alloc, text),
        }
    }
}
