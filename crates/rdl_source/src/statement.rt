//! The statements of a text.
ghost use Rattle.std.specs.Prelude.{◌≡◌, ◌≤◌, IfSome, IfOk};
ghost use Rattle.rdl_source.specs.Laid.{Laid, ended, depth};
ghost use Rattle.rdl_source.specs.View.{put, list_of, last_of};
ghost use Rattle.rdl_source.specs.LaidText.{laid_text};
ghost use Rattle.rdl_source.specs.LaidOut.{IsLaidOut};

use crate::gap::Left;
use crate::lay;
use crate::span::Span;
use crate::walk::Spot;
use rdl_parse::places::ItemPlace;
use rdl_text::list::Tokens;
use std::alloc::{AllocError, Global};
use std::marker::Model;

/// A statement: float, lead, words and trail stand one behind another, without a gap.
#[cycle(statement)]
#[derive(Debug, Drop)]
pub struct Statement {
    /// The blanks and comments before it that belong to no statement.
    pub float: Span,
    /// The blanks and comments directly before its first word.
    pub lead: Span,
    /// From its first word to its semicolon.
    pub words: Span,
    /// The rest of its line.
    pub trail: Span,
    /// How many items of its body it spells: a definition with two instances spells three.
    pub items: usize,
    /// What stands between its braces, if it has any.
    pub inside: Option<Inner>,
}

/// What stands between two braces.
#[cycle(statement)]
#[derive(Debug, Drop)]
pub struct Inner {
    /// Where the statements begin: behind the brace and the rest of its line.
    pub open: usize,
    /// The byte of the brace that closes.
    pub close: usize,
    pub body: Statements,
}

/// The statements of a body, or of a whole text, and what stands behind the last of them. A contract sees `Laid`.
#[cycle(statement)]
#[derive(Debug, Drop)]
pub struct Statements {
    list: Vec<Statement>,
    last: Span,
}

impl Model for Statements {
    ghost use Rattle.rdl_source.specs.Laid.{Laid, count};
    ghost use Rattle.rdl_source.specs.Codes.{coded_laid};

    ghost Value = { Laid };

    ghost coded = { coded_laid };

    ghost use Rattle.rdl_source.specs.View.{laid_of};

    ghost view = { λ a. laid_of a.list.items a.last };

    ghost size = { count };

    ghost use Rattle.rdl_source.specs.Falls.{deep_le-count};

    ghost size_decreases = { λ a h. deep_le-count a.list.items a.last };
}

impl Statements {
    /// The statements of a text with these words, whose items have these places. There are none where the places aren't
    /// those of the text's items.
    ///
    /// Copies of a body have the same places: the statements are those of the first copy. It takes time and memory by the
    /// length of the text.
    pub fn of(
        alloc: Global,
        text: &str,
        words: &Tokens<'_>,
        places: &[ItemPlace],
    ) -> Result<Option<Statements>, AllocError>
        // They are the text's, with its items.
        ensures laid { IfOk result (λ o. IfSome o (λ s. IsLaidOut text.now words.now places.now s)) }
        // They are the only ones, and are answered where bodies nest at most 16 deep.
        ensures only { (laid : Laid) → IsLaidOut text.now words.now places.now laid → depth laid ≤ 16 → IfOk result (λ o. o ≡ Some laid) }
        // All their parts, one behind another, are the text.
        ensures text { IfOk result (λ o. IfSome o (λ s. laid_text text.now s ≡ text.now)) }
    {
        let begin = Spot {
            left: Left::Begin,
            at: 0,
            word: 0,
        };
        let levels = lay::LEVELS;
        let Some(body) = lay::read_body(alloc, text.as_bytes(), words, places, begin, levels)?
        else {
            return Ok(None);
        };
        if body.begin != 0 {
            return Ok(None);
        }
        if body.word != words.len() {
            return Ok(None);
        }
        Ok(Some(body.statements))
    }

    pub(crate) fn new(list: Vec<Statement>, last: Span) -> Statements
        ensures { result ≡ put list.items (ended last) }
    {
        Statements { list, last }
    }

    /// The statements, in order.
    #[tactic(auto, using(crate::proofs::Views::views))]
    pub fn as_slice(&self) -> &[Statement]
        ensures { result.now ≡ list_of self.now }
    {
        self.list.as_slice()
    }

    /// What stands behind the last of them. It holds no word.
    #[tactic(auto, using(crate::proofs::Views::views))]
    pub fn last(&self) -> Span
        ensures { result ≡ last_of self.now }
    {
        self.last
    }
}
