//! The texts that say how the rows of one map differ from those of another.
ghost use Rattle.std.specs.Prelude.{◌≡◌, ◌++◌, map, string_bytes, IfOk, OnOk};
ghost use Rattle.rdl_diff.specs.Left.{head_left};
ghost use Rattle.rdl_diff.specs.Seen.{entry_seen, items_seen, lines_seen};
ghost use Rattle.rdl_diff.specs.Written.{diff_text, entries_of, head_of, text_in, told_items};
ghost use Rattle.rdl_diff.specs.declared.choice.Format.{Format};

use crate::choice::{Choice, Format};
use crate::entry::{Entry, Item, entries_of, items_of};
use crate::json::push_json;
use crate::line::Line;
use crate::markdown::{push_markdown, table_head};
use crate::matched::{lines, lines_of_own};
use crate::moves::Moves;
use crate::once::told_once;
use crate::plain::push_plain;
use rdl_elab::row::Row;
use std::alloc::{AllocError, Global};
use std::vec::IntoIter;

/// Appends an entry.
fn push_entry(
    alloc: Global,
    text: &mut String,
    format: Format,
    entry: &Entry<'_>,
) -> Result<(), AllocError>
    ensures { OnOk result (string_bytes text.new ≡ string_bytes text.old ++ text_in format (entry_seen entry.now)) }
{
    match format {
        Format::Text => push_plain(text, entry),
        Format::Markdown => push_markdown(alloc, text, entry),
        Format::Json => push_json(alloc, text, entry),
    }
}

/// What is told once, or of each.
fn told_items<'a>(
    alloc: Global,
    moves: Moves,
    items: Vec<Item<'a>>,
) -> Result<Vec<Item<'a>>, AllocError>
    ensures { IfOk result (λ told. items_seen told.items ≡ told_items moves (items_seen items.entry.items)) }
{
    match moves {
        Moves::Own => told_once(alloc, items),
        Moves::Each => Ok(items),
    }
}

/// What is written of lines.
fn entries_told<'a>(
    alloc: Global,
    moves: Moves,
    lines: Vec<Line<'a>>,
) -> Result<Vec<Entry<'a>>, AllocError>
    ensures { IfOk result (λ es. map entry_seen es.items ≡ entries_of moves (lines_seen lines.entry.items)) }
{
    let items = items_of(alloc, lines)?;
    let told = told_items(alloc, moves, items)?;
    entries_of(alloc, told)
}

/// The head of a table that has these entries.
#[tactic(auto, using(crate::proofs::Texts::some_head))]
fn head_above(entries: &[Entry<'_>]) -> Option<&'static str>
    ensures { head_left result ≡ head_of Format.Markdown (map entry_seen entries.now) }
{
    match entries {
        [] => None,
        [_, ..] => Some(table_head()),
    }
}

/// The head of the table, where one is asked that has a row.
fn head_of(format: Format, entries: &[Entry<'_>]) -> Option<&'static str>
    ensures { head_left result ≡ head_of format (map entry_seen entries.now) }
{
    match format {
        Format::Markdown => head_above(entries),
        Format::Text | Format::Json => None,
    }
}

/// The texts that say how the rows of one map differ from those of another, one after another, each with its line feed: those of rows
/// that have another name, of those that are gone, and of those of the second map that are new or differ. What is the same of things
/// beside each other is told once, unless each is asked, and a table has a head.
#[derive(Drop)]
pub struct Differences<'a> {
    format: Format,
    /// What is still to come.
    head: Option<&'a str>,
    entries: IntoIter<Entry<'a>>,
}

impl<'a> Differences<'a> {
    ghost use Rattle.std.specs.Prelude.{◌≡◌, ◌<◌, true, false, string_bytes, [], IfOk, OnOk};
    ghost use Rattle.rdl_diff.specs.Left.{Passes, left, texts_left};
    ghost use Rattle.rdl_diff.specs.SameRows.{HaveOwnPaths};
    ghost use Rattle.rdl_diff.specs.Seen.{lines_seen};
    ghost use Rattle.rdl_diff.specs.Written.{diff_texts, entries_of, texts_of};

    /// What is written of lines.
    fn of_lines(
        alloc: Global,
        choice: &Choice,
        lines: Vec<Line<'a>>,
    ) -> Result<Differences<'a>, AllocError>
        ensures { IfOk result (λ d. left d ≡ texts_of choice.now.format (entries_of choice.now.moves (lines_seen lines.entry.items))) }
    {
        let entries = entries_told(alloc, choice.moves, lines)?;
        Ok(Differences {
            format: choice.format,
            head: head_of(choice.format, entries.as_slice()),
            entries: entries.into_iter(),
        })
    }

    /// All that is asked.
    pub fn new(
        alloc: Global,
        choice: &Choice,
        old: &'a [Row],
        new: &'a [Row],
    ) -> Result<Differences<'a>, AllocError>
        ensures { IfOk result (λ d. left d ≡ diff_texts choice.now old.now new.now) }
    {
        let lines = lines(alloc, choice, old, new)?;
        Differences::of_lines(alloc, choice, lines)
    }

    /// The same of rows of which no two of the first map have one path, as none of a map have that elaborates: in less time.
    pub fn of_own(
        alloc: Global,
        choice: &Choice,
        old: &'a [Row],
        new: &'a [Row],
    ) -> Result<Differences<'a>, AllocError>
        requires { HaveOwnPaths old.now }
        ensures { IfOk result (λ d. left d ≡ diff_texts choice.now old.now new.now) }
    {
        let lines = lines_of_own(alloc, choice, old, new)?;
        Differences::of_lines(alloc, choice, lines)
    }

    /// Appends the next text, and answers whether there was one. Without memory that text is lost, and the text may have a front of
    /// it.
    #[tactic(auto, using(crate::proofs::Passing::next_head, crate::proofs::Passing::next_entry, crate::proofs::Passing::no_next))]
    pub fn push_next(&mut self, alloc: Global, text: &mut String) -> Result<bool, AllocError>
        ensures passes { OnOk result (Passes self.old self.new (string_bytes text.old) (string_bytes text.new)) }
        ensures falls { IfOk result (λ has_next. has_next ≡ true → texts_left self.new < texts_left self.old) }
        ensures ends { IfOk result (λ has_next. has_next ≡ false → left self.new ≡ []) }
    {
        if let Some(head) = self.head.take() {
            text.push_str(head)?;
            return Ok(true);
        }
        if let Some(entry) = self.entries.next() {
            push_entry(alloc, text, self.format, &entry)?;
            return Ok(true);
        }
        Ok(false)
    }
}

/// All of that text.
#[tactic(auto, using(crate::proofs::Passing::passed_on, crate::proofs::Passing::passed_all))]
pub fn diff_text(
    alloc: Global,
    choice: &Choice,
    old: &[Row],
    new: &[Row],
) -> Result<String, AllocError>
    ensures { IfOk result (λ text. string_bytes text ≡ diff_text choice.now old.now new.now) }
{
    let mut differences = Differences::new(alloc, choice, old, new)?;
    let mut text = String::new(alloc);
    'texts: while differences.push_next(alloc, &mut text)? {}
    Ok(text)
}
