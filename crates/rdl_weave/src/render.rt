//! The text of a body from its units: statements as they stood, edited ones and new ones, and what stands between them.

use crate::bytes::{
    are_blanks, before_blanks, begins_line, begins_with_blank_line, behind_blanks,
    blank_line_at_end, ends_blank, ends_comment, ends_line, first_line, has_line_feed, indent_of,
    is_open_comment, last_line, line_before, part, slice,
};
use crate::made::Group;
use crate::member::{Member, Past};
use crate::plan::{Loom, Unit};
use crate::spell::{push_flat, push_statement};
use crate::standing::{Standing, standings};
use crate::woven::Woven;
use rdl_source::span::Span;
use rdl_source::statement::{Inner, Statement, Statements};
use rdl_tree::description::{Body, Item};
use std::alloc::{AllocError, Global};

/// Where a body stands in the source.
#[derive(Clone, Copy)]
pub(crate) struct Room<'a> {
    /// Its first byte, and the one behind it.
    pub(crate) open: usize,
    pub(crate) close: usize,
    /// The indent of the line of its holder's first word.
    pub(crate) indent: &'a str,
    /// Whether it is that of the whole text.
    pub(crate) is_root: bool,
    /// Whether it stands on one line between its braces.
    pub(crate) is_flat: bool,
}

impl<'a> Room<'a> {
    /// That of the whole text.
    pub(crate) fn root(source: &'a [u8]) -> Room<'a> {
        Room {
            open: 0,
            close: source.len(),
            indent: "",
            is_root: true,
            is_flat: false,
        }
    }

    /// That of what stands between the braces of a statement.
    pub(crate) fn of(source: &'a [u8], statement: &Statement, inner: &Inner) -> Room<'a> {
        let line = line_before(source, statement.words.from);
        let begin = inner.open.saturating_sub(1);
        Room {
            open: inner.open,
            close: inner.close,
            indent: indent_of(part(source, line, statement.words.from)),
            is_root: false,
            is_flat: !has_line_feed(part(source, begin, inner.close)),
        }
    }
}

/// The indent of a statement that begins its line.
pub(crate) fn own_indent<'a>(source: &'a [u8], statement: &Statement) -> Option<&'a str> {
    let line = line_before(source, statement.words.from);
    if line < statement.lead.from || !begins_line(source, line) {
        return None;
    }
    Some(indent_of(part(source, line, statement.words.from)))
}

/// The indent of the first statement that begins its line.
fn usual_indent<'a>(source: &'a [u8], statements: &Statements) -> Option<&'a str> {
    'statements: for statement in statements.as_slice() {
        if let Some(indent) = own_indent(source, statement) {
            return Some(indent);
        }
    }
    None
}

/// The text of a body as far as it is written.
#[derive(Drop)]
pub(crate) struct Page<'a> {
    loom: Loom<'a>,
    room: Room<'a>,
    text: Woven,
    /// The byte of the source that goes on where the text ends, if nothing else does.
    at: Option<usize>,
    /// Whether a comment to the end of its line is open at the end.
    is_open: bool,
    /// How many floats stand in the text or were passed.
    floats: usize,
    /// The statement of the source that stands last in the text, by number.
    before: Option<usize>,
    /// The indent of the first statement that begins its line.
    usual_indent: Option<&'a str>,
}

impl<'a> Page<'a> {
    pub(crate) fn new(
        alloc: Global,
        loom: Loom<'a>,
        room: Room<'a>,
        statements: &Statements,
    ) -> Page<'a> {
        let usual_indent = if room.is_flat {
            None
        } else {
            usual_indent(loom.source, statements)
        };
        Page {
            loom,
            room,
            text: Woven::new(alloc),
            at: Some(room.open),
            is_open: false,
            floats: 0,
            before: None,
            usual_indent,
        }
    }

    pub(crate) fn into_woven(self) -> Woven {
        self.text
    }

    fn is_at_line_start(&self) -> bool {
        let text = self.text.as_slice();
        if text.is_empty() {
            begins_line(self.loom.source, self.room.open)
        } else {
            ends_line(text)
        }
    }

    /// Whether nothing or a line of blanks stands before.
    fn is_behind_blank(&self) -> bool {
        self.text.as_slice().is_empty() || blank_line_at_end(self.text.as_slice()) > 0
    }

    fn end_line(&mut self) -> Result<(), AllocError> {
        if !self.is_at_line_start() {
            self.text.push_str(self.loom.style.line_end)?;
        }
        self.is_open = false;
        Ok(())
    }

    fn put_float(&mut self, span: Span) -> Result<(), AllocError> {
        let float = slice(self.loom.source, span);
        if self.at != Some(span.from) {
            if float.is_empty() {
                return Ok(());
            }
            self.end_line()?;
            if begins_with_blank_line(float) && self.is_behind_blank() {
                return self.push_float(span, part(float, first_line(float), float.len()));
            }
        }
        self.push_float(span, float)
    }

    fn push_float(&mut self, span: Span, float: &[u8]) -> Result<(), AllocError> {
        self.is_open = false;
        self.at = Some(span.to);
        self.text.push(float)?;
        self.keep_gap(span.to, float)
    }

    /// The floats up to that of the statement of this number.
    fn put_floats(&mut self, statements: &Statements, to: usize) -> Result<(), AllocError> {
        'floats: for number in self.floats..to.saturating_add(1) {
            if let Some(statement) = statements.as_slice().get(number) {
                self.put_float(statement.float)?;
                self.floats = number.saturating_add(1);
            }
        }
        Ok(())
    }

    /// The comments and blanks before the first word of a statement, so that it begins a line where it did.
    fn put_lead(&mut self, statement: &Statement) -> Result<(), AllocError> {
        let lead = slice(self.loom.source, statement.lead);
        if self.at != Some(statement.lead.from) {
            let is_behind_comment = self.is_open || ends_comment(self.text.as_slice());
            if is_behind_comment || begins_line(self.loom.source, statement.lead.from) {
                self.end_line()?;
            }
            if !begins_line(self.loom.source, statement.lead.from) {
                if self.is_at_line_start() {
                    self.text.push_str(self.room.indent)?;
                    if !self.room.is_root {
                        self.text.push_str(self.loom.style.unit)?;
                    }
                    self.is_open = false;
                    return self.text.push(behind_blanks(lead));
                }
                if lead.is_empty() && !ends_blank(self.text.as_slice()) {
                    self.text.push_str(" ")?;
                }
            }
        }
        self.is_open = false;
        self.text.push(lead)?;
        self.text.note_gap(lead.len())
    }

    fn put_trail(&mut self, statement: &Statement) -> Result<(), AllocError> {
        let trail = slice(self.loom.source, statement.trail);
        self.at = Some(statement.trail.to);
        self.is_open = is_open_comment(trail);
        self.text.push(trail)
    }

    fn put_kept(&mut self, statement: &Statement) -> Result<(), AllocError> {
        self.put_lead(statement)?;
        let lead = behind_blanks(slice(self.loom.source, statement.lead));
        self.text.keep(statement.words.from, lead.len())?;
        self.text.push(slice(self.loom.source, statement.words))?;
        self.put_trail(statement)
    }

    /// Goes to where a new statement may begin that stands in lines of this indent: in a body on one line behind a blank, unless a comment
    /// would come before it.
    fn begin_new(&mut self, indent: &str) -> Result<(), AllocError> {
        self.at = None;
        if self.room.is_flat && !ends_comment(self.text.as_slice()) {
            if !ends_blank(self.text.as_slice()) {
                self.text.push_str(" ")?;
            }
            return Ok(());
        }
        self.end_line()?;
        self.text.push_str(indent)
    }

    fn end_new(&mut self) -> Result<(), AllocError> {
        if self.room.is_flat {
            return Ok(());
        }
        self.end_line()
    }

    /// The indent of a new statement here: that of the one before, else that of the first one, else a unit deeper than
    /// that of the holder.
    fn indent(&self, alloc: Global, statements: &Statements) -> Result<String, AllocError> {
        if let Some(statement) = self.sibling(statements) {
            if let Some(indent) = own_indent(self.loom.source, statement) {
                return String::from_str(alloc, indent);
            }
        }
        if let Some(indent) = self.usual_indent {
            return String::from_str(alloc, indent);
        }
        let mut indent = String::from_str(alloc, self.room.indent)?;
        if !self.room.is_root {
            indent.push_str(self.loom.style.unit)?;
        }
        Ok(indent)
    }

    /// The words of an item as they are spelled anew.
    fn spelled(
        &self,
        alloc: Global,
        statements: &Statements,
        indent: &str,
        item: &Item,
    ) -> Result<String, AllocError> {
        let mut text = String::new(alloc);
        if self.room.is_flat {
            push_flat(&mut text, item)?;
            return Ok(text);
        }
        let is_flat = self.follows_line(statements);
        push_statement(alloc, &mut text, self.loom.style, indent, item, is_flat)?;
        Ok(text)
    }

    /// The statement of the source that stands last in the text.
    fn sibling<'s>(&self, statements: &'s Statements) -> Option<&'s Statement> {
        statements.as_slice().get(self.before?)
    }

    /// Whether that stands on one line.
    fn follows_line(&self, statements: &Statements) -> bool {
        match self.sibling(statements) {
            Some(statement) => !has_line_feed(slice(self.loom.source, statement.words)),
            None => false,
        }
    }

    /// Whether a line of blanks stands before it.
    fn follows_blank(&self, statements: &Statements) -> bool {
        match self.sibling(statements) {
            Some(statement) => !slice(self.loom.source, statement.float).is_empty(),
            None => false,
        }
    }

    /// Whether that stands on one line with the statement behind it in the source.
    fn shares_line(&self, statements: &Statements) -> bool {
        let (Some(number), Some(statement)) = (self.before, self.sibling(statements)) else {
            return false;
        };
        let Some(next) = statements.as_slice().get(number.saturating_add(1)) else {
            return false;
        };
        !has_line_feed(part(self.loom.source, statement.words.to, next.words.from))
    }

    /// A new item.
    fn put_new(
        &mut self,
        alloc: Global,
        statements: &Statements,
        item: &Item,
    ) -> Result<(), AllocError> {
        let indent = self.indent(alloc, statements)?;
        let text = self.spelled(alloc, statements, indent.as_str(), item)?;
        let has_lines = has_line_feed(text.as_bytes());
        if !has_lines && !self.is_at_line_start() && self.shares_line(statements) {
            return self.put_beside(text.as_str());
        }
        if has_lines && self.follows_blank(statements) {
            self.end_line()?;
            if !self.is_behind_blank() {
                self.text.push_str(self.loom.style.line_end)?;
            }
        }
        self.begin_new(indent.as_str())?;
        self.text.push_str(text.as_str())?;
        self.end_new()
    }

    /// A new statement behind another on its line.
    fn put_beside(&mut self, text: &str) -> Result<(), AllocError> {
        self.at = None;
        if !ends_blank(self.text.as_slice()) {
            self.text.push_str(" ")?;
        }
        self.text.push_str(text)
    }

    /// The items of a unit, spelled anew one behind another.
    fn spelled_unit(
        &self,
        alloc: Global,
        statements: &Statements,
        last: &Body,
        members: &[Member],
    ) -> Result<Woven, AllocError> {
        let indent = self.indent(alloc, statements)?;
        let mut woven = Woven::new(alloc);
        'items: for member in members {
            if !woven.as_slice().is_empty() {
                if self.room.is_flat {
                    woven.push_str(" ")?;
                } else {
                    woven.push_str(self.loom.style.line_end)?;
                    woven.push_str(indent.as_str())?;
                }
            }
            if let Some(item) = last.item(member.item) {
                let text = self.spelled(alloc, statements, indent.as_str(), item)?;
                woven.push_str(text.as_str())?;
            }
        }
        Ok(woven)
    }

    /// The words of a unit that came from this statement.
    fn made(
        &self,
        alloc: Global,
        group: Group<'_>,
        body: Option<&Woven>,
    ) -> Result<Woven, AllocError> {
        if !self.loom.is_coarse || group.statement.inside.is_some() {
            if let Some(woven) = group.text(alloc, body)? {
                return Ok(woven);
            }
        }
        self.spelled_unit(alloc, group.past.statements, group.last, group.members)
    }

    /// What stands behind the statements, and notes it.
    fn put_last(&mut self, span: Span) -> Result<(), AllocError> {
        self.push_last(span)?;
        self.keep_gap(span.to, slice(self.loom.source, span))
    }

    /// Notes that the last bytes are these blanks and comments, which end at this place of the source.
    fn keep_gap(&mut self, to: usize, gap: &[u8]) -> Result<(), AllocError> {
        let comments = behind_blanks(gap);
        if comments.is_empty() {
            return Ok(());
        }
        self.text.note_gap(comments.len())?;
        self.text.keep(to, comments.len())
    }

    fn push_last(&mut self, span: Span) -> Result<(), AllocError> {
        let last = slice(self.loom.source, span);
        if self.at == Some(span.from) {
            return self.text.push(last);
        }
        if self.room.is_flat {
            return self.put_flat_last(last);
        }
        let begins = begins_line(self.loom.source, span.from);
        if begins || self.is_open {
            self.end_line()?;
        }
        let rest = if begins && begins_with_blank_line(last) && self.is_behind_blank() {
            part(last, first_line(last), last.len())
        } else {
            last
        };
        if are_blanks(rest) {
            let count = blank_line_at_end(self.text.as_slice());
            self.text.cut(count);
        }
        if !begins && self.is_at_line_start() {
            self.text.push_str(self.room.indent)?;
            return self.text.push(behind_blanks(rest));
        }
        self.text.push(rest)
    }

    fn put_flat_last(&mut self, last: &[u8]) -> Result<(), AllocError> {
        if are_blanks(self.text.as_slice()) && are_blanks(last) {
            let count = self.text.as_slice().len();
            self.text.cut(count);
            return Ok(());
        }
        if last.is_empty() && !ends_blank(self.text.as_slice()) {
            return self.text.push_str(" ");
        }
        self.text.push(last)
    }

    /// A line of blanks, so that what stands before belongs to no statement.
    fn put_blank_line(&mut self) -> Result<(), AllocError> {
        if self.room.is_flat {
            return Ok(());
        }
        self.end_line()?;
        if self.is_behind_blank() {
            return Ok(());
        }
        self.text.push_str(self.loom.style.line_end)
    }

    /// The new items of a body that had no statement.
    fn put_first(
        &mut self,
        alloc: Global,
        statements: &Statements,
        last: &Body,
    ) -> Result<(), AllocError> {
        let span = statements.last();
        let gap = slice(self.loom.source, span);
        let count = if self.room.is_root {
            gap.len()
        } else if self.room.is_flat {
            before_blanks(gap).len()
        } else {
            last_line(gap).max(before_blanks(gap).len())
        };
        let comments = part(gap, 0, count);
        if !are_blanks(comments) {
            self.text.push(comments)?;
            self.is_open = is_open_comment(comments);
            let to = span.from.saturating_add(count);
            self.keep_gap(to, comments)?;
            self.put_blank_line()?;
        }
        'items: for item in last.as_slice() {
            self.put_new(alloc, statements, item)?;
        }
        let rest = part(gap, count, gap.len());
        if self.room.is_flat && rest.is_empty() {
            return self.text.push_str(" ");
        }
        if !self.room.is_flat && !begins_line(self.loom.source, span.from.saturating_add(count)) {
            return self.text.push_str(self.room.indent);
        }
        self.text.push(rest)
    }

    /// The text of the body from its units.
    pub(crate) fn put_units(
        &mut self,
        alloc: Global,
        past: Past<'_>,
        last: &Body,
        members: &[Member],
        units: &[Unit],
    ) -> Result<(), AllocError> {
        let statements = past.statements;
        if statements.as_slice().is_empty() && !units.is_empty() {
            return self.put_first(alloc, statements, last);
        }
        let standings = standings(alloc, members, units, statements.as_slice().len())?;
        self.put_floats(statements, 0)?;
        'units: for (unit, standing) in units.iter().zip(standings.as_slice()) {
            self.put_unit(alloc, past, last, members, unit, *standing)?;
        }
        self.put_floats(statements, statements.as_slice().len())?;
        self.put_last(statements.last())
    }

    fn put_unit(
        &mut self,
        alloc: Global,
        past: Past<'_>,
        last: &Body,
        members: &[Member],
        unit: &Unit,
        standing: Standing,
    ) -> Result<(), AllocError> {
        let run = match members.get(unit.from..unit.to) {
            Some(run) => run,
            None => &[],
        };
        let Some(number) = unit.statement else {
            return self.put_new_ones(alloc, past.statements, last, run);
        };
        let Some(statement) = past.statements.as_slice().get(number) else {
            return Ok(());
        };
        if standing.is_in_place {
            self.put_floats(past.statements, number)?;
        }
        if unit.is_kept {
            self.put_kept(statement)?;
        } else {
            let group = Group {
                source: self.loom.source,
                statement,
                past,
                last,
                members: run,
                is_first: standing.is_first,
            };
            self.put_made(alloc, group, unit, standing)?;
        }
        self.before = Some(number);
        Ok(())
    }

    fn put_new_ones(
        &mut self,
        alloc: Global,
        statements: &Statements,
        last: &Body,
        run: &[Member],
    ) -> Result<(), AllocError> {
        'items: for member in run {
            if let Some(item) = last.item(member.item) {
                self.put_new(alloc, statements, item)?;
            }
        }
        Ok(())
    }

    fn put_made(
        &mut self,
        alloc: Global,
        group: Group<'_>,
        unit: &Unit,
        standing: Standing,
    ) -> Result<(), AllocError> {
        let woven = self.made(alloc, group, unit.body.as_ref())?;
        if standing.is_first {
            self.put_lead(group.statement)?;
        } else {
            let indent = self.indent(alloc, group.past.statements)?;
            self.begin_new(indent.as_str())?;
        }
        self.text.append(&woven)?;
        if standing.is_last {
            return self.put_trail(group.statement);
        }
        self.at = None;
        self.end_new()
    }
}
