//! A statement of the source with the edits in its words.

use crate::assigned::put_assignment;
use crate::bytes::{are_blanks, behind_blanks, part};
use crate::inst::put_inst;
use crate::lexeme::{Inst, Lexeme, insts, lexemes};
use crate::member::{Member, Past};
use crate::spell::outside_text;
use crate::woven::Woven;
use crate::writer::Writer;
use rdl_source::statement::{Inner, Statement};
use rdl_tree::description::{Body, Item, Of};
use rdl_tree::shell::{Outside, Shell};
use std::alloc::{AllocError, Global};

/// Items of the last map that came from one statement and stand together.
#[derive(Clone, Copy)]
pub(crate) struct Group<'a> {
    pub(crate) source: &'a [u8],
    pub(crate) statement: &'a Statement,
    pub(crate) past: Past<'a>,
    pub(crate) last: &'a Body,
    pub(crate) members: &'a [Member],
    /// Whether none of the statement's items stands before them.
    pub(crate) is_first: bool,
}

/// The shell of an item, if it is an instance.
fn shell_of(body: &Body, number: usize) -> Option<&Shell> {
    match body.item(number) {
        Some(Item::Instance(shell, _)) => Some(shell),
        _ => None,
    }
}

/// The name of an item's type, or of the definition that it is.
pub(crate) fn type_of(body: &Body, number: usize) -> Option<&str> {
    match body.item(number) {
        Some(Item::Define(name, _)) => Some(name.as_str()),
        Some(Item::Instance(_, of)) => named(of),
        _ => None,
    }
}

fn named(of: &Of) -> Option<&str> {
    match of {
        Of::Named(name) => Some(name.as_str()),
        Of::Anonymous(_) => None,
    }
}

pub(crate) fn is_definition(body: &Body, number: usize) -> bool {
    match body.item(number) {
        Some(Item::Define(_, _)) => true,
        _ => false,
    }
}

impl<'a> Group<'a> {
    /// The number of the statement's first item in the source's body.
    fn begin(&self) -> usize {
        match self.members {
            [first, ..] => first.origin.saturating_sub(first.offset),
            [] => 0,
        }
    }

    /// Whether the statement defines a type.
    fn defines(&self) -> bool {
        is_definition(self.past.body, self.begin())
    }

    /// Whether the definition is one of the items.
    fn has_definition(&self) -> bool {
        match self.members {
            [first, ..] => is_definition(self.last, first.item),
            [] => false,
        }
    }

    /// Those that are instances.
    fn instances(&self) -> &'a [Member] {
        match self.members {
            [_, others @ ..] if self.has_definition() => others,
            _ => self.members,
        }
    }

    /// What the statement said of its instances.
    fn old_outside(&self) -> Outside {
        let first = self.begin().saturating_add(usize::from(self.defines()));
        match shell_of(self.past.body, first) {
            Some(shell) => shell.outside(),
            None => Outside::Unsaid,
        }
    }

    /// What it is to say of them.
    fn new_outside(&self) -> Outside {
        match self.instances() {
            [first, ..] => match shell_of(self.last, first.item) {
                Some(shell) => shell.outside(),
                None => Outside::Unsaid,
            },
            [] => Outside::Unsaid,
        }
    }

    fn new_type(&self) -> Option<&'a str> {
        match self.members {
            [first, ..] => type_of(self.last, first.item),
            [] => None,
        }
    }

    fn old_type(&self) -> Option<&'a str> {
        match self.members {
            [first, ..] => type_of(self.past.body, first.origin),
            [] => None,
        }
    }

    /// Writes the instances of the statement, with the words that its INSTs are, from the first one's name on.
    fn put_instances(
        &self,
        alloc: Global,
        writer: &mut Writer<'_>,
        words: &[Lexeme],
        list: &[Inst],
    ) -> Result<bool, AllocError> {
        let shift = usize::from(self.defines());
        let mut is_first = true;
        'instances: for member in self.instances() {
            let number = member.offset.saturating_sub(shift);
            let (Some(inst), Some(old), Some(new)) = (
                list.get(number),
                shell_of(self.past.body, member.origin),
                shell_of(self.last, member.item),
            ) else {
                return Ok(false);
            };
            self.begin_instance(writer, words, *inst, is_first, number == 0)?;
            put_inst(alloc, writer, self.source, words, *inst, old, new)?;
            is_first = false;
        }
        match words.last() {
            Some(semicolon) => {
                writer.skip_to(semicolon.from);
                writer.copy_to(semicolon.to)?;
                Ok(true)
            }
            None => Ok(false),
        }
    }

    /// Goes to the first byte of an INST, and writes the comma before it, unless it is the first one.
    fn begin_instance(
        &self,
        writer: &mut Writer<'_>,
        words: &[Lexeme],
        inst: Inst,
        is_first: bool,
        was_first: bool,
    ) -> Result<(), AllocError> {
        let Some(name) = words.get(inst.name) else {
            return Ok(());
        };
        let begin = match words.get(inst.name.saturating_sub(1)) {
            Some(comma) if !was_first => comma.to,
            _ => name.from,
        };
        if is_first {
            let kept = behind_blanks(part(self.source, begin, name.from));
            writer.skip_to(name.from.saturating_sub(kept.len()));
            return Ok(());
        }
        writer.push(if was_first { ", " } else { "," })?;
        writer.skip_to(begin);
        Ok(())
    }

    /// An assignment.
    fn assignment(&self, alloc: Global) -> Result<Option<Woven>, AllocError> {
        let span = self.statement.words;
        let words = lexemes(alloc, self.source, span.from, span.to)?;
        let [member] = self.members else {
            return Ok(None);
        };
        let (Some(old), Some(new)) = (
            self.past.body.item(member.origin),
            self.last.item(member.item),
        ) else {
            return Ok(None);
        };
        let mut writer = Writer::new(alloc, self.source, span.from);
        put_assignment(alloc, &mut writer, words.as_slice(), old, new)?;
        writer.copy_to(span.to)?;
        let mut woven = Woven::new(alloc);
        woven.push(writer.as_slice())?;
        Ok(Some(woven))
    }

    /// Instances of a named type, of a statement without a body.
    fn named_instances(&self, alloc: Global) -> Result<Option<Woven>, AllocError> {
        let span = self.statement.words;
        let words = lexemes(alloc, self.source, span.from, span.to)?;
        let words = words.as_slice();
        let at = outside_count(words, 0);
        if !self.is_first {
            return self.apart(alloc, words, at.saturating_add(1));
        }
        let mut writer = Writer::new(alloc, self.source, span.from);
        put_outside(
            &mut writer,
            words,
            0,
            self.old_outside(),
            self.new_outside(),
        )?;
        let (Some(word), Some(old), Some(new)) = (words.get(at), self.old_type(), self.new_type())
        else {
            return Ok(None);
        };
        if old != new {
            writer.replace(word.from, word.to, new)?;
        }
        self.with_instances(alloc, writer, words, at.saturating_add(1))
    }

    /// Writes what stands before the first INST, whose name has this number, and the instances.
    fn with_instances(
        &self,
        alloc: Global,
        mut writer: Writer<'_>,
        words: &[Lexeme],
        begin: usize,
    ) -> Result<Option<Woven>, AllocError> {
        let list = insts(alloc, words, begin)?;
        let Some(first) = words.get(begin) else {
            return Ok(None);
        };
        writer.copy_to(first.from)?;
        if !self.put_instances(alloc, &mut writer, words, list.as_slice())? {
            return Ok(None);
        }
        let mut woven = Woven::new(alloc);
        woven.push(writer.as_slice())?;
        Ok(Some(woven))
    }

    /// Instances that stand apart from the definition with which they stood in one statement.
    fn parted_instances(&self, alloc: Global, inner: &Inner) -> Result<Option<Woven>, AllocError> {
        let words = lexemes(alloc, self.source, inner.close, self.statement.words.to)?;
        let words = words.as_slice();
        self.apart(alloc, words, outside_count(words, 1).saturating_add(1))
    }

    /// Instances that stand apart from what stood before them in one statement, where the first INST's name has this number.
    /// The comments before that stay there.
    fn apart(
        &self,
        alloc: Global,
        words: &[Lexeme],
        begin: usize,
    ) -> Result<Option<Woven>, AllocError> {
        let (Some(new), Some(first)) = (self.new_type(), words.get(begin)) else {
            return Ok(None);
        };
        let mut writer = Writer::new(alloc, self.source, first.from);
        writer.push(outside_text(self.new_outside()))?;
        writer.push(new)?;
        writer.push(" ")?;
        self.with_instances(alloc, writer, words, begin)
    }

    /// What stands before the body. Before a copy of it there are no comments: they stand before the first body.
    fn head(
        &self,
        alloc: Global,
        inner: &Inner,
        is_late: bool,
    ) -> Result<Option<Woven>, AllocError> {
        let from = self.statement.words.from;
        let words = lexemes(alloc, self.source, from, inner.open)?;
        let words = words.as_slice();
        let mut writer = Writer::new(alloc, self.source, from);
        if !is_late {
            put_outside(
                &mut writer,
                words,
                0,
                self.old_outside(),
                self.new_outside(),
            )?;
        }
        if self.defines() {
            let at = outside_count(words, 0).saturating_add(1);
            let (Some(word), Some(old), Some(new)) = (
                words.get(at),
                self.old_type(),
                self.new_type(),
            ) else {
                return Ok(None);
            };
            if old != new {
                writer.replace(word.from, word.to, new)?;
            }
        }
        if !self.is_first && !self.defines() {
            leave_comments_out(&mut writer, self.source, words)?;
        }
        writer.copy_to(inner.open)?;
        let mut woven = Woven::new(alloc);
        woven.push(writer.as_slice())?;
        Ok(Some(woven))
    }

    /// What stands behind the body, where no instance is left.
    fn bare_tail(
        &self,
        alloc: Global,
        inner: &Inner,
        words: &[Lexeme],
    ) -> Result<Option<Woven>, AllocError> {
        let mut writer = Writer::new(alloc, self.source, inner.close);
        if words.len() > 2 {
            writer.copy_to(inner.close.saturating_add(1))?;
            writer.skip_to(self.statement.words.to.saturating_sub(1));
        }
        writer.copy_to(self.statement.words.to)?;
        let mut woven = Woven::new(alloc);
        woven.push(writer.as_slice())?;
        Ok(Some(woven))
    }

    /// What stands behind the body.
    fn tail(
        &self,
        alloc: Global,
        inner: &Inner,
        words: &[Lexeme],
    ) -> Result<Option<Woven>, AllocError> {
        if self.instances().is_empty() {
            return self.bare_tail(alloc, inner, words);
        }
        let begin = outside_count(words, 1).saturating_add(1);
        let mut writer = Writer::new(alloc, self.source, inner.close);
        if !self.is_first {
            return self.parted_tail(alloc, writer, words, begin);
        }
        if begin > 1 {
            put_outside(
                &mut writer,
                words,
                1,
                self.old_outside(),
                self.new_outside(),
            )?;
        }
        self.with_instances(alloc, writer, words, begin)
    }

    /// The same behind a copy of the body. Comments before the first INST stand behind the first body.
    fn parted_tail(
        &self,
        alloc: Global,
        mut writer: Writer<'_>,
        words: &[Lexeme],
        begin: usize,
    ) -> Result<Option<Woven>, AllocError> {
        let Some(first) = words.get(begin) else {
            return Ok(None);
        };
        writer.push("} ")?;
        if begin > 1 {
            writer.push(outside_text(self.new_outside()))?;
        }
        writer.skip_to(first.from);
        self.with_instances(alloc, writer, words, begin)
    }

    /// A statement with a body, which has become this.
    fn with_body(
        &self,
        alloc: Global,
        inner: &Inner,
        body: &Woven,
    ) -> Result<Option<Woven>, AllocError> {
        let words = lexemes(alloc, self.source, inner.close, self.statement.words.to)?;
        let words = words.as_slice();
        let Some(mut woven) = self.head(alloc, inner, outside_count(words, 1) > 0)? else {
            return Ok(None);
        };
        let Some(tail) = self.tail(alloc, inner, words)? else {
            return Ok(None);
        };
        woven.append(body)?;
        woven.append(&tail)?;
        Ok(Some(woven))
    }

    /// The statement of these items, whose body, if it has one, has become this. There is none where its words aren't as they
    /// have to be.
    pub(crate) fn text(
        &self,
        alloc: Global,
        body: Option<&Woven>,
    ) -> Result<Option<Woven>, AllocError> {
        match (&self.statement.inside, body) {
            (Some(inner), Some(body)) => self.with_body(alloc, inner, body),
            (Some(inner), None) => self.parted_instances(alloc, inner),
            (None, _) if self.is_of_instances() => self.named_instances(alloc),
            (None, _) => self.assignment(alloc),
        }
    }

    fn is_of_instances(&self) -> bool {
        match self.members {
            [first, ..] => shell_of(self.last, first.item).is_some(),
            [] => false,
        }
    }
}

/// How many words the `external` or `internal` is that may stand at this place: one or none.
fn outside_count(words: &[Lexeme], at: usize) -> usize {
    match words.get(at) {
        Some(word) => usize::from(word.is_outside),
        None => 0,
    }
}

/// Writes the words, with a blank in the place of the comments between two of them.
fn leave_comments_out(
    writer: &mut Writer<'_>,
    source: &[u8],
    words: &[Lexeme],
) -> Result<(), AllocError> {
    'words: for (word, next) in words.iter().zip(words.iter().skip(1)) {
        if !writer.is_past(word.to) && !are_blanks(part(source, word.to, next.from)) {
            writer.replace(word.to, next.from, " ")?;
        }
    }
    Ok(())
}

/// Writes what is said of the instances, where the word for it stands, or would stand, at this place.
fn put_outside(
    writer: &mut Writer<'_>,
    words: &[Lexeme],
    at: usize,
    old: Outside,
    new: Outside,
) -> Result<(), AllocError> {
    if old == new {
        return Ok(());
    }
    let (Some(word), Some(behind)) = (words.get(at), words.get(at.saturating_add(1))) else {
        return Ok(());
    };
    let text = outside_text(new);
    if word.is_outside {
        writer.replace(word.from, behind.from, text)
    } else {
        writer.replace(word.from, word.from, text)
    }
}
