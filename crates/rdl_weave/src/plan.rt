//! Which items of a body stand in one statement, and the text of the body.

use crate::made::{is_definition, type_of};
use crate::member::{Member, Past, members};
use crate::render::{Page, Room};
use crate::spell::Style;
use crate::woven::Woven;
use rdl_source::statement::Statement;
use rdl_tree::description::{Body, Item};
use rdl_tree::shell::Outside;
use std::alloc::{AllocError, Global};

/// How deep bodies nest, with that of the root.
pub(crate) const LEVELS: u32 = 17;

/// What a text is woven from besides the map.
#[derive(Clone, Copy)]
pub(crate) struct Loom<'a> {
    pub(crate) source: &'a [u8],
    pub(crate) style: Style<'a>,
    /// How many items each item of the last map and what is inside it are.
    pub(crate) sizes: &'a [u64],
    /// Whether statements without a body are spelled anew where they changed.
    pub(crate) is_coarse: bool,
}

/// Items of a body that stand together: one that is new, or those of one statement.
#[derive(Drop)]
pub(crate) struct Unit {
    /// The numbers of the first of them and of the one behind them.
    pub(crate) from: usize,
    pub(crate) to: usize,
    pub(crate) statement: Option<usize>,
    /// Whether they are the whole statement, and no edit changed it.
    pub(crate) is_kept: bool,
    /// What became of the statement's body.
    pub(crate) body: Option<Woven>,
}

/// The body whose units are looked for.
#[derive(Clone, Copy)]
struct View<'a> {
    past: Past<'a>,
    last: &'a Body,
    members: &'a [Member],
}

impl<'a> View<'a> {
    fn statement(&self, member: Member) -> Option<&'a Statement> {
        self.past.statements.as_slice().get(member.statement?)
    }

    /// How many items from this one on are a statement that no edit changed.
    fn kept_count(&self, at: usize) -> Option<usize> {
        let first = self.members.get(at)?;
        let statement = self.statement(*first)?;
        let run = self.members.get(at..at.saturating_add(statement.items))?;
        let mut count = 0usize;
        'items: for member in run {
            if member.statement != first.statement || member.offset != count || !member.is_intact {
                return None;
            }
            count = count.saturating_add(1);
        }
        if count == 0 { None } else { Some(count) }
    }

    fn outside(&self, member: Member) -> Outside {
        match self.last.item(member.item) {
            Some(Item::Instance(shell, _)) => shell.outside(),
            _ => Outside::Unsaid,
        }
    }

    /// Whether the item can stand behind the other in a statement of both, but for their bodies.
    fn may_join(&self, member: Member, next: Member) -> bool {
        member.statement == next.statement
            && member.statement.is_some()
            && !is_definition(self.last, next.item)
            && type_of(self.last, member.item) == type_of(self.last, next.item)
            && (is_definition(self.last, member.item) || self.outside(member) == self.outside(next))
    }
}

/// The text of a body. The source's body stands in this room, and the numbers of the last map's items begin with this one.
#[cycle(weave)]
pub(crate) fn weave_body(
    alloc: Global,
    loom: Loom<'_>,
    room: Room<'_>,
    past: Past<'_>,
    last: &Body,
    begin: u64,
    levels: u32,
) -> Result<Woven, AllocError> {
    let members = members(alloc, past, last, begin, loom.sizes)?;
    let view = View {
        past,
        last,
        members: members.as_slice(),
    };
    let units = units(alloc, loom, view, levels)?;
    let mut page = Page::new(alloc, loom, room, past.statements);
    page.put_units(alloc, past, last, members.as_slice(), units.as_slice())?;
    Ok(page.into_woven())
}

#[cycle(weave)]
fn units(
    alloc: Global,
    loom: Loom<'_>,
    view: View<'_>,
    levels: u32,
) -> Result<Vec<Unit>, AllocError> {
    let mut list = Vec::new(alloc);
    let mut at = 0usize;
    'units: for _ in 0..view.members.len() {
        let Some(member) = view.members.get(at).copied() else {
            break;
        };
        let unit = match view.kept_count(at) {
            Some(count) => Unit {
                from: at,
                to: at.saturating_add(count),
                statement: member.statement,
                is_kept: true,
                body: None,
            },
            None => changed_unit(alloc, loom, view, member, at, levels)?,
        };
        at = unit.to;
        list.push(unit)?;
    }
    Ok(list)
}

/// The unit that begins with this item, which isn't kept.
#[cycle(weave)]
fn changed_unit(
    alloc: Global,
    loom: Loom<'_>,
    view: View<'_>,
    member: Member,
    at: usize,
    levels: u32,
) -> Result<Unit, AllocError> {
    let body = body(alloc, loom, view, member, levels)?;
    let mut to = at.saturating_add(1);
    'others: for _ in 0..view.members.len() {
        let Some(next) = view.members.get(to).copied() else {
            break;
        };
        if !view.may_join(member, next) || !joins(alloc, loom, view, next, body.as_ref(), levels)? {
            break;
        }
        to = to.saturating_add(1);
    }
    Ok(Unit {
        from: at,
        to,
        statement: member.statement,
        is_kept: false,
        body,
    })
}

/// Whether the body of the item became the same as that of another copy.
#[cycle(weave)]
fn joins(
    alloc: Global,
    loom: Loom<'_>,
    view: View<'_>,
    next: Member,
    other: Option<&Woven>,
    levels: u32,
) -> Result<bool, AllocError> {
    match (body(alloc, loom, view, next, levels)?, other) {
        (Some(body), Some(other)) => Ok(body.is_same(other)),
        _ => Ok(true),
    }
}

/// What became of the body of an item's statement, if it has one.
#[cycle(weave)]
fn body(
    alloc: Global,
    loom: Loom<'_>,
    view: View<'_>,
    member: Member,
    levels: u32,
) -> Result<Option<Woven>, AllocError> {
    if levels == 0 {
        return Ok(None);
    }
    let Some(statement) = view.statement(member) else {
        return Ok(None);
    };
    let (Some(inner), Some(last), Some(was), Some(origin)) = (
        &statement.inside,
        view.last.inner(member.item),
        view.past.body.inner(member.origin),
        view.past.origins.as_slice().get(member.origin),
    ) else {
        return Ok(None);
    };
    let past = Past {
        body: was,
        origins: &origin.inside,
        statements: &inner.body,
    };
    let number = member.number.saturating_add(1);
    let room = Room::of(loom.source, statement, inner);
    let woven = weave_body(alloc, loom, room, past, last, number, levels - 1)?;
    Ok(Some(woven))
}
