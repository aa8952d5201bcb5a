//! Paths of items, as a script writes them.

use rdl_tree::description::{Description, Item};
use rdl_tree::path::Segment;
use std::fmt;

/// The path of the item at an address. An assignment has that of the body in which it stands.
#[derive(Clone, Copy)]
pub struct PathText<'a> {
    pub description: &'a Description,
    pub address: &'a [usize],
}

fn write_name<W: fmt::Write>(f: &mut fmt::Formatter<W>, item: &Item) -> fmt::Result {
    match item {
        Item::Define(name, _) => write!(f, "/${name}"),
        Item::Instance(shell, _) => write!(f, "/{}", shell.name()),
        Item::Own(..) | Item::Default(..) | Item::Dynamic(..) => Ok(()),
    }
}

/// Whether the path of the item at this address is that of the root.
fn is_root(description: &Description, address: &[usize]) -> bool {
    match address {
        [] => true,
        [number] => !matches!(
            description.items.item(*number),
            Some(Item::Define(..) | Item::Instance(..))
        ),
        _ => false,
    }
}

impl fmt::Display for PathText<'_> {
    fn fmt<W: fmt::Write>(&self, f: &mut fmt::Formatter<W>) -> fmt::Result {
        if is_root(self.description, self.address) {
            return f.write_str("/");
        }
        let mut body = Some(&self.description.items);
        for number in self.address {
            let Some(here) = body else {
                return Ok(());
            };
            if let Some(item) = here.item(*number) {
                write_name(f, item)?;
            }
            body = here.inner(*number);
        }
        Ok(())
    }
}

/// A segment as a script writes it.
#[derive(Clone, Copy)]
pub struct SegmentText<'a>(pub &'a Segment);

impl fmt::Display for SegmentText<'_> {
    fn fmt<W: fmt::Write>(&self, f: &mut fmt::Formatter<W>) -> fmt::Result {
        match self.0 {
            Segment::Def(name) => write!(f, "${name}"),
            Segment::Inst(name) => write!(f, "{name}"),
        }
    }
}
