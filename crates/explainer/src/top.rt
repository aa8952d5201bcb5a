//! Which address map is the top, as lines go on.

use rdl_explain_map::stretch::words_from;
use rdl_explain_map::telling::{Telling, told};
use rdl_tree::description::{Description, Item};
use rdl_tree::shell::Kind;
use std::alloc::{AllocError, Global};

/// The name of the last address map that is defined outside of all braces.
fn last_addrmap(description: &Description) -> Option<&str> {
    for item in description.items.as_slice().iter().rev() {
        if let Item::Define(name, component) = item {
            if component.kind == Kind::Addrmap {
                return Some(name.as_str());
            }
        }
    }
    None
}

fn is_blank(byte: u8) -> bool {
    byte == b' ' || byte == b'\t'
}

/// What a line can do to the top.
#[derive(Clone, Copy, Debug, PartialEq, Eq)]
enum Effect {
    /// Nothing: what it changes stands inside a body.
    No,
    /// It may take the top away, or put another one behind it.
    Exchanges,
    /// It gives the top another name, or goes back or on to what was the top before.
    Follows,
}

/// The path of a line, from its first slash on.
fn path_of(line: &[u8]) -> Option<&[u8]> {
    let start = line.iter().position(|byte| *byte == b'/')?;
    let rest = line.get(start..)?;
    let length = rest.iter().take_while(|byte| !is_blank(**byte)).count();
    rest.get(..length)
}

fn slashes_in(path: &[u8]) -> usize {
    path.iter().filter(|byte| **byte == b'/').count()
}

fn effect_of(line: &[u8]) -> Effect {
    match path_of(line) {
        None => Effect::Follows,
        Some(path) if slashes_in(path) > 1 => Effect::No,
        Some(_) if line.starts_with(b"rename") => Effect::Follows,
        Some(_) => Effect::Exchanges,
    }
}

/// The name of the top, as far as there was memory to note it.
#[derive(Debug, Drop)]
pub(crate) struct Top {
    name: Option<String>,
}

impl Top {
    /// Nothing is noted.
    pub(crate) fn new() -> Top {
        Top { name: None }
    }

    fn name(&self) -> Option<&str> {
        match &self.name {
            Some(name) => Some(name.as_str()),
            None => None,
        }
    }

    /// Notes the top of this description.
    pub(crate) fn note(&mut self, alloc: Global, description: &Description) {
        let last = last_addrmap(description);
        if self.name() == last {
            return;
        }
        self.name = match last {
            Some(name) => String::from_str(alloc, name).ok(),
            None => None,
        };
    }

    /// Notes the top behind a line that is done, and answers the one before where the line has exchanged it.
    pub(crate) fn follow(
        &mut self,
        alloc: Global,
        line: &[u8],
        description: &Description,
    ) -> Option<String> {
        let effect = effect_of(line);
        if effect == Effect::No || self.name() == last_addrmap(description) {
            return None;
        }
        let before = self.name.take();
        self.note(alloc, description);
        if effect == Effect::Exchanges {
            before
        } else {
            None
        }
    }
}

/// The warning of a line behind which the top is another than this one.
pub(crate) fn exchanged(
    alloc: Global,
    script: &str,
    number: usize,
    line: &[u8],
    before: &str,
    description: &Description,
) -> Result<String, AllocError> {
    let mut text = Telling::new(alloc, words_from(line, 0), "warning: ")?;
    let now = last_addrmap(description).unwrap_or("");
    write!(
        text.what,
        "after this line the top is `{now}`, and no longer `{before}`"
    )?;
    text.note("the top is the last addrmap outside of all braces; `--top NAME` asks for another")?;
    told(alloc, script, number, line, &text)
}
