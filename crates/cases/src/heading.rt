//! The headings of a file of cases.

/// A heading, with the lines behind it.
#[derive(Clone, Copy)]
pub struct Heading<'a> {
    pub name: &'a str,
    /// What stands on its line behind its name, or nothing.
    pub word: &'a str,
    /// The lines up to the next heading, without the last line feed.
    pub lines: Option<&'a str>,
}

impl<'a> Heading<'a> {
    /// The heading that a text begins with, which has no `%` before it.
    pub fn new(text: &'a str) -> Heading<'a> {
        let (line, lines) = match text.split_once("\n") {
            Some((line, lines)) => (line, Some(lines)),
            None => (text, None),
        };
        let (name, word) = line.split_once(" ").unwrap_or((line, ""));
        Heading { name, word, lines }
    }

    /// Whether the heading has a word and no lines, no word, or neither, as its name asks.
    pub fn is_formed(&self) -> bool {
        match self.name {
            "top" | "ignore" | "format" | "history" | "status" => !self.word.is_empty()
                && self.lines.is_none(),
            "each" | "breaking" => self.word.is_empty() && self.lines.is_none(),
            _ => self.word.is_empty(),
        }
    }

    /// The lines as a map or a script, to which the last line feed doesn't belong.
    pub fn text(&self) -> &'a str {
        self.lines.unwrap_or("")
    }
}

/// The file from its first heading on, without the `%` there and without the last line feed.
pub fn headings(file: &str) -> &str {
    let file = file.strip_suffix("\n").unwrap_or(file);
    match file.strip_prefix("%") {
        Some(headings) => headings,
        None => match file.split_once("\n%") {
            Some((_, headings)) => headings,
            None => "",
        },
    }
}
