//! Texts from outside, as messages show them.
use std::fmt;

/// Whether the character would move a terminal or end a line: a control character of ASCII or of Latin 1.
fn is_control(c: char) -> bool {
    c < ' ' || ('\u{7f}'..='\u{9f}').contains(&c)
}

/// Whether the text has a control character.
pub fn has_control(text: &str) -> bool {
    text.chars().any(is_control)
}

/// A text whose control characters are written as `\n`, `\t` or `\u{1b}`, so that it stays on its line and no terminal obeys it.
#[derive(Clone, Copy, Debug, PartialEq, Eq, Drop)]
pub struct Shown<'a>(pub &'a str);

impl fmt::Display for Shown<'_> {
    fn fmt<W: fmt::Write>(&self, f: &mut fmt::Formatter<W>) -> fmt::Result {
        for c in self.0.chars() {
            match c {
                '\n' => f.write_str("\\n")?,
                '\t' => f.write_str("\\t")?,
                _ if is_control(c) => {
                    let code = c as u32;
                    write!(f, "\\u{{{code:x}}}")?;
                }
                _ => f.write_char(c)?,
            }
        }
        Ok(())
    }
}
