//! Strings as they are printed.
ghost use Rattle.std.specs.Prelude.{◌≡◌, ◌++◌, string_bytes, encode_utf8, OnOk};
ghost use Rattle.rdl_diff.specs.Escaped.{escaped, shown};

use std::alloc::AllocError;

/// Appends a character of a string as it is printed.
#[tactic(auto, unfolding(crate::specs::Escaped::shown))]
fn push_shown(text: &mut String, c: char) -> Result<(), AllocError>
    ensures { OnOk result (string_bytes text.new ≡ string_bytes text.old ++ shown c (encode_utf8 c)) }
{
    match c {
        '\n' => text.push_str("\\n"),
        '\t' => text.push_str("\\t"),
        '"' => text.push_str("\\\""),
        '\\' => text.push_str("\\\\"),
        _ if c.is_ascii_control() => {
            let code = c as u32;
            write!(text, "\\x{:X}{:X}", code / 16, code % 16)
        }
        _ => text.push(c),
    }
}

/// Appends the text of a string as it is printed.
pub(crate) fn push_escaped(text: &mut String, string: &str) -> Result<(), AllocError>
    ensures { OnOk result (string_bytes text.new ≡ string_bytes text.old ++ escaped string.now) }
{
    'chars: for c in string.chars() {
        push_shown(text, c)?;
    }
    Ok(())
}
