//! The words of a line.
ghost use Rattle.std.specs.Prelude.{◌≡◌, ◌≤◌, reverse, length};
ghost use Rattle.std.specs.List.{prefix_len};
ghost use Rattle.rdl_script.specs.Words.{is_blank, is_space, is_part, trimmed, without_front, first_word, behind_word};

fn is_blank(byte: u8) -> bool
    ensures { result ≡ is_blank byte }
{
    byte == b' ' || (8 < byte && byte < 14)
}

fn is_space(byte: u8) -> bool
    ensures { result ≡ is_space byte }
{
    byte == b' ' || byte == b'\t'
}

fn blanks_before(bytes: &[u8]) -> usize
    ensures count { result ≡ prefix_len is_blank bytes.now }
    ensures within { result ≤ length bytes.now }
{
    bytes.iter().take_while(|byte| is_blank(**byte)).count()
}

fn blanks_behind(bytes: &[u8]) -> usize
    ensures count { result ≡ prefix_len is_blank (reverse bytes.now) }
    ensures within { result ≤ length bytes.now }
{
    bytes
        .iter()
        .rev()
        .take_while(|byte| is_blank(**byte))
        .count()
}

fn spaces_before(bytes: &[u8]) -> usize
    ensures count { result ≡ prefix_len is_space bytes.now }
    ensures within { result ≤ length bytes.now }
{
    bytes.iter().take_while(|byte| is_space(**byte)).count()
}

fn word_len(bytes: &[u8]) -> usize
    ensures count { result ≡ prefix_len is_part bytes.now }
    ensures within { result ≤ length bytes.now }
{
    bytes.iter().take_while(|byte| !is_space(**byte)).count()
}

/// The line without the blanks at its ends.
#[tactic(auto, unfolding(crate::specs::Words::trimmed))]
pub(crate) fn trimmed(line: &[u8]) -> &[u8]
    ensures { result.now ≡ trimmed line.now }
{
    let line = &line[blanks_before(line)..];
    &line[..line.len() - blanks_behind(line)]
}

/// The text without the spaces and tabs before it.
fn without_spaces(text: &str) -> &str
    ensures { result.now ≡ without_front is_space text.now }
{
    &text[spaces_before(text.as_bytes())..]
}

/// The first word, and what stands behind it and the blanks after it.
#[tactic(auto, unfolding(crate::specs::Words::first_word, crate::specs::Words::behind_word))]
pub(crate) fn split_word(text: &str) -> (&str, &str)
    ensures word { result.0.now ≡ first_word text.now }
    ensures behind { result.1.now ≡ behind_word text.now }
{
    let len = word_len(text.as_bytes());
    (&text[..len], without_spaces(&text[len..]))
}
