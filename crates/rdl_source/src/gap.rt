//! What stands between two words, cut into what belongs to the statement before, to the body, and to the statement behind.
ghost use Rattle.std.specs.Prelude.{◌≡◌, ◌+◌, ◌≤◌, length, slice_index, IfSome};
ghost use Rattle.rdl_text.specs.Words as words;
ghost use Rattle.rdl_source.specs.Gap as spec;
ghost use Rattle.rdl_source.specs.Gap.{begun, line_ended, comment_ended, trail_end, float_end, parts_of, gap_parts};

use memchr::memchr;

/// What a gap stands behind.
#[derive(Clone, Copy, Debug, PartialEq, Eq)]
pub enum Left {
    /// The text's begin.
    Begin,
    /// A word, which the rest of its line belongs to.
    Word,
}

/// What stands behind a gap.
#[derive(Clone, Copy, Debug, PartialEq, Eq)]
pub enum Right {
    /// The first word of a statement.
    Statement,
    /// The brace that ends a body, or the text's end.
    End,
}

/// How many bytes each part of a gap has. They stand one behind another, and are the whole gap.
#[derive(Clone, Copy, Debug, PartialEq, Eq)]
pub struct Parts {
    /// What belongs to the word before: the rest of its line, with the line feed.
    pub trail: usize,
    /// What belongs to no statement.
    pub float: usize,
    /// What belongs to the statement behind: what stands behind the last blank line.
    pub lead: usize,
}

/// What is known of a gap up to a byte.
#[derive(Clone, Copy)]
pub(crate) struct Scan {
    /// Where its first line ends, behind the line feed.
    pub(crate) line: Option<usize>,
    /// Where its last blank line ends, or the first line where it has none.
    pub(crate) blank: usize,
    /// Whether the line so far is blank.
    pub(crate) is_blank: bool,
    /// Where its last comment ends.
    pub(crate) comment: usize,
}

/// The byte at an index, or 0 past the end.
#[inline]
pub(crate) fn byte_at(bytes: &[u8], index: usize) -> u8
    ensures { result ≡ slice_index bytes.now index }
{
    bytes.get(index).copied().unwrap_or(0)
}

#[inline]
fn is_blank(byte: u8) -> bool
    ensures { result ≡ words.is_blank byte }
{
    byte == b' ' || (byte > 8 && byte < 14)
}

/// How many bytes stand before the next line feed, or the end.
fn line_len(bytes: &[u8]) -> usize
    ensures len { result ≡ spec.line_len bytes.now }
    ensures within { result ≤ length bytes.now }
{
    match memchr(b'\n', bytes) {
        Some(len) => len,
        None => bytes.len(),
    }
}

/// How many bytes stand before the next `*/`.
fn comment_end(bytes: &[u8]) -> Option<usize>
    ensures place { result ≡ words.comment_end bytes.now }
    ensures within { IfSome result (λ n. n + 2 ≤ length bytes.now) }
{
    let mut at = 0;
    'slashes: while at < bytes.len() {
        let Some(len) = memchr(b'/', &bytes[at..]) else {
            return None;
        };
        let slash = at + len;
        if len > 0 && bytes[slash - 1] == b'*' {
            return Some(slash - 1);
        }
        at = slash + 1;
    }
    None
}

/// How many bytes the comment has with which a text begins; 0 where it begins with none.
#[tactic(auto, using(crate::proofs::Scanning::within_from_byte), unfolding(crate::specs::Gap::comment_len))]
fn comment_len(bytes: &[u8]) -> usize
    ensures len { result ≡ spec.comment_len bytes.now }
    ensures within { result ≤ length bytes.now }
{
    if byte_at(bytes, 0) != b'/' {
        return 0;
    }
    match byte_at(bytes, 1) {
        b'/' => 2 + line_len(&bytes[2..]),
        b'*' => match comment_end(&bytes[2..]) {
            Some(len) => len + 4,
            None => 0,
        },
        _ => 0,
    }
}

impl Scan {
    fn new(left: Left) -> Scan
        ensures { result ≡ begun left }
    {
        match left {
            Left::Begin => Scan {
                line: Some(0),
                blank: 0,
                is_blank: true,
                comment: 0,
            },
            Left::Word => Scan {
                line: None,
                blank: 0,
                is_blank: false,
                comment: 0,
            },
        }
    }

    /// The same behind a line feed that ends at this byte.
    fn line_ended(self, end: usize) -> Scan
        ensures { result ≡ line_ended end self.line self }
    {
        match self.line {
            None => Scan {
                line: Some(end),
                blank: end,
                is_blank: true,
                comment: self.comment,
            },
            Some(line) => Scan {
                line: Some(line),
                blank: if self.is_blank { end } else { self.blank },
                is_blank: true,
                comment: self.comment,
            },
        }
    }

    /// The same behind a comment that ends at this byte.
    fn comment_ended(self, end: usize) -> Scan
        ensures { result ≡ comment_ended end self }
    {
        Scan {
            line: self.line,
            blank: self.blank,
            is_blank: false,
            comment: end,
        }
    }

    /// Where the trail ends.
    fn trail_end(self, right: Right) -> usize
        ensures { result ≡ trail_end right self.comment self.line }
    {
        match self.line {
            Some(end) => end,
            None => match right {
                Right::Statement => 0,
                Right::End => self.comment,
            },
        }
    }

    /// Where the float ends in a gap of so many bytes.
    fn float_end(self, right: Right, len: usize) -> usize
        ensures { result ≡ float_end right len self.blank }
    {
        match right {
            Right::Statement => self.blank,
            Right::End => len,
        }
    }

    /// The parts of a gap of so many bytes, all of which have been seen.
    fn parts(self, right: Right, len: usize) -> Parts
        requires trail { trail_end right self.comment self.line ≤ float_end right len self.blank }
        requires float { float_end right len self.blank ≤ len }
        ensures parts { result ≡ parts_of right len self }
        ensures whole { result.trail + result.float + result.lead ≡ len }
    {
        let trail = self.trail_end(right);
        let float = self.float_end(right, len);
        Parts {
            trail,
            float: float - trail,
            lead: len - float,
        }
    }
}

/// The parts of a gap. There are none where a word stands in it.
///
/// Its first line, with the line feed, belongs to the word before it: it is the trail. Where the next statement stands on
/// that line, there is no trail; where a body ends on it, the trail goes up to the end of its last comment. What stands
/// behind the last blank line of the rest belongs to the statement behind: it is the lead. Line feeds in comments don't
/// count. What is between, or all of the rest where a body ends behind it, belongs to none: it is the float.
#[tactic(auto, unfolding(crate::specs::Gap::gap_parts))]
pub fn split_gap(gap: &[u8], left: Left, right: Right) -> Option<Parts>
    ensures parts { result ≡ gap_parts left right gap.now }
    ensures whole { IfSome result (λ p. p.trail + p.float + p.lead ≡ length gap.now) }
{
    let mut at = 0;
    let mut scan = Scan::new(left);
    'pieces: while at < gap.len() {
        if gap[at] == b'\n' {
            at += 1;
            scan = scan.line_ended(at);
        } else if is_blank(gap[at]) {
            at += 1;
        } else {
            let len = comment_len(&gap[at..]);
            if len == 0 {
                return None;
            }
            at += len;
            scan = scan.comment_ended(at);
        }
    }
    Some(scan.parts(right, gap.len()))
}
