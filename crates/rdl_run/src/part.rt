//! One of the texts that a run makes.
ghost use Rattle.std.specs.Prelude.{◌≡◌, [], string_bytes, true, false};

use std::alloc::Global;

/// A text to write, or what is said in its place.
#[derive(Debug, Drop)]
pub struct Part {
    /// It is empty where the text is left out.
    pub text: String,
    /// It is empty where the text is made.
    pub message: String,
    pub is_left_out: bool,
}

impl Part {
    pub fn made(alloc: Global, text: String) -> Part
        ensures text { string_bytes result.text ≡ string_bytes text }
        ensures message { string_bytes result.message ≡ [] }
        ensures made { result.is_left_out ≡ false }
    {
        Part {
            text,
            message: String::new(alloc),
            is_left_out: false,
        }
    }

    pub fn left_out(alloc: Global, message: String) -> Part
        ensures text { string_bytes result.text ≡ [] }
        ensures message { string_bytes result.message ≡ string_bytes message }
        ensures left_out { result.is_left_out ≡ true }
    {
        Part {
            text: String::new(alloc),
            message,
            is_left_out: true,
        }
    }
}
