//! What a command line of `regedit` asks for, and why it asks for nothing.
use crate::fault::WordsFault;
use crate::meeting::Meeting;
use rdl_text::name::Name;

/// What a command line asks for.
#[derive(Debug, Drop)]
pub struct Line {
    /// The file of the map to edit.
    pub map: String,
    /// The file of the script.
    pub script: String,
    /// The file to which the edited map is written.
    pub rdl: String,
    /// The file to which its header is written.
    pub header: String,
    /// The name of the top; with none it is the last address map of the root.
    pub top: Option<Name>,
    /// How many changes can be undone.
    pub history: u32,
    /// The file to which the session is written, if it is asked for.
    pub session: Option<String>,
    /// The file to which MAP is written with only the edits woven in, if that is asked for.
    pub edited: Option<String>,
    /// Whether files change only where each line of the script was accepted.
    pub strict: bool,
    /// Whether no refusal is explained on standard error.
    pub quiet: bool,
}

/// Why words are no command line.
#[derive(Debug, Drop)]
pub enum LineFault {
    /// L1 to L4, L6: they are none of any program.
    Words(WordsFault),
    /// L5: two of the paths lead to one file or stream, as far as the words tell.
    Meets(Meeting),
}

impl From<WordsFault> for LineFault {
    ghost use Rattle.command_line.specs.declared.line.LineFault.{LineFault};
    ghost use Rattle.std.specs.Prelude.{◌≡◌};

    ghost from_gives = { λ fault f. f ≡ LineFault.Words fault };

    fn from(fault: WordsFault) -> LineFault {
        LineFault::Words(fault)
    }
}
