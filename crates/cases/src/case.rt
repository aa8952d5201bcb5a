//! A case: what a run or a comparison is given, and what is wanted of it.
use crate::heading::Heading;
use rdl_diff::choice::{Format, Severity};
use rdl_diff::moves::Moves;

/// Lines that are wanted: none, or a text to which a last line feed is to be added.
pub type Lines<'a> = Option<&'a str>;

/// What a run is given.
#[derive(Clone, Copy)]
pub struct Given<'a> {
    pub map: Option<&'a str>,
    /// The map with which that is compared; with none a script is run.
    pub new: Option<&'a str>,
    pub script: &'a str,
    pub top: Option<&'a str>,
    pub history: u32,
    /// Which moves are told of two maps.
    pub moves: Moves,
    /// Which lines are told of them.
    pub severity: Severity,
    /// The name of a property whose differences aren't told.
    pub ignored: Option<&'a str>,
    /// How they are written.
    pub format: Format,
}

/// What is wanted of a run. Where nothing is said of a text it may be any.
#[derive(Clone, Copy)]
pub struct Wanted<'a> {
    pub status: Option<u8>,
    pub prints: Option<Lines<'a>>,
    pub writes: Option<Lines<'a>>,
    pub header: Option<Lines<'a>>,
    pub session: Option<Lines<'a>>,
    /// The session as it goes out.
    pub saved: Option<Lines<'a>>,
    /// The whole edited text.
    pub edited: Option<&'a str>,
    /// What is told of its refusals.
    pub told: Option<Lines<'a>>,
    /// The warnings of the map.
    pub warned: Option<Lines<'a>>,
}

/// A case, as far as its headings are read.
#[derive(Clone, Copy)]
pub struct Case<'a> {
    pub words: &'a str,
    pub given: Given<'a>,
    pub wanted: Wanted<'a>,
    /// The name of a heading that can't be read.
    pub mistake: Option<&'a str>,
}

/// Says what is wanted, and answers whether nothing was said of it before.
fn say<'a>(place: &mut Option<Lines<'a>>, lines: Lines<'a>) -> bool {
    let is_first = place.is_none();
    *place = Some(lines);
    is_first
}

impl<'a> Given<'a> {
    fn new(map: Option<&'a str>) -> Given<'a> {
        Given {
            map,
            new: None,
            script: "",
            top: None,
            history: 10_000,
            moves: Moves::Own,
            severity: Severity::Any,
            ignored: None,
            format: Format::Text,
        }
    }

    fn read_history(&mut self, word: &str) -> bool {
        match word.parse::<u32>() {
            Ok(history) => {
                self.history = history;
                true
            }
            Err(_) => false,
        }
    }

    fn read_format(&mut self, word: &str) -> bool {
        self.format = match word {
            "markdown" => Format::Markdown,
            "json" => Format::Json,
            _ => return false,
        };
        true
    }

    /// Reads a heading, and answers whether it is one of these.
    fn read(&mut self, heading: &Heading<'a>) -> bool {
        match heading.name {
            "map" => self.map = Some(heading.text()),
            "new" => self.new = Some(heading.text()),
            "script" => self.script = heading.text(),
            "top" => self.top = Some(heading.word),
            "each" => self.moves = Moves::Each,
            "breaking" => self.severity = Severity::Breaking,
            "ignore" => self.ignored = Some(heading.word),
            "format" => return self.read_format(heading.word),
            "history" => return self.read_history(heading.word),
            _ => return false,
        }
        true
    }
}

impl<'a> Wanted<'a> {
    fn new() -> Wanted<'a> {
        Wanted {
            status: None,
            prints: None,
            writes: None,
            header: None,
            session: None,
            saved: None,
            edited: None,
            told: None,
            warned: None,
        }
    }

    fn read_edited(&mut self, text: &'a str) -> bool {
        let is_first = self.edited.is_none();
        self.edited = Some(text);
        is_first
    }

    fn read_status(&mut self, word: &str) -> bool {
        let is_first = self.status.is_none();
        self.status = word.parse::<u8>().ok();
        is_first && self.status.is_some()
    }

    /// Whether it is wanted of what is told, and not of what is printed and written.
    pub fn is_of_told(&self) -> bool {
        self.told.is_some() || self.warned.is_some()
    }

    /// Reads a heading, and answers whether it is one of these, and the first of its name.
    fn read(&mut self, heading: &Heading<'a>) -> bool {
        match heading.name {
            "status" => self.read_status(heading.word),
            "prints" => say(&mut self.prints, heading.lines),
            "writes" => say(&mut self.writes, heading.lines),
            "header" => say(&mut self.header, heading.lines),
            "session" => say(&mut self.session, heading.lines),
            "saved" => say(&mut self.saved, heading.lines),
            "edited" => self.read_edited(heading.text()),
            "told" => say(&mut self.told, heading.lines),
            "warned" => say(&mut self.warned, heading.lines),
            _ => false,
        }
    }
}

impl<'a> Case<'a> {
    /// A case without a map.
    pub fn new(words: &'a str) -> Case<'a> {
        Case {
            words,
            given: Given::new(None),
            wanted: Wanted::new(),
            mistake: None,
        }
    }

    /// The case that begins behind this one, and has its map until another is read.
    pub fn next(&self, words: &'a str) -> Case<'a> {
        Case {
            words,
            given: Given::new(self.given.map),
            wanted: Wanted::new(),
            mistake: None,
        }
    }

    /// Reads a heading that begins no case.
    pub fn read(&mut self, heading: &Heading<'a>) {
        let is_read = heading.is_formed()
            && (self.given.read(heading) || self.wanted.read(heading));
        if !is_read {
            self.mistake = Some(heading.name);
        }
    }
}
