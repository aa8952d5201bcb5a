//! What is told of lines and refusals, as they come.

use crate::line::line_fault;
use crate::opening::explain_opening;
use crate::top::{Top, exchanged};
use rdl_edit::map::Map;
use rdl_explain::explain::{Names, explain_line};
use rdl_explain_map::header::explain_header;
use rdl_explain_map::view::{Met, Source};
use rdl_run::observer::{Observer, Scene};
use rdl_run::reply::LineRefusal;
use rdl_text::name::Name;
use rdl_warn::warn::is_odd;
use std::alloc::{AllocError, Global};
use std::io::Write;

/// Of so many refusals each is explained, if it isn't asked to be quiet, and of so many lines that exchange the top each has a warning.
pub const MOST: usize = 20;

/// The map as it was read.
#[derive(Drop)]
enum Reading {
    /// Nothing has asked for it yet.
    Unread,
    /// It is read; there is none where the bytes spell none, or no memory was left.
    Read(Option<Source>),
}

/// Writes why lines, maps, sessions and headers are refused, and which lines exchange the top. Where there is no memory for that, or
/// the output takes nothing, it is left out.
#[derive(Drop)]
pub struct Explainer<'a, W> {
    alloc: Global,
    names: Names<'a>,
    top: Option<&'a str>,
    output: &'a mut W,
    /// How many refusals, and how many exchanges of the top, are told at most.
    most: usize,
    /// How many refusals came.
    refusals: usize,
    /// How many lines exchanged the top.
    exchanges: usize,
    last_top: Top,
    /// Whether the map that the run leaves has a warning.
    is_odd: bool,
    reading: Reading,
}

impl<'a, W: Write> Explainer<'a, W> {
    /// Explains so many refusals of a run over files of these names, with this top if one is asked for.
    pub fn new(
        alloc: Global,
        names: Names<'a>,
        top: Option<&'a str>,
        most: usize,
        output: &'a mut W,
    ) -> Explainer<'a, W> {
        Explainer {
            alloc,
            names,
            top,
            output,
            most,
            refusals: 0,
            exchanges: 0,
            last_top: Top::new(),
            is_odd: false,
            reading: Reading::Unread,
        }
    }

    /// Counts a refusal, and answers whether it is explained.
    fn is_explained(&mut self) -> bool {
        self.refusals = self.refusals.saturating_add(1);
        self.refusals <= self.most
    }

    /// Whether lines may exchange the top, and that is told.
    fn watches_top(&self) -> bool {
        self.most > 0 && self.top.is_none()
    }

    fn read(&mut self, source: Option<&[u8]>) {
        if let Reading::Unread = self.reading {
            self.reading = Reading::Read(read_source(self.alloc, source));
        }
    }

    fn source(&self) -> Option<&Source> {
        match &self.reading {
            Reading::Read(Some(source)) => Some(source),
            Reading::Read(None) | Reading::Unread => None,
        }
    }

    fn met<'m>(&'m self, scene: Scene<'m>) -> Met<'m> {
        Met {
            description: scene.map.description(),
            top: self.top,
            source: self.source(),
        }
    }

    fn tell(&mut self, text: Result<String, AllocError>) {
        if let Ok(text) = text {
            let _ = write!(self.output, "{}", text.as_str());
        }
    }

    /// Says how many more there are of a sort that isn't told to its end, if any of it was told.
    fn count_more(&mut self, count: usize, what: &str) {
        let more = count.saturating_sub(self.most);
        let script = self.names.script;
        if self.most > 0 && more > 0 {
            let _ = writeln!(self.output, "{script}: {more} more lines {what}");
        }
    }

    /// Says how many lines were not told of, if some were. Answers whether the map that the run leaves has a warning.
    pub fn finish(&mut self) -> bool {
        self.count_more(self.exchanges, "make another addrmap the top");
        self.count_more(self.refusals, "are refused");
        self.is_odd
    }
}

fn read_source(alloc: Global, source: Option<&[u8]>) -> Option<Source> {
    match Source::of(alloc, source?) {
        Ok(source) => source,
        Err(_) => None,
    }
}

impl<W: Write> Observer for Explainer<'_, W> {
    fn map_opened(&mut self, map: &Map) {
        if self.watches_top() {
            self.last_top.note(self.alloc, map.description());
        }
    }

    fn line_done(&mut self, number: usize, line: &[u8], map: &Map) {
        if !self.watches_top() {
            return;
        }
        let description = map.description();
        let Some(before) = self.last_top.follow(self.alloc, line, description) else {
            return;
        };
        self.exchanges = self.exchanges.saturating_add(1);
        if self.exchanges <= self.most {
            let script = self.names.script;
            let text = exchanged(
                self.alloc,
                script,
                number,
                line,
                before.as_str(),
                description,
            );
            self.tell(text);
        }
    }

    fn map_left(&mut self, map: &Map) {
        self.is_odd = self.most > 0 && is_odd(self.alloc, map.description());
    }

    fn line_refused(
        &mut self,
        number: usize,
        line: &[u8],
        refusal: &LineRefusal,
        scene: Scene<'_>,
    ) {
        if !self.is_explained() {
            return;
        }
        if let LineRefusal::Edit(_) = refusal {
            self.read(scene.source);
        }
        let met = self.met(scene);
        let text = explain_line(
            self.alloc,
            self.names,
            number,
            line,
            line_fault(refusal),
            met,
        );
        self.tell(text);
    }

    fn map_refused(&mut self, bytes: &[u8], top: Option<&Name>) {
        if self.is_explained() {
            let text = explain_opening(self.alloc, self.names.map, bytes, top);
            self.tell(text);
        }
    }

    fn header_clashes(&mut self, name: &str, scene: Scene<'_>) {
        if self.most == 0 {
            return;
        }
        self.read(scene.source);
        let met = self.met(scene);
        let text = explain_header(self.alloc, self.names.map, name, met);
        self.tell(text);
    }
}
