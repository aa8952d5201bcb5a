//! What is told of two maps, and how.
use crate::moves::Moves;
use rdl_tree::property::Property;

/// Which lines are told.
#[derive(Clone, Copy, Debug, PartialEq, Eq)]
pub enum Severity {
    /// All.
    Any,
    /// Those alone that tell of what breaks software.
    Breaking,
}

/// How the lines are written.
#[derive(Clone, Copy, Debug, PartialEq, Eq)]
pub enum Format {
    /// As lines of text.
    Text,
    /// As a table in Markdown, with a head where there is a row.
    Markdown,
    /// As objects in JSON, one on each line.
    Json,
}

/// What is told of two maps, and how.
#[derive(Debug, Drop)]
pub struct Choice {
    pub moves: Moves,
    pub severity: Severity,
    /// The properties whose differences aren't told.
    pub ignored: Vec<Property>,
    pub format: Format,
}
