//! A whole run of the editor: from the bytes of a map and a script to messages, a map, a header and a status. And a whole
//! comparison of two maps: from their bytes to the lines that say what differs, and a status.
#![tactic(auto)]

mod closing;
pub mod comparison;
pub mod counted;
pub mod edited;
mod front;
pub mod input;
pub mod laws;
pub mod observer;
pub mod open;
pub mod output;
mod outputs;
mod part;
mod reading;
pub mod reply;
mod rows;
pub mod run;
pub mod saved;
mod saving;
mod serve;
mod session_message;
mod shown;
mod sources;
pub mod status;
