//! What a person needs beside a message of a line of a script: the place as editors read it, what is meant, the line with a
//! mark, where the other part stands, and the cure.
#![tactic(auto)]

mod command;
mod edit;
pub mod explain;
mod fixed;
mod marks;
mod operand;
mod request;
mod taken;
mod through;
mod usage;
mod uses;
