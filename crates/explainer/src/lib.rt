//! Why lines, maps, sessions and headers are refused, told as a run goes on.
#![tactic(auto)]

pub mod explainer;
mod line;
mod opening;
mod top;
