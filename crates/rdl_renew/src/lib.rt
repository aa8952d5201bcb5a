//! What of a body's nodes stays when the body is changed.
#![tactic(auto)]

mod alike;
mod along;
mod anew;
mod apart;
mod component;
pub mod deaf;
mod done;
mod judge;
pub mod laws;
mod look_ups;
pub mod raise;
pub mod renew;
mod same;
pub mod stayed;
