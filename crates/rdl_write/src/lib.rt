//! The texts that are written of a register map.
#![tactic(auto)]

mod assignment;
mod backwards;
mod instance;
mod map;
mod number;

pub use assignment::{push_names, push_value};
pub use instance::{kind_text, push_dims};
pub use map::{
    close_definition, close_instance, open_definition, open_instance, push_dynamic, push_item,
    push_named, push_own, rdl,
};
pub use number::{
    push_decimal, push_decimal_end, push_hexadecimal, push_hexadecimal_end, push_high_low,
};
