//! Java's kinds of values and their arithmetic: two's complement that wraps.
#![tactic(auto)]

mod apply;
mod fits;
mod kind;
mod laws;
mod no_memory;
mod op;
mod short_text;
mod size;
mod text;
mod value;
mod whole;

pub use apply::{apply1, apply2, cast};
pub use fits::{can_cast, fits1, fits2, widens};
pub use kind::Kind;
pub use laws::{
    casts_keep_low_bits, division_rounds_toward_zero, least_number_by_minus_one,
    made_channel_names, shifts_mask_their_distance, wrapped_numbers_are_in_range,
};
pub use no_memory::NoMemory;
pub use op::{Op1, Op2};
pub use text::Text;
pub use value::Value;

#[cfg(test)]
mod tests;
