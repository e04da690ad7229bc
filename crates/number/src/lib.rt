// The numbers of a processor: widths, arithmetic, logic, shifts, flags and conditions.
#![tactic(auto)]

pub mod arithmetic;
mod bits;
pub mod flags;
pub mod shift;
pub mod width;
