// Boards that are put together while a program runs: they own what they are made of.
#![tactic(auto)]

mod bank;
mod made;
mod stack;

pub use made::{Assembly, Uncut};
pub use stack::{CutError, Stack};
