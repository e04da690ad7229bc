// Executing instructions: one instruction carried out on the registers, and a step.
#![tactic(auto)]

mod bound;
mod dispatch;
mod one;
mod sized;
mod steps;
mod two;

pub use bound::step_is_bounded;
pub use dispatch::execute;
pub use processor::Cpu;
pub use steps::step;
