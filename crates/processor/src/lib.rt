// The processor: registers, operands and what operations come to.
#![tactic(auto)]

mod cpu;
mod operand;
mod operation;
mod sized;

pub use cpu::Cpu;
pub use operand::{Found, Location, displaced, locate, pointer};
pub use operation::{moved, of_width, result};
