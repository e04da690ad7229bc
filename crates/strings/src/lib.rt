// String instructions.
#![tactic(auto)]

mod string;

pub use string::string_instruction;
