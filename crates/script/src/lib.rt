// A line of a job script, and the command that it says.
#![tactic(auto)]

mod command;
mod command_name;
mod digits;
mod fields;
mod line;
mod number;
mod problem;
mod word;

pub use command::{Command, Contents};
pub use command_name::CommandName;
pub use digits::Digits;
pub use line::parse;
pub use problem::Problem;
