// A session on a board: preset, start, step, run and close.
#![tactic(auto)]

mod attempt;
mod closed;
mod running;
mod setup;

pub use closed::Closed;
pub use running::Running;
pub use setup::Setup;
