// Whole lists of calls on a session, and what is promised of each.
#![tactic(auto)]

mod call;
mod list;
mod vouch;
mod worked;

pub use call::{Call, Lines, Reply};
pub use list::Session;
pub use vouch::{closed_vouched, running_vouched};
pub use worked::worked_steps_agree;
