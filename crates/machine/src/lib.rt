// What a session holds, what may be asked of it, and what a run answers.
#![tactic(auto)]

mod answer;
mod held;
mod questions;

pub use answer::Answer;
pub use held::Machine;
pub use questions::Questions;
