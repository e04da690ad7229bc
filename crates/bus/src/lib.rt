// What one step may do with the board and the two sheets.
#![tactic(auto)]

mod access;
mod buffer;
mod line;
mod refusal;
mod step;
mod theorems;
mod wide;

pub use access::Bus;
pub use buffer::StoreBuffer;
pub use line::{Line, ReadLine, WriteLine, names};
pub use refusal::Refusal;
pub use step::StepBus;
pub use theorems::{bounds_suffice, sheets_tell_all};
pub use wide::{ask_bytes, fetch_number, put_number};
