// What programs print of a board and of the code on it, as values that show themselves.
#![tactic(auto)]

mod action;
mod byte_at;
mod cells;
mod listing;
mod name;
mod region;
mod right;

pub use byte_at::ByteAt;
pub use cells::Rows;
pub use listing::{Line, Listing};
pub use region::{Region, Regions};
pub use right::right_name;
