// Firmware image files: raw bytes, Intel HEX and Motorola S-records, read as bytes at addresses.
#![tactic(auto)]

mod digits;
mod extent;
mod fault;
mod intel;
mod lines;
mod memory;
mod motorola;
mod notation;
mod reader;
mod record;
mod tell;

pub use extent::{Extent, measure};
pub use fault::{Fault, Problem};
pub use memory::fill;
pub use notation::Notation;
pub use tell::notation_of;
