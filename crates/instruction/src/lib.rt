// Instructions as values, and the decoder.
#![tactic(auto)]

mod action;
mod bound;
mod format;
mod instruction;
mod make;
mod mode;
mod opcode;
mod operand;
mod operands;
mod operation;
mod part;
mod text;

pub use action::{Action, Length, StringOperand};
pub use bound::fetches_at_most_22;
pub use format::decode_at;
pub use instruction::{Instruction, decode};
pub use make::admit;
pub use mode::{Misfit, Mode, Shape, immediate_verdict, mode_of, plain_mode, register_verdict};
pub use opcode::{Entry, look_up};
pub use operand::{Address, Base, Operand};
pub use operands::{displacement, locate, operand_at, permit};
pub use operation::{Access, OneOperation, StringOperation, TwoOperation};
pub use part::Part;
