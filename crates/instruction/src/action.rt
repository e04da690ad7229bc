// What a decoded instruction is to do.
use super::operand::Operand;
use super::operation::{OneOperation, StringOperation, TwoOperation};
use number::width::Size;

// The length of a string: a number of characters, or the register that holds it.
#[derive(Clone, Copy, PartialEq, Eq, Debug)]
pub enum Length {
    Literal(u8),
    Register(u8),
}

// An operand that is a string, with its length, and how far the length byte lies from the instruction's first byte.
#[derive(Clone, Copy, PartialEq, Eq, Debug)]
pub struct StringOperand {
    pub operand: Operand,
    pub length: Length,
    pub place: u32,
}

// An instruction by value: an operation with its sizes and operands; a branch by its condition and displacement.
//
// Why a u8 for a condition: a caller may give any number, and `Instruction::new` answers which of them are served.
#[derive(Clone, Copy, PartialEq, Eq, Debug)]
pub enum Action {
    Two(TwoOperation, Size, Size, Operand, Operand),
    One(OneOperation, Size, Operand),
    Branch(u8, i32),
    Bsr(i32),
    Rsr,
    Nop,
    Strings(StringOperation, Size, StringOperand, StringOperand),
}
