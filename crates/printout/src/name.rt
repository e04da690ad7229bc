// Instructions by name.
ghost use Rattle.std.specs.Prelude.{◌≡◌, Some};
ghost use Rattle.printout.specs.Instructions.{two_word, one_word, branch_name as branch_name_of};

use instruction::{OneOperation, TwoOperation};
use number::width::Size;
use std::fmt;

// An instruction of two operands with the letters of its sizes: extensions have both, addresses the source's, all others
// the destination's.
#[derive(Clone, Copy)]
pub(crate) struct TwoName(pub TwoOperation, pub Size, pub Size);

impl fmt::Display for TwoName {
    ghost output = { λ n. Some (two_word n.0 n.1 n.2) };

    fn fmt<W: fmt::Write>(&self, f: &mut fmt::Formatter<W>) -> fmt::Result {
        let TwoName(operation, from, to) = *self;
        match operation {
            TwoOperation::Movs | TwoOperation::Movz => write!(f, "{operation}.{from}{to}"),
            TwoOperation::Movea => write!(f, "{operation}.{from}"),
            _ => write!(f, "{operation}.{to}"),
        }
    }
}

// An instruction of one operand. Those that work on words alone, or on an address, have no letter.
#[derive(Clone, Copy)]
pub(crate) struct OneName(pub OneOperation, pub Size);

impl fmt::Display for OneName {
    ghost output = { λ n. Some (one_word n.0 n.1) };

    fn fmt<W: fmt::Write>(&self, f: &mut fmt::Formatter<W>) -> fmt::Result {
        let OneName(operation, size) = *self;
        match operation {
            OneOperation::Inc | OneOperation::Dec | OneOperation::Test => {
                write!(f, "{operation}.{size}")
            }
            OneOperation::Push | OneOperation::Pop | OneOperation::Jmp | OneOperation::Jsr => {
                write!(f, "{operation}")
            }
        }
    }
}

// A branch by its condition, of whose number the low four bits count. The eleventh is not served.
// Why a function of a u8, and no Display: an Action has a condition so, and a struct round it would be made for its name alone.
pub(crate) fn branch_name(condition: u8) -> &'static str
    ensures { result.now ≡ branch_name_of condition }
{
    match condition % 16 {
        0 => "bv",
        1 => "bnv",
        2 => "bl",
        3 => "bnl",
        4 => "be",
        5 => "bne",
        6 => "bnh",
        7 => "bh",
        8 => "bn",
        9 => "bp",
        10 => "br",
        12 => "blt",
        13 => "bge",
        14 => "ble",
        15 => "bgt",
        _ => "",
    }
}
