// Operations and operands as they stand in assembly code.
ghost use Rattle.std.specs.Prelude.{Some};
ghost use Rattle.instruction.specs.Text.{two_name, one_name, string_name, signed_text, displaced_text, address_text, operand_text, length_text, string_text};

use super::action::{Length, StringOperand};
use super::operand::{Address, Base, Operand};
use super::operation::{OneOperation, StringOperation, TwoOperation};
use std::fmt::{self, Display, Formatter, Write};

impl Display for TwoOperation {
    ghost output = { λ operation. Some (two_name operation) };

    fn fmt<W: Write>(&self, f: &mut Formatter<W>) -> fmt::Result {
        f.write_str(match self {
            TwoOperation::Mov => "mov",
            TwoOperation::Movs => "movs",
            TwoOperation::Movz => "movz",
            TwoOperation::Movea => "movea",
            TwoOperation::Add => "add",
            TwoOperation::Addc => "addc",
            TwoOperation::Sub => "sub",
            TwoOperation::Subc => "subc",
            TwoOperation::Cmp => "cmp",
            TwoOperation::Neg => "neg",
            TwoOperation::And => "and",
            TwoOperation::Or => "or",
            TwoOperation::Xor => "xor",
            TwoOperation::Not => "not",
            TwoOperation::Shl => "shl",
            TwoOperation::Sha => "sha",
            TwoOperation::Rot => "rot",
        })
    }
}

impl Display for OneOperation {
    ghost output = { λ operation. Some (one_name operation) };

    fn fmt<W: Write>(&self, f: &mut Formatter<W>) -> fmt::Result {
        f.write_str(match self {
            OneOperation::Inc => "inc",
            OneOperation::Dec => "dec",
            OneOperation::Test => "test",
            OneOperation::Push => "push",
            OneOperation::Pop => "pop",
            OneOperation::Jmp => "jmp",
            OneOperation::Jsr => "jsr",
        })
    }
}

impl Display for StringOperation {
    ghost output = { λ operation. Some (string_name operation) };

    fn fmt<W: Write>(&self, f: &mut Formatter<W>) -> fmt::Result {
        f.write_str(match self {
            StringOperation::Movc => "movcu",
            StringOperation::Movcf => "movcfu",
            StringOperation::Movcs => "movcs",
        })
    }
}

// A number in hexadecimal, with its sign before it.
#[derive(Clone, Copy)]
struct Signed(i32);

impl Display for Signed {
    ghost output = { λ number. Some (signed_text number.0) };

    fn fmt<W: Write>(&self, f: &mut Formatter<W>) -> fmt::Result {
        let distance = self.0.unsigned_abs();
        if self.0 < 0 {
            write!(f, "-0x{distance:x}")
        } else {
            write!(f, "0x{distance:x}")
        }
    }
}

// A displacement with its base; from zero it is an address.
#[derive(Clone, Copy)]
struct Displaced(Base, i32);

impl Display for Displaced {
    ghost output = { λ place. Some (displaced_text place.0 place.1) };

    fn fmt<W: Write>(&self, f: &mut Formatter<W>) -> fmt::Result {
        let displacement = Signed(self.1);
        let address = self.1.cast_unsigned();
        match self.0 {
            Base::Register(n) => write!(f, "{displacement}[r{n}]"),
            Base::Pc => write!(f, "{displacement}[pc]"),
            Base::Zero => write!(f, "/0x{address:x}"),
        }
    }
}

impl Display for Address {
    ghost output = { λ address. Some (address_text address) };

    fn fmt<W: Write>(&self, f: &mut Formatter<W>) -> fmt::Result {
        match *self {
            Address::Indirect(n) => write!(f, "[r{n}]"),
            Address::Displaced(base, displacement) => {
                let place = Displaced(base, displacement);
                write!(f, "{place}")
            }
            Address::Deferred(base, displacement) => {
                let place = Displaced(base, displacement);
                write!(f, "[{place}]")
            }
        }
    }
}

impl Display for Operand {
    ghost output = { λ operand. Some (operand_text operand) };

    fn fmt<W: Write>(&self, f: &mut Formatter<W>) -> fmt::Result {
        match *self {
            Operand::Register(n) => write!(f, "r{n}"),
            Operand::Immediate(value) => write!(f, "#0x{value:x}"),
            Operand::Memory(address) => write!(f, "{address}"),
            Operand::Indexed(address, x) => write!(f, "{address}(r{x})"),
            Operand::Double(base, inner, outer) => {
                let place = Displaced(base, inner);
                let displacement = Signed(outer);
                write!(f, "{displacement}[{place}]")
            }
            Operand::Increment(n) => write!(f, "[r{n}+]"),
            Operand::Decrement(n) => write!(f, "[-r{n}]"),
        }
    }
}

impl Display for Length {
    ghost output = { λ length. Some (length_text length) };

    fn fmt<W: Write>(&self, f: &mut Formatter<W>) -> fmt::Result {
        match *self {
            Length::Literal(n) => write!(f, "#0x{n:x}"),
            Length::Register(n) => write!(f, "r{n}"),
        }
    }
}

impl Display for StringOperand {
    ghost output = { λ string. Some (string_text string) };

    fn fmt<W: Write>(&self, f: &mut Formatter<W>) -> fmt::Result {
        let operand = self.operand;
        let length = self.length;
        write!(f, "{operand}, {length}")
    }
}
