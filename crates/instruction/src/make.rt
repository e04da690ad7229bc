// Making instructions: what a caller may make, and what the decoder makes.
ghost use Rattle.std.specs.Prelude.{◌≡◌};
ghost use Rattle.number.specs.Words.{fits};
ghost use Rattle.instruction.specs.Lawful.{base_named, address_named, operand_named, length_named, string_named, registers_named, writes as writes_of, is_immediate, immediate_written, operand_taken, sizes_served, size_served, length_taken, string_taken, action_taken, admitted};

use super::action::{Action, Length, StringOperand};
use super::mode::{immediate_verdict, register_verdict};
use super::operand::{Address, Base, Operand};
use super::operation::{Access, OneOperation, TwoOperation};
use bus::Refusal;
use number::width::Size;

impl Base {
    // Whether no register of the base is above 31.
    fn is_named(self) -> bool
        ensures { result ≡ base_named self }
    {
        match self {
            Base::Register(n) => n < 32,
            Base::Pc | Base::Zero => true,
        }
    }
}

impl Address {
    // Whether no register of the address is above 31.
    fn is_named(self) -> bool
        ensures { result ≡ address_named self }
    {
        match self {
            Address::Indirect(n) => n < 32,
            Address::Displaced(base, _) | Address::Deferred(base, _) => base.is_named(),
        }
    }
}

impl Operand {
    // Whether no register of the operand is above 31.
    fn is_named(self) -> bool
        ensures { result ≡ operand_named self }
    {
        match self {
            Operand::Register(n) | Operand::Increment(n) | Operand::Decrement(n) => n < 32,
            Operand::Immediate(_) => true,
            Operand::Memory(address) => address.is_named(),
            Operand::Indexed(address, x) => address.is_named() && x < 32,
            Operand::Double(base, _, _) => base.is_named(),
        }
    }

    // Whether the operand is an immediate.
    fn is_immediate(self) -> bool
        ensures { result ≡ is_immediate self }
    {
        matches!(self, Operand::Immediate(_))
    }

    // Whether an instruction takes the operand, at that size, accessed in that way.
    fn is_taken(self, access: Access, size: Size) -> bool
        ensures { result ≡ operand_taken access size self }
    {
        match self {
            Operand::Register(n) => register_verdict(access, size, n).is_ok(),
            Operand::Immediate(value) => {
                let narrow = match size {
                    Size::Byte => u8::try_from(value).is_ok(),
                    Size::Halfword => u16::try_from(value).is_ok(),
                    Size::Word | Size::Doubleword => true,
                };
                immediate_verdict(access, size).is_ok() && narrow
            }
            _ => true,
        }
    }
}

impl Length {
    // Whether no register of the length is above 31.
    fn is_named(self) -> bool
        ensures { result ≡ length_named self }
    {
        match self {
            Length::Literal(_) => true,
            Length::Register(n) => n < 32,
        }
    }

    // Whether a length byte can give it.
    fn is_taken(self) -> bool
        ensures { result ≡ length_taken self }
    {
        match self {
            Length::Literal(n) => n < 128,
            Length::Register(_) => true,
        }
    }
}

impl StringOperand {
    // Whether no register of the operand or of its length is above 31.
    fn is_named(self) -> bool
        ensures { result ≡ string_named self }
    {
        self.operand.is_named() && self.length.is_named()
    }

    // Whether an instruction of `length` bytes takes it.
    fn is_taken(self, size: Size, length: u32) -> bool
        ensures { result ≡ string_taken size length self }
    {
        self.operand.is_taken(Access::Address, size)
            && (self.length.is_taken() && self.place < length)
    }
}

impl Access {
    // Whether it writes the operand.
    fn writes(self) -> bool
        ensures { result ≡ writes_of self }
    {
        matches!(self, Access::Write | Access::Modify)
    }
}

impl TwoOperation {
    // Whether it is served at these sizes, in bytes.
    fn is_served(self, first: u32, second: u32) -> bool
        ensures { result ≡ sizes_served self first second }
    {
        match self {
            TwoOperation::Mov => first == second,
            TwoOperation::Movs | TwoOperation::Movz => first < second && second < 8,
            TwoOperation::Movea => first < 8 && second == 4,
            TwoOperation::Shl | TwoOperation::Sha | TwoOperation::Rot => first == 1 && second < 8,
            _ => first == second && second < 8,
        }
    }
}

impl OneOperation {
    // Whether it is served at this size, in bytes.
    fn is_served(self, size: u32) -> bool
        ensures { result ≡ size_served self size }
    {
        match self {
            OneOperation::Inc | OneOperation::Dec | OneOperation::Test => size < 8,
            OneOperation::Push | OneOperation::Pop => size == 4,
            OneOperation::Jmp | OneOperation::Jsr => size == 1,
        }
    }
}

// Whether the displacement fits in 16 bits.
fn is_halfword(displacement: i32) -> bool
    ensures { result ≡ fits 16 displacement }
{
    i16::try_from(displacement).is_ok()
}

impl Action {
    // Whether no register of the action is above 31.
    fn is_named(self) -> bool
        ensures { result ≡ registers_named self }
    {
        match self {
            Action::Two(_, _, _, first, second) => first.is_named() && second.is_named(),
            Action::One(_, _, operand) => operand.is_named(),
            Action::Strings(_, _, first, second) => first.is_named() && second.is_named(),
            Action::Branch(_, _) | Action::Bsr(_) | Action::Rsr | Action::Nop => true,
        }
    }

    // Whether an immediate stands where the action writes.
    fn writes_immediate(self) -> bool
        ensures { result ≡ immediate_written self }
    {
        match self {
            Action::Two(operation, _, _, _, second) => {
                operation.second_access().writes() && second.is_immediate()
            }
            Action::One(operation, _, operand) => {
                operation.access().writes() && operand.is_immediate()
            }
            _ => false,
        }
    }

    // Whether some encoding of `length` bytes could have given the action.
    fn is_taken(self, length: u32) -> bool
        ensures { result ≡ action_taken self length }
    {
        match self {
            Action::Two(operation, s, t, first, second) => {
                operation.is_served(s.bytes(), t.bytes())
                    && (first.is_taken(operation.first_access(), s)
                        && second.is_taken(operation.second_access(), t))
            }
            Action::One(operation, s, operand) => {
                operation.is_served(s.bytes()) && operand.is_taken(operation.access(), s)
            }
            Action::Branch(condition, displacement) => {
                condition < 16 && (condition != 11 && is_halfword(displacement))
            }
            Action::Bsr(displacement) => is_halfword(displacement),
            Action::Rsr | Action::Nop => true,
            Action::Strings(_, s, first, second) => {
                s.bytes() < 4 && (first.is_taken(s, length) && second.is_taken(s, length))
            }
        }
    }
}

// Whether a caller may make an instruction. It is refused first for a register above 31, then for an immediate that is
// written, then for anything else that no encoding could have given.
pub fn admit(action: Action, length: u32) -> Result<(), Refusal>
    ensures { result ≡ admitted action length }
{
    if !action.is_named() {
        return Err(Refusal::NoSuchRegister);
    }
    if action.writes_immediate() {
        return Err(Refusal::ForbiddenMode(0));
    }
    if action.is_taken(length) && (1 <= length && length <= 22) {
        Ok(())
    } else {
        Err(Refusal::ReservedEncoding(0))
    }
}
