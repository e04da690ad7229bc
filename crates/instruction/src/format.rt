// The formats of instructions.
ghost use Rattle.std.specs.Prelude.{◌≡◌, cond};
ghost use Rattle.bus.specs.Seen.{Runs};
ghost use Rattle.instruction.specs.declared.action.Action.TheVariants.{Two};
ghost use Rattle.instruction.specs.Operations.{first_access, second_access};
ghost use Rattle.instruction.specs.Formats.{register_first, register_second, two_modes, two_by, two_operands as two_operands_is, one_operand as one_operand_is, length_of as length_is, length_at as length_at_is, string_at as string_at_is, string_operation as string_operation_of, string_instruction as string_instruction_is, by_entry as by_entry_is, decode as decode_is};

use super::action::{Action, Length, StringOperand};
use super::mode::register_verdict;
use super::opcode::{Entry, look_up};
use super::operand::Operand;
use super::operands::{displacement, operand_at, permit};
use super::operation::{Access, OneOperation, StringOperation, TwoOperation};
use super::part::Part;
use bus::{Bus, Refusal};
use number::width::Size;

// Why bus, PC, and what the bytes said so far, as parameters, and no struct of them: the bus is lent to each call, each
// byte that is fetched adds to the rest, and the definitions name PC, the operation and its sizes one by one.

// The sizes and operation of an instruction of two operands.
#[derive(Clone, Copy, PartialEq, Eq, Debug)]
struct Pair {
    operation: TwoOperation,
    first: Size,
    second: Size,
}

impl Pair {
    // How its first operand, or its second, is accessed.
    fn access(self, second: bool) -> Access
        ensures { result ≡ cond second (second_access self.operation) (first_access self.operation) }
    {
        if second {
            self.operation.second_access()
        } else {
            self.operation.first_access()
        }
    }

    // The size of its first operand, or of its second.
    fn size(self, second: bool) -> Size
        ensures { result ≡ cond second self.second self.first }
    {
        if second { self.second } else { self.first }
    }

    // The instruction of x and y, where x is its first operand, or its second.
    fn action(self, second: bool, x: Operand, y: Operand) -> Action
        ensures { result ≡ cond second (Two self.operation self.first self.second y x) (Two self.operation self.first self.second x y) }
    {
        let (a, b) = if second { (y, x) } else { (x, y) };
        Action::Two(self.operation, self.first, self.second, a, b)
    }
}

// Format I: a register as the first operand, or where d is set as the second, and a mode for the other.
fn register_and_mode<B: Bus>(
    bus: &mut B,
    pc: u32,
    pair: Pair,
    d: bool,
    m: bool,
    n: u8,
) -> Result<Part<Action>, Refusal>
    ensures { Runs (cond d (register_second pc pair.operation pair.first pair.second m n) (register_first pc pair.operation pair.first pair.second m n)) (B.Bus.seen bus.old) result (B.Bus.seen bus.new) }
{
    let verdict = register_verdict(pair.access(d), pair.size(d), n);
    permit(pc.wrapping_add(1), verdict)?;
    let size = pair.size(!d);
    let access = pair.access(!d);
    let x = operand_at(bus, pc.wrapping_add(2), m, size, access)?;
    Ok(Part {
        value: pair.action(d, Operand::Register(n), x.value),
        next: x.next,
    })
}

// Format II.
fn two_modes<B: Bus>(
    bus: &mut B,
    pc: u32,
    pair: Pair,
    m: bool,
    n: bool,
) -> Result<Part<Action>, Refusal>
    ensures { Runs (two_modes pc pair.operation pair.first pair.second m n) (B.Bus.seen bus.old) result (B.Bus.seen bus.new) }
{
    let x = operand_at(
        bus,
        pc.wrapping_add(2),
        m,
        pair.first,
        pair.operation.first_access(),
    )?;
    let y = operand_at(bus, x.next, n, pair.second, pair.operation.second_access())?;
    Ok(Part {
        value: Action::Two(pair.operation, pair.first, pair.second, x.value, y.value),
        next: y.next,
    })
}

// Formats I and II, by the second byte.
fn two_by<B: Bus>(bus: &mut B, pc: u32, pair: Pair, byte: u8) -> Result<Part<Action>, Refusal>
    ensures { Runs (two_by pc pair.operation pair.first pair.second byte) (B.Bus.seen bus.old) result (B.Bus.seen bus.new) }
{
    let m = byte / 64 % 2 == 1;
    let d = byte / 32 % 2 == 1;
    let n = byte % 32;
    if byte < 128 {
        register_and_mode(bus, pc, pair, d, m, n)
    } else if n == 0 {
        two_modes(bus, pc, pair, m, d)
    } else {
        Err(Refusal::NotServed(pc))
    }
}

// An instruction of two operands.
fn two_operands<B: Bus>(bus: &mut B, pc: u32, pair: Pair) -> Result<Part<Action>, Refusal>
    ensures { Runs (two_operands_is pc pair.operation pair.first pair.second) (B.Bus.seen bus.old) result (B.Bus.seen bus.new) }
{
    let byte = bus.fetch(pc.wrapping_add(1))?;
    two_by(bus, pc, pair, byte)
}

// Format III.
fn one_operand<B: Bus>(
    bus: &mut B,
    pc: u32,
    operation: OneOperation,
    size: Size,
    m: bool,
) -> Result<Part<Action>, Refusal>
    ensures { Runs (one_operand_is pc operation size m) (B.Bus.seen bus.old) result (B.Bus.seen bus.new) }
{
    let x = operand_at(bus, pc.wrapping_add(1), m, size, operation.access())?;
    Ok(Part {
        value: Action::One(operation, size, x.value),
        next: x.next,
    })
}

// What a length byte at `at` says.
fn length_of(at: u32, byte: u8) -> Result<Length, Refusal>
    ensures { result ≡ length_is at byte }
{
    if byte < 128 {
        Ok(Length::Literal(byte))
    } else if byte % 128 < 32 {
        Ok(Length::Register(byte % 32))
    } else {
        Err(Refusal::BadLengthByte(at))
    }
}

// The length byte at an address.
fn length_at<B: Bus>(bus: &mut B, at: u32) -> Result<Length, Refusal>
    ensures { Runs (length_at_is at) (B.Bus.seen bus.old) result (B.Bus.seen bus.new) }
{
    let byte = bus.fetch(at)?;
    length_of(at, byte)
}

// A string operand at `at`, with its length byte after it.
fn string_at<B: Bus>(
    bus: &mut B,
    pc: u32,
    at: u32,
    m: bool,
    size: Size,
) -> Result<Part<StringOperand>, Refusal>
    ensures { Runs (string_at_is pc at m size) (B.Bus.seen bus.old) result (B.Bus.seen bus.new) }
{
    let x = operand_at(bus, at, m, size, Access::Address)?;
    let length = length_at(bus, x.next)?;
    Ok(Part {
        value: StringOperand {
            operand: x.value,
            length,
            place: x.next.wrapping_sub(pc),
        },
        next: x.next.wrapping_add(1),
    })
}

// The string operation of a subcode.
// Why an Option, and no TryFrom: whoever asks refuses the instruction, so that an error of its own would be thrown away.
fn string_operation(subcode: u8) -> Option<StringOperation>
    ensures { result ≡ string_operation_of subcode }
{
    match subcode {
        8 => Some(StringOperation::Movc),
        10 => Some(StringOperation::Movcf),
        12 => Some(StringOperation::Movcs),
        _ => None,
    }
}

// Format VIIa.
fn string_instruction<B: Bus>(bus: &mut B, pc: u32, size: Size) -> Result<Part<Action>, Refusal>
    ensures { Runs (string_instruction_is pc size) (B.Bus.seen bus.old) result (B.Bus.seen bus.new) }
{
    let byte = bus.fetch(pc.wrapping_add(1))?;
    let operation = string_operation(byte % 32).ok_or(Refusal::NotServed(pc))?;
    let x = string_at(bus, pc, pc.wrapping_add(2), byte / 64 % 2 == 1, size)?;
    let y = string_at(bus, pc, x.next, byte / 32 % 2 == 1, size)?;
    Ok(Part {
        value: Action::Strings(operation, size, x.value, y.value),
        next: y.next,
    })
}

// The instruction of that opcode.
fn by_entry<B: Bus>(bus: &mut B, pc: u32, entry: Entry) -> Result<Part<Action>, Refusal>
    ensures { Runs (by_entry_is pc entry) (B.Bus.seen bus.old) result (B.Bus.seen bus.new) }
{
    let next = pc.wrapping_add(1);
    match entry {
        Entry::Two(operation, first, second) => two_operands(
            bus,
            pc,
            Pair {
                operation,
                first,
                second,
            },
        ),
        Entry::One(operation, size, m) => one_operand(bus, pc, operation, size, m),
        // Format IV
        Entry::Branch(condition, size) => {
            let d = displacement(bus, size, next)?;
            Ok(Part {
                value: Action::Branch(condition, d.value),
                next: d.next,
            })
        }
        Entry::Bsr => {
            let d = displacement(bus, Size::Halfword, next)?;
            Ok(Part {
                value: Action::Bsr(d.value),
                next: d.next,
            })
        }
        Entry::Rsr => Ok(Part {
            value: Action::Rsr,
            next,
        }),
        Entry::Nop => Ok(Part {
            value: Action::Nop,
            next,
        }),
        Entry::Strings(size) => string_instruction(bus, pc, size),
    }
}

// The instruction at PC, and the address after it.
pub fn decode_at<B: Bus>(bus: &mut B, pc: u32) -> Result<Part<Action>, Refusal>
    ensures { Runs (decode_is pc) (B.Bus.seen bus.old) result (B.Bus.seen bus.new) }
{
    let opcode = bus.fetch(pc)?;
    let entry = look_up(opcode).ok_or(Refusal::NotServed(pc))?;
    by_entry(bus, pc, entry)
}
