// Instructions of one operand, the stack, and jumps.
ghost use Rattle.std.specs.Prelude.{◌≡◌, ◌*◌};
ghost use Rattle.number.specs.Outcomes.{shown};
ghost use Rattle.bus.specs.Seen.{Runs};
ghost use Rattle.execute.specs.One.{one_result as one_result_is, pushed as pushed_is, popped as popped_is, altering as altering_is, pushing as pushing_is, popping as popping_is, jumping as jumping_is, calling as calling_is, calling_relative as calling_relative_is, returning as returning_is, branched as branched_is};

use super::sized::SizedOperand;
use super::two::{left, taken};
use bus::{Bus, Refusal, ask_bytes, put_number};
use instruction::{OneOperation, Operand, TwoOperation};
use number::arithmetic::Computed;
use number::flags::{Flags, holds};
use number::width::Size;
use processor::{Cpu, displaced, locate, moved, pointer, result};

// Why bus, registers, operand and the next address as parameters, and no struct of them: the bus is lent to each call,
// the registers that one call leaves are what the next gets, and the definitions name the operand and the next address.

// The register that points to the top of the stack.
const STACK: u8 = 31;

// What an instruction of one operand comes to: INC adds 1, DEC subtracts 1, and TEST compares with 0. A doubleword stays.
fn one_result(operation: OneOperation, size: Size, flags: Flags, x: u64) -> Computed<u64>
    ensures { shown (λ n. n) result ≡ one_result_is operation size flags x }
{
    match (operation, size) {
        (_, Size::Doubleword) => moved(x, flags),
        (OneOperation::Inc, _) => result(TwoOperation::Add, size, size, flags, 1, x),
        (OneOperation::Dec, _) => result(TwoOperation::Sub, size, size, flags, 1, x),
        (OneOperation::Test, _) => result(TwoOperation::Cmp, size, size, flags, 0, x),
        _ => result(TwoOperation::Mov, size, size, flags, x, x),
    }
}

// A branch.
pub(crate) fn branched(cpu: Cpu, condition: u8, displacement: i32, next: u32) -> Cpu
    ensures { result ≡ branched_is cpu condition displacement next }
{
    let target = displaced(cpu.pc, displacement);
    let taken = holds(condition, cpu.flags);
    cpu.gone_on(cpu.flags, if taken { target } else { next })
}

// A word pushed on the stack.
fn pushed<B: Bus>(bus: &mut B, cpu: Cpu, word: u64) -> Result<Cpu, Refusal>
    ensures { Runs (pushed_is cpu word) (B.Bus.seen bus.old) result (B.Bus.seen bus.new) }
{
    let top = cpu.register(STACK).wrapping_sub(4);
    ask_bytes(bus, top, Size::Word)?;
    put_number(bus, top, Size::Word, word);
    Ok(cpu.with_register(STACK, top))
}

// The word on top of the stack, and the registers once it is taken off.
fn popped<B: Bus>(bus: &mut B, cpu: Cpu) -> Result<(Cpu, u32), Refusal>
    ensures { Runs (popped_is cpu) (B.Bus.seen bus.old) result (B.Bus.seen bus.new) }
{
    let top = cpu.register(STACK);
    let word = pointer(bus, top)?;
    Ok((cpu.with_register(STACK, top.wrapping_add(4)), word))
}

// INC, DEC and TEST.
pub(crate) fn altering<B: Bus>(
    bus: &mut B,
    cpu: Cpu,
    operation: OneOperation,
    sized: SizedOperand,
    next: u32,
) -> Result<Cpu, Refusal>
    ensures { Runs (altering_is cpu operation sized.size sized.operand next) (B.Bus.seen bus.old) result (B.Bus.seen bus.new) }
{
    let found = sized.locate(bus, cpu)?;
    let access = operation.access();
    let number = taken(bus, found, sized.size, access)?;
    let outcome = one_result(operation, sized.size, cpu.flags, number);
    let done = left(bus, found, sized.size, access, outcome.value)?;
    Ok(done.gone_on(outcome.flags, next))
}

// PUSH.
pub(crate) fn pushing<B: Bus>(
    bus: &mut B,
    cpu: Cpu,
    operand: Operand,
    next: u32,
) -> Result<Cpu, Refusal>
    ensures { Runs (pushing_is cpu operand next) (B.Bus.seen bus.old) result (B.Bus.seen bus.new) }
{
    let found = locate(bus, cpu, 4, operand)?;
    let word = found.read(bus, Size::Word)?;
    let done = pushed(bus, found.cpu, word)?;
    Ok(done.gone_on(cpu.flags, next))
}

// POP.
pub(crate) fn popping<B: Bus>(
    bus: &mut B,
    cpu: Cpu,
    operand: Operand,
    next: u32,
) -> Result<Cpu, Refusal>
    ensures { Runs (popping_is cpu operand next) (B.Bus.seen bus.old) result (B.Bus.seen bus.new) }
{
    let (raised, word) = popped(bus, cpu)?;
    let found = locate(bus, raised, 4, operand)?;
    let done = found.write(bus, Size::Word, u64::from(word))?;
    Ok(done.gone_on(cpu.flags, next))
}

// JMP.
pub(crate) fn jumping<B: Bus>(bus: &mut B, cpu: Cpu, operand: Operand) -> Result<Cpu, Refusal>
    ensures { Runs (jumping_is cpu operand) (B.Bus.seen bus.old) result (B.Bus.seen bus.new) }
{
    let found = locate(bus, cpu, 1, operand)?;
    let target = found.location.address();
    Ok(found.cpu.gone_on(cpu.flags, target))
}

// JSR.
pub(crate) fn calling<B: Bus>(
    bus: &mut B,
    cpu: Cpu,
    operand: Operand,
    next: u32,
) -> Result<Cpu, Refusal>
    ensures { Runs (calling_is cpu operand next) (B.Bus.seen bus.old) result (B.Bus.seen bus.new) }
{
    let found = locate(bus, cpu, 1, operand)?;
    let target = found.location.address();
    let done = pushed(bus, found.cpu, u64::from(next))?;
    Ok(done.gone_on(cpu.flags, target))
}

// BSR.
pub(crate) fn calling_relative<B: Bus>(
    bus: &mut B,
    cpu: Cpu,
    displacement: i32,
    next: u32,
) -> Result<Cpu, Refusal>
    ensures { Runs (calling_relative_is cpu displacement next) (B.Bus.seen bus.old) result (B.Bus.seen bus.new) }
{
    let done = pushed(bus, cpu, u64::from(next))?;
    Ok(done.gone_on(cpu.flags, displaced(cpu.pc, displacement)))
}

// RSR.
pub(crate) fn returning<B: Bus>(bus: &mut B, cpu: Cpu) -> Result<Cpu, Refusal>
    ensures { Runs (returning_is cpu) (B.Bus.seen bus.old) result (B.Bus.seen bus.new) }
{
    let (raised, target) = popped(bus, cpu)?;
    Ok(raised.gone_on(cpu.flags, target))
}
