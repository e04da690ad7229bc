// Instructions of two operands.
ghost use Rattle.bus.specs.Seen.{Runs};
ghost use Rattle.execute.specs.Two.{taken as taken_is, left as left_is, two_operands as two_is};

use super::sized::SizedOperand;
use bus::{Bus, Refusal};
use instruction::{Access, TwoOperation};
use number::width::Size;
use processor::{Cpu, Found, result};

// What an instruction takes of an operand, by its access.
pub(crate) fn taken<B: Bus>(
    bus: &mut B,
    operand: Found,
    size: Size,
    access: Access,
) -> Result<u64, Refusal>
    ensures { Runs (taken_is operand.cpu size operand.location access) (B.Bus.seen bus.old) result (B.Bus.seen bus.new) }
{
    match access {
        Access::Read | Access::Modify => operand.read(bus, size),
        Access::Write => Ok(0),
        Access::Address => Ok(u64::from(operand.location.address())),
    }
}

// A result put where the access writes.
pub(crate) fn left<B: Bus>(
    bus: &mut B,
    operand: Found,
    size: Size,
    access: Access,
    number: u64,
) -> Result<Cpu, Refusal>
    ensures { Runs (left_is operand.cpu size operand.location access number) (B.Bus.seen bus.old) result (B.Bus.seen bus.new) }
{
    match access {
        Access::Modify | Access::Write => operand.write(bus, size, number),
        Access::Read | Access::Address => Ok(operand.cpu),
    }
}

// Why bus, registers and the next address as parameters: as for instructions of one operand.

// An instruction of two operands, before the address `next`: the source's location, changes and value, then the
// destination's, then the result.
pub(crate) fn two_operands<B: Bus>(
    bus: &mut B,
    cpu: Cpu,
    operation: TwoOperation,
    source: SizedOperand,
    destination: SizedOperand,
    next: u32,
) -> Result<Cpu, Refusal>
    ensures { Runs (two_is cpu operation source.size destination.size source.operand destination.operand next) (B.Bus.seen bus.old) result (B.Bus.seen bus.new) }
{
    let from = source.locate(bus, cpu)?;
    let first = taken(bus, from, source.size, operation.first_access())?;
    let to = destination.locate(bus, from.cpu)?;
    let access = operation.second_access();
    let second = taken(bus, to, destination.size, access)?;
    let outcome = result(
        operation,
        source.size,
        destination.size,
        cpu.flags,
        first,
        second,
    );
    let done = left(bus, to, destination.size, access, outcome.value)?;
    Ok(done.gone_on(outcome.flags, next))
}
