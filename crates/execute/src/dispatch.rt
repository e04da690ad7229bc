// An instruction carried out.
ghost use Rattle.std.specs.Prelude.{◌≡◌};
ghost use Rattle.bus.specs.Seen.{Runs};
ghost use Rattle.execute.specs.Execute.{one_operand as one_operand_is, acted as acted_is, execute as execute_is};

use super::one::{
    altering, branched, calling, calling_relative, jumping, popping, pushing, returning,
};
use super::sized::SizedOperand;
use super::two::two_operands;
use bus::{Bus, Refusal};
use instruction::{Action, Instruction, OneOperation};
use processor::Cpu;
use strings::string_instruction;

// Why bus, registers and the next address as parameters: as for the instructions of one operand themselves.

// An instruction of one operand.
fn one_operand<B: Bus>(
    bus: &mut B,
    cpu: Cpu,
    operation: OneOperation,
    sized: SizedOperand,
    next: u32,
) -> Result<Cpu, Refusal>
    ensures { Runs (one_operand_is cpu operation sized.size sized.operand next) (B.Bus.seen bus.old) result (B.Bus.seen bus.new) }
{
    match operation {
        OneOperation::Inc | OneOperation::Dec | OneOperation::Test => {
            altering(bus, cpu, operation, sized, next)
        }
        OneOperation::Push => pushing(bus, cpu, sized.operand, next),
        OneOperation::Pop => popping(bus, cpu, sized.operand, next),
        OneOperation::Jmp => jumping(bus, cpu, sized.operand),
        OneOperation::Jsr => calling(bus, cpu, sized.operand, next),
    }
}

// An action, with the address of the next instruction.
fn acted<B: Bus>(bus: &mut B, cpu: Cpu, action: Action, next: u32) -> Result<Cpu, Refusal>
    ensures { Runs (acted_is cpu action next) (B.Bus.seen bus.old) result (B.Bus.seen bus.new) }
{
    match action {
        Action::Two(operation, s, t, a, b) => {
            let source = SizedOperand {
                size: s,
                operand: a,
            };
            let destination = SizedOperand {
                size: t,
                operand: b,
            };
            two_operands(bus, cpu, operation, source, destination, next)
        }
        Action::One(operation, size, operand) => {
            one_operand(bus, cpu, operation, SizedOperand { size, operand }, next)
        }
        Action::Branch(k, d) => Ok(branched(cpu, k, d, next)),
        Action::Bsr(d) => calling_relative(bus, cpu, d, next),
        Action::Rsr => returning(bus, cpu),
        Action::Nop => Ok(cpu.gone_on(cpu.flags, next)),
        Action::Strings(o, s, x, y) => string_instruction(bus, cpu, o, s, x, y, next),
    }
}

// The instruction at PC carried out on a working copy of the registers: what they are then, or the refusal.
pub fn execute<B: Bus>(bus: &mut B, cpu: Cpu, instruction: Instruction) -> Result<Cpu, Refusal>
    ensures { Runs (execute_is cpu instruction.action instruction.length) (B.Bus.seen bus.old) result (B.Bus.seen bus.new) }
{
    let next = cpu.pc.wrapping_add(instruction.length());
    acted(bus, cpu, instruction.action(), next)
}
