// One step of the processor.
ghost use Rattle.bus.specs.Seen.{Runs};
ghost use Rattle.execute.specs.Step.{one_step};

use super::dispatch::execute;
use bus::{Bus, Refusal};
use instruction::decode;
use processor::Cpu;

// The instruction at PC decoded and carried out on a working copy of the registers: what they are then, or the refusal.
pub fn step<B: Bus>(bus: &mut B, cpu: Cpu) -> Result<Cpu, Refusal>
    ensures { Runs (one_step cpu) (B.Bus.seen bus.old) result (B.Bus.seen bus.new) }
{
    let instruction = decode(bus, cpu.pc)?;
    execute(bus, cpu, instruction)
}
