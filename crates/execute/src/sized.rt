// An operand with its size.
ghost use Rattle.number.specs.Sizes.{byte_count};
ghost use Rattle.bus.specs.Seen.{Runs};
ghost use Rattle.processor.specs.Operands.{locate as locate_is};

use bus::{Bus, Refusal};
use instruction::Operand;
use number::width::Size;
use processor::{Cpu, Found, locate};

#[derive(Clone, Copy)]
pub(crate) struct SizedOperand {
    pub size: Size,
    pub operand: Operand,
}

impl SizedOperand {
    // Where it lies, and the registers that finding it changes.
    pub(crate) fn locate<B: Bus>(self, bus: &mut B, cpu: Cpu) -> Result<Found, Refusal>
        ensures { Runs (locate_is cpu (byte_count self.size) self.operand) (B.Bus.seen bus.old) result (B.Bus.seen bus.new) }
    {
        locate(bus, cpu, self.size.bytes(), self.operand)
    }
}
