// Building instructions from actions, and from the code in memory.
ghost use Rattle.std.specs.Prelude.{◌≡◌, Ok, Err, MatchResult};
ghost use Rattle.bus.specs.Seen.{Runs};
ghost use Rattle.instruction.specs.Lawful.{admitted};
ghost use Rattle.instruction.specs.Build.{as_decoded};
ghost use Rattle.instruction.specs.Formats.{decode as decode_is};

use super::Instruction;
use crate::action::Action;
use crate::format::decode_at;
use crate::make::admit;
use bus::{Bus, Refusal};

impl Instruction {
    // The caller's action as an instruction of so many bytes.
    pub fn new(action: Action, length: u32) -> Result<Instruction, Refusal>
        ensures { MatchResult result (λ i. (admitted action length ≡ Ok tt) × (i.action ≡ action) × (i.length ≡ length)) (λ e. admitted action length ≡ Err e) }
    {
        admit(action, length)?;
        Ok(Instruction { action, length })
    }
}

// The instruction at PC.
pub fn decode<B: Bus>(bus: &mut B, pc: u32) -> Result<Instruction, Refusal>
    ensures { Runs (decode_is pc) (B.Bus.seen bus.old) (as_decoded pc result) (B.Bus.seen bus.new) }
{
    let decoded = decode_at(bus, pc)?;
    Ok(Instruction {
        action: decoded.value,
        length: decoded.next.wrapping_sub(pc),
    })
}
