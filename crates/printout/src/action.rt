// What an instruction does, as code is written: a name, a dot with the letters of sizes, and the operands.
ghost use Rattle.std.specs.Prelude.{Some};
ghost use Rattle.printout.specs.Instructions.{action_text};

use super::name::{OneName, TwoName, branch_name};
use instruction::Action;
use std::fmt;

// An action at PC. A branch shows the address that it goes to.
#[derive(Clone, Copy)]
pub(crate) struct ActionText {
    pub pc: u32,
    pub action: Action,
}

impl fmt::Display for ActionText {
    ghost output = { λ a. Some (action_text a.pc a.action) };

    fn fmt<W: fmt::Write>(&self, f: &mut fmt::Formatter<W>) -> fmt::Result {
        match self.action {
            Action::Two(operation, from, to, first, second) => {
                let name = TwoName(operation, from, to);
                write!(f, "{name} {first}, {second}")
            }
            Action::One(operation, size, operand) => {
                let name = OneName(operation, size);
                write!(f, "{name} {operand}")
            }
            Action::Branch(condition, displacement) => {
                let name = branch_name(condition);
                let target = self.pc.wrapping_add(displacement.cast_unsigned());
                write!(f, "{name} 0x{target:x}")
            }
            Action::Bsr(displacement) => {
                let target = self.pc.wrapping_add(displacement.cast_unsigned());
                write!(f, "bsr 0x{target:x}")
            }
            Action::Rsr => write!(f, "rsr"),
            Action::Nop => write!(f, "nop"),
            Action::Strings(operation, size, source, destination) => {
                write!(f, "{operation}.{size} {source}, {destination}")
            }
        }
    }
}
