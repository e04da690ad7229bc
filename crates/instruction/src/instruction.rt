// An instruction that may be carried out.
ghost use Rattle.std.specs.Prelude.{◌≡◌, true};
ghost use Rattle.instruction.specs.Lawful.{lawful};

use super::action::Action;

mod build;

pub use build::decode;

// An action with the number of bytes of its code. No register is above 31, no immediate is written or a doubleword, R31 is
// no doubleword, and the length is 1 to 22.
#[derive(Clone, Copy, PartialEq, Eq, Debug)]
pub struct Instruction {
    action: Action,
    length: u32,
    ghost ok: { lawful action length ≡ true },
}

impl Instruction {
    pub fn action(&self) -> Action
        ensures { result ≡ self.now.action }
    {
        self.action
    }

    pub fn length(&self) -> u32
        ensures { result ≡ self.now.length }
    {
        self.length
    }
}
