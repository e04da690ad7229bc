// A session before its start.
ghost use Rattle.std.specs.Prelude.{◌≡◌};
ghost use Rattle.session.specs.Calls.{opened, preset_to, preset_answer, started};

use super::running::Running;
use bus::Refusal;
use machine::{Machine, Questions};

// Registers may be preset, and then it is started.
//
// Why three types, each with its own `machine`: `start` and `close` move a session from one to the next, so that a call
// out of order does not build. One type with a parameter for the state would have the parameter in every contract.
#[derive(PartialEq, Eq, Debug, Drop)]
pub struct Setup {
    pub(crate) machine: Machine,
}

impl Setup {
    // Opens a session: everything that it holds is 0.
    #[tactic(auto, using(crate::proofs::Opening::default_opens))]
    pub fn new() -> Setup
        ensures { result.machine ≡ opened }
    {
        Setup {
            machine: Machine::default(),
        }
    }

    // Sets a register.
    pub fn preset(&mut self, n: u32, value: u32) -> Result<(), Refusal>
        ensures answer { result ≡ preset_answer n }
        ensures machine { self.new.machine ≡ preset_to n value self.old.machine }
    {
        if n < 32 {
            self.machine.cpu = self.machine.cpu.with_register(n as u8, value);
            Ok(())
        } else {
            Err(Refusal::NoSuchRegister)
        }
    }

    // Starts at an address. What an address of the board holds now is the start's byte.
    pub fn start(self, pc: u32) -> Running
        ensures { result.machine ≡ started pc self.machine }
    {
        let mut machine = self.machine;
        machine.cpu.pc = pc;
        Running { machine }
    }
}

impl Questions for Setup {
    ghost holds = { λ s. s.machine };

    fn machine(&self) -> Machine {
        self.machine
    }
}
