// What may be asked of a session, in every state. Asking alters nothing.
ghost use Rattle.std.specs.Prelude.{◌≡◌};
ghost use Rattle.machine.specs.declared.held.Machine.{Machine};
ghost use Rattle.machine.specs.Asked.{register_answer};

use super::held::Machine;
use bus::Refusal;
use number::flags::Flags;

pub trait Questions {
    ghost holds: { Self → Machine };

    // All that the session holds, as one value.
    fn machine(&self) -> Machine
        ensures { result ≡ holds self.now };

    // A register by its number.
    fn register(&self, n: u32) -> Result<u32, Refusal>
        ensures { result ≡ register_answer n (holds self.now) }
    {
        if n < 32 {
            Ok(self.machine().cpu.register(n as u8))
        } else {
            Err(Refusal::NoSuchRegister)
        }
    }

    fn pc(&self) -> u32
        ensures { result ≡ (holds self.now).cpu.pc }
    {
        self.machine().cpu.pc
    }

    fn flags(&self) -> Flags
        ensures { result ≡ (holds self.now).cpu.flags }
    {
        self.machine().cpu.flags
    }

    // How many steps are complete.
    fn completed(&self) -> u32
        ensures { result ≡ (holds self.now).completed }
    {
        self.machine().completed
    }

    // How many lines of the reads sheet are used.
    fn reads_used(&self) -> usize
        ensures { result ≡ (holds self.now).read }
    {
        self.machine().read
    }

    // How many lines of the writes sheet are used.
    fn writes_used(&self) -> usize
        ensures { result ≡ (holds self.now).written }
    {
        self.machine().written
    }
}
