// What a step sees of its surroundings.
ghost use Rattle.bus.specs.Program.{fetch_byte, ask_byte, put_byte};
ghost use Rattle.bus.specs.Seen.{Seen, Runs};
ghost use Rattle.std.specs.Prelude.{Ok};

use super::refusal::Refusal;

// The bus by which a step reaches the board. Each access runs the program of its name, whatever is behind it: what is
// listed and what is kept back is in `seen`. Code above is generic over this trait.
pub trait Bus {
    ghost seen: { Self → Seen };

    // The byte at an address.
    fn fetch(&mut self, address: u32) -> Result<u8, Refusal>
        ensures { Runs (fetch_byte address) (seen self.old) result (seen self.new) };

    // Asks for the right to store at an address.
    fn ask(&mut self, address: u32) -> Result<(), Refusal>
        ensures { Runs (ask_byte address) (seen self.old) result (seen self.new) };

    // Sets a byte, which is kept back until the step is accepted.
    fn put(&mut self, address: u32, byte: u8)
        ensures { Runs (put_byte address byte) (seen self.old) (Ok tt) (seen self.new) };
}
