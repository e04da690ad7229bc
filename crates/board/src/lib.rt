// Boards: memory as a processor sees it, by a right and a byte for each of the 2^32 addresses.
#![tactic(auto)]

ghost use Rattle.std.specs.Prelude.{◌≡◌, ℕ};
ghost use Rattle.board.specs.declared.Right.{Right};
ghost use Rattle.board.specs.Meaning.{fetched, stored, writable, ByteSized};

mod bank;
mod block;
mod cut;
mod map;
mod ram;
mod rom;
mod sensor;

pub use block::{copy_block, read_block};
pub use cut::Cut;
pub use map::MemoryMap;
pub use ram::Ram;
pub use rom::Rom;
pub use sensor::SensorPage;

// What may be done at an address.
#[derive(Clone, Copy, PartialEq, Eq, Debug)]
pub enum Right {
    NoAccess,
    ReadOnly,
    ReadWrite,
}

// Memory by its addresses. `rights` and `bytes` are what a board means; the three functions show it
// and are all that code above may use, so that it is proved once, for every board.
pub trait Board {
    ghost rights: { Self → ℕ → Right };

    ghost bytes: { Self → ℕ → ℕ };

    // The right at an address.
    fn right(&self, address: u32) -> Right
        ensures { result ≡ rights self.now address };

    // The byte at an address, where there is a right.
    fn fetch(&self, address: u32) -> Option<u8>
        ensures answer { result ≡ fetched (rights self.now address) (bytes self.now address) }
        ensures small { ByteSized (rights self.now address) (bytes self.now address) };

    // Puts a byte at an address, where the right is to read and write, and says whether it did.
    fn store(&mut self, address: u32, byte: u8) -> bool
        ensures answer { result ≡ writable (rights self.old address) }
        ensures rights { rights self.new ≡ rights self.old }
        ensures bytes { bytes self.new ≡ stored (rights self.old address) address byte (bytes self.old) };
}
