// Banks: cells in a row from a base address on. RAM, ROM and the sensor page differ in their cells alone.
ghost use Rattle.std.specs.Prelude.{◌≡◌, ℕ, ◌<◌, ◌≢◌};
ghost use Rattle.board.specs.declared.Right.{Right};
ghost use Rattle.board.specs.declared.Right.TheVariants.{NoAccess};
ghost use Rattle.board.specs.Meaning.{over, held, stored, writable, place as place_of};

use super::map::{MemoryMap, bytes_end};
use super::{Board, Right};

// The cells of a bank: how many there are, the one right to them, and the byte in each.
pub trait Cells {
    ghost right: { Right };

    ghost count: { Self → ℕ };

    ghost bytes: { Self → ℕ → ℕ };

    // Why a method, and no constant: a constant of a type that borrows gets no clause.
    fn right(&self) -> Right
        ensures { result ≡ right };

    // Why these three for each kind of cells, and no default: each indexes a type of its own, and what `put` owes goes by the right.
    fn count(&self) -> usize
        ensures { result ≡ count self.now };

    // The byte in cell `i`.
    fn byte(&self, i: usize) -> u8
        requires { i < count self.now }
        ensures { result ≡ bytes self.now i };

    // Puts a byte into cell `i`, where the right is to read and write, and says whether it did.
    fn put(&mut self, i: usize, byte: u8) -> bool
        requires { i < count self.old }
        ensures answer { result ≡ writable right }
        ensures count { count self.new ≡ count self.old }
        ensures bytes { bytes self.new ≡ stored right i byte (bytes self.old) };

    // there is some right to them
    ghost some: { right ≢ NoAccess };
}

// Cells from a base address on.
#[derive(Clone, Copy, PartialEq, Eq, Debug, Drop)]
pub struct Bank<C> {
    base: u32,
    cells: C,
}

impl<C: Cells> Bank<C> {
    // RAM, ROM or a sensor page, by its cells, from a base address on.
    pub fn new(base: u32, cells: C) -> Bank<C>
        ensures base { result.base ≡ base }
        ensures cells { result.cells ≡ cells }
    {
        Bank { base, cells }
    }

    // The place of an address among the cells, if it is one of theirs.
    fn place(&self, address: u32) -> Option<usize>
        ensures { result ≡ place_of self.now.base (C.count self.now.cells) address }
    {
        let i = address.checked_sub(self.base)? as usize;
        (i < self.cells.count()).then_some(i)
    }
}

impl<C: Cells> Board for Bank<C> {
    ghost rights = { λ s. over C.right s.base (C.count s.cells) };

    ghost bytes = { λ s. held s.base (C.count s.cells) (C.bytes s.cells) };

    fn right(&self, address: u32) -> Right {
        match self.place(address) {
            Some(_) => self.cells.right(),
            None => Right::NoAccess,
        }
    }

    fn fetch(&self, address: u32) -> Option<u8> {
        let i = self.place(address)?;
        Some(self.cells.byte(i))
    }

    fn store(&mut self, address: u32, byte: u8) -> bool {
        match self.place(address) {
            Some(i) => self.cells.put(i, byte),
            None => false,
        }
    }
}

impl<C: Cells> MemoryMap for Bank<C> {
    fn region_end(&self, address: u32) -> u32 {
        bytes_end(self.base, self.cells.count(), address)
    }
}
