// A cut: two boards joined at an address.
ghost use Rattle.std.specs.Prelude.{◌≡◌, nat_lt};
ghost use Rattle.board.specs.declared.Right.{Right};
ghost use Rattle.board.specs.Meaning.{cut};

use super::map::MemoryMap;
use super::{Board, Right};

// Below the address `at` the lower board answers, from it on the upper one.
// Why an `if` in each function: the two boards differ in type, so no one reference stands for the one that answers.
#[derive(Clone, Copy, PartialEq, Eq, Debug, Drop)]
pub struct Cut<L, U> {
    at: u32,
    lower: L,
    upper: U,
}

impl<L: Board, U: Board> Cut<L, U> {
    pub fn new(at: u32, lower: L, upper: U) -> Cut<L, U>
        ensures at { result.at ≡ at }
        ensures lower { result.lower ≡ lower }
        ensures upper { result.upper ≡ upper }
    {
        Cut { at, lower, upper }
    }

    // Whether the lower board answers at an address.
    fn is_lower(&self, address: u32) -> bool
        ensures { result ≡ nat_lt address self.now.at }
    {
        address < self.at
    }
}

impl<L: Board, U: Board> Board for Cut<L, U> {
    ghost rights = { λ s. cut s.at (L.Board.rights s.lower) (U.Board.rights s.upper) };

    ghost bytes = { λ s. cut s.at (L.Board.bytes s.lower) (U.Board.bytes s.upper) };

    fn right(&self, address: u32) -> Right {
        if self.is_lower(address) {
            self.lower.right(address)
        } else {
            self.upper.right(address)
        }
    }

    fn fetch(&self, address: u32) -> Option<u8> {
        if self.is_lower(address) {
            self.lower.fetch(address)
        } else {
            self.upper.fetch(address)
        }
    }

    fn store(&mut self, address: u32, byte: u8) -> bool {
        if self.is_lower(address) {
            self.lower.store(address, byte)
        } else {
            self.upper.store(address, byte)
        }
    }
}

impl<L: MemoryMap, U: MemoryMap> MemoryMap for Cut<L, U> {
    fn region_end(&self, address: u32) -> u32 {
        if address >= self.at {
            return self.upper.region_end(address);
        }
        let last = self.lower.region_end(address);
        if last < self.at - 1 {
            return last;
        }
        if self.lower.right(address) == self.upper.right(self.at) {
            self.upper.region_end(self.at)
        } else {
            self.at - 1
        }
    }
}
