// RAM: bytes lent by the caller, read and written.
ghost use Rattle.std.specs.Prelude.{◌≡◌, ℕ, ◌<◌, length, slice_index};
ghost use Rattle.std.proofs.Common.{rules};
ghost use Rattle.board.specs.declared.Right.TheVariants.{ReadWrite};

use super::Right;
use super::bank::{Bank, Cells};

// The caller's bytes, from a base address on.
pub type Ram<'a> = Bank<&'a mut [u8]>;

impl<'a> Cells for &'a mut [u8] {
    ghost right = { ReadWrite };

    ghost count = { λ s. length s.now };

    ghost bytes = { λ s. slice_index s.now };

    ghost some = { Prim.search rules };

    fn right(&self) -> Right {
        Right::ReadWrite
    }

    fn count(&self) -> usize {
        self.len()
    }

    fn byte(&self, i: usize) -> u8 {
        self[i]
    }

    fn put(&mut self, i: usize, byte: u8) -> bool {
        self[i] = byte;
        true
    }
}
