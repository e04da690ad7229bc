// ROM: bytes lent by the caller, for reading only.
ghost use Rattle.std.specs.Prelude.{◌≡◌, ℕ, ◌<◌, length, slice_index};
ghost use Rattle.std.proofs.Common.{rules};
ghost use Rattle.board.specs.declared.Right.TheVariants.{ReadOnly};

use super::Right;
use super::bank::{Bank, Cells};

// The caller's bytes, from a base address on.
pub type Rom<'a> = Bank<&'a [u8]>;

impl<'a> Cells for &'a [u8] {
    ghost right = { ReadOnly };

    ghost count = { λ s. length s.now };

    ghost bytes = { λ s. slice_index s.now };

    ghost some = { Prim.search rules };

    fn right(&self) -> Right {
        Right::ReadOnly
    }

    fn count(&self) -> usize {
        self.len()
    }

    fn byte(&self, i: usize) -> u8 {
        self[i]
    }

    fn put(&mut self, _i: usize, _byte: u8) -> bool {
        false
    }
}
