// A sensor page: sixteen 16-bit readings, for reading only.
ghost use Rattle.std.specs.Prelude.{◌≡◌, ℕ, ◌<◌};
ghost use Rattle.std.proofs.Common.{rules};
ghost use Rattle.board.specs.declared.Right.TheVariants.{ReadOnly};
ghost use Rattle.board.specs.Meaning.{reading_byte};

use super::Right;
use super::bank::{Bank, Cells};

const BYTES: usize = 32;

// The readings, kept by value, from a base address on, the low byte of each first.
pub type SensorPage = Bank<[u16; 16]>;

impl Cells for [u16; 16] {
    ghost right = { ReadOnly };

    ghost count = { λ _. 32 };

    ghost bytes = { λ s. reading_byte s };

    ghost some = { Prim.search rules };

    fn right(&self) -> Right {
        Right::ReadOnly
    }

    fn count(&self) -> usize {
        BYTES
    }

    fn byte(&self, i: usize) -> u8 {
        let [low, high] = self[i / 2].to_le_bytes();
        if i % 2 == 0 { low } else { high }
    }

    fn put(&mut self, _i: usize, _byte: u8) -> bool {
        false
    }
}
