// Accepting a step.
ghost use Rattle.std.specs.Prelude.{◌≡◌, ◌+◌, ◌≤◌, length, if◌then◌else◌, nat_le};
ghost use Rattle.bus.specs.Buffer.{OneRun};
ghost use Rattle.bus.specs.Commit.{stores, write_lines, has_room, entered};

use super::StoreBuffer;
use crate::line::WriteLine;
use board::Board;

// Whether a sheet of `all` lines has room for `more` after its used ones.
fn fits(used: usize, more: usize, all: usize) -> bool
    ensures { result ≡ nat_le (used + more) all }
{
    used.checked_add(more).is_some_and(|end| end <= all)
}

impl StoreBuffer {
    // How many bytes wait. They are one run, whoever asks.
    pub fn len(&self) -> usize
        ensures count { result ≡ length self.now }
        ensures few { result ≤ 256 }
        ensures run { OneRun self.now }
    {
        self.len
    }

    // Stores the bytes on the board in order and lists each on the writes sheet, after its used lines. Where that lacks
    // the lines it answers false and does nothing.
    pub fn commit<B: Board>(
        &self,
        board: &mut B,
        writes: &mut [WriteLine],
        used: usize,
        step: u32,
    ) -> bool
        ensures answer { result ≡ has_room used (length self.now) writes.old }
        ensures rights { B.Board.rights board.new ≡ B.Board.rights board.old }
        ensures bytes { B.Board.bytes board.new ≡ (if result then stores (B.Board.rights board.old) self.now (B.Board.bytes board.old) else B.Board.bytes board.old) }
        ensures lines { writes.new ≡ (if result then entered used (write_lines step self.now) writes.old else writes.old) }
    {
        if !fits(used, self.len, writes.len()) {
            return false;
        }
        // Why an index for the lines: of a slice that a zip writes through, the prover knows no longer what it holds.
        for (i, byte) in self.bytes[..self.len].iter().enumerate() {
            let byte = *byte;
            let address = self.base.wrapping_add(i as u32);
            // the step has asked for the right to each of them
            let _ = board.store(address, byte);
            writes[used + i] = WriteLine {
                step,
                address,
                byte,
            };
        }
        true
    }
}
