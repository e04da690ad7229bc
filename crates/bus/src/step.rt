// The bus of one step, over any board and the two sheets.
ghost use Rattle.std.specs.Prelude.{◌≡◌, ◌||◌, take};
ghost use Rattle.bus.specs.Sheets.{names as names_in};
ghost use Rattle.bus.specs.Seen.{step_seen};

use super::access::Bus;
use super::buffer::StoreBuffer;
use super::line::{ReadLine, WriteLine, names};
use super::refusal::Refusal;
use board::{Board, Right};

// The board and the used lines of the writes sheet are only looked at, the reads sheet gets lines after its used ones,
// and the bytes that the step sets wait in the store buffer.
// Why a count beside the sheet, and no Vec: the caller lends the sheet, and the session keeps the count from step to step.
#[derive(Drop)]
pub struct StepBus<'a, 'b, B> {
    pub board: &'a B,
    pub reads: &'b mut [ReadLine],
    pub used: usize,
    pub writes: &'a [WriteLine],
    pub buffer: StoreBuffer,
}

impl<'a, 'b, B: Board> StepBus<'a, 'b, B> {
    // Whether a used line of either sheet names the address.
    fn is_listed(&self, address: u32) -> bool
        ensures { result ≡ (names_in (λ l. l.address) address (take self.now.used self.now.reads.now) || names_in (λ l. l.address) address self.now.writes.now) }
    {
        let used = self.used.min(self.reads.len());
        names(&self.reads[..used], address) || names(self.writes, address)
    }
}

impl<'a, 'b, B: Board> Bus for StepBus<'a, 'b, B> {
    ghost seen = { λ s. step_seen (B.Board.rights s.board.now) (B.Board.bytes s.board.now) s.reads s.used s.writes.now s.buffer };

    fn fetch(&mut self, address: u32) -> Result<u8, Refusal> {
        if let Some(byte) = self.buffer.get(address) {
            return Ok(byte);
        }
        let byte = self.board.fetch(address).ok_or(Refusal::NoRight(address))?;
        if self.is_listed(address) {
            return Ok(byte);
        }
        if self.used < self.reads.len() {
            self.reads[self.used] = ReadLine { address, byte };
            self.used += 1;
        }
        Ok(byte)
    }

    fn ask(&mut self, address: u32) -> Result<(), Refusal> {
        match self.board.right(address) {
            Right::ReadWrite => Ok(()),
            Right::ReadOnly | Right::NoAccess => Err(Refusal::NoRight(address)),
        }
    }

    fn put(&mut self, address: u32, byte: u8) {
        self.buffer.put(address, byte);
    }
}
