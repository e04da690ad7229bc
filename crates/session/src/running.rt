// A session that runs.
ghost use Rattle.std.specs.Prelude.{◌≡◌};
ghost use Rattle.session.specs.Calls.{moment, attempted_at, ran_at, Comes};

use super::attempt::{admit_step, is_short, try_step};
use super::closed::Closed;
use board::Board;
use bus::{ReadLine, Refusal, WriteLine};
use machine::{Answer, Machine, Questions};

// It is stepped and run beside its board and its two sheets, and closed in the end.
// Why board and sheets as parameters, and not in here: between its calls a session holds no loan, and the next call may get
// more lines of a sheet, or fewer.
#[derive(PartialEq, Eq, Debug, Drop)]
pub struct Running {
    pub(crate) machine: Machine,
}

impl Running {
    // Tries one step. An accepted one is committed whole; a refused one leaves its reads lines and nothing else.
    fn attempt<B: Board>(
        &mut self,
        board: &mut B,
        reads: &mut [ReadLine],
        writes: &mut [WriteLine],
    ) -> Result<(), Refusal>
        ensures { let found = moment B.Board.rights B.Board.bytes self.old.machine board.old reads.old writes.old in
            let left = moment B.Board.rights B.Board.bytes self.new.machine board.new reads.new writes.new in
            Comes (attempted_at found) result found left }
    {
        admit_step(&self.machine, reads.len(), writes.len())?;
        let tried = try_step(&self.machine, board, reads, writes);
        self.machine.read = tried.used;
        self.machine.cpu = tried.outcome?;
        self.machine.completed += 1;
        let _ = tried.buffer.commit(board, writes, self.machine.written, self.machine.completed);
        self.machine.written += tried.buffer.len();
        Ok(())
    }

    // So many steps, up to the first refusal.
    pub fn run<B: Board>(
        &mut self,
        count: u32,
        board: &mut B,
        reads: &mut [ReadLine],
        writes: &mut [WriteLine],
    ) -> Answer
        ensures { let found = moment B.Board.rights B.Board.bytes self.old.machine board.old reads.old writes.old in
            let left = moment B.Board.rights B.Board.bytes self.new.machine board.new reads.new writes.new in
            Comes (ran_at count found) result found left }
    {
        if is_short(&self.machine, reads.len(), writes.len()) {
            return Answer {
                completed: 0,
                refusal: Some(Refusal::SheetTooShort),
            };
        }
        for completed in 0..count {
            if let Err(refusal) = self.attempt(board, reads, writes) {
                return Answer {
                    completed,
                    refusal: Some(refusal),
                };
            }
        }
        Answer {
            completed: count,
            refusal: None,
        }
    }

    // One step: a run of one.
    pub fn step<B: Board>(
        &mut self,
        board: &mut B,
        reads: &mut [ReadLine],
        writes: &mut [WriteLine],
    ) -> Answer
        ensures { let found = moment B.Board.rights B.Board.bytes self.old.machine board.old reads.old writes.old in
            let left = moment B.Board.rights B.Board.bytes self.new.machine board.new reads.new writes.new in
            Comes (ran_at 1 found) result found left }
    {
        self.run(1, board, reads, writes)
    }

    // Ends the session. What it holds may still be asked.
    pub fn close(self) -> Closed
        ensures { result.machine ≡ self.machine }
    {
        Closed {
            machine: self.machine,
        }
    }
}

impl Questions for Running {
    ghost holds = { λ s. s.machine };

    fn machine(&self) -> Machine {
        self.machine
    }
}
