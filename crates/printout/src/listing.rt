// Code on a board, an instruction to a line.
ghost use Rattle.std.specs.Prelude.{◌≡◌, Some};
ghost use Rattle.instruction.specs.Build.{as_decoded};
ghost use Rattle.printout.specs.Listing.{decoded_at, IsLine, TellsLine};
ghost use Rattle.printout.specs.Lines.{code_text, line_text};

use super::action::ActionText;
use super::cells::Cells;
use board::{Board, read_block};
use bus::{ReadLine, Refusal, StepBus, StoreBuffer};
use instruction::{Instruction, decode};
use std::fmt;

// no instruction is longer
const LONGEST: usize = 22;

// The instruction at an address, read onto a sheet that nobody keeps.
fn decode_on<B: Board>(board: &B, pc: u32) -> Result<Instruction, Refusal>
    ensures { as_decoded pc result ≡ decoded_at (B.Board.rights board.now) (B.Board.bytes board.now) pc }
{
    let mut reads = [ReadLine::default(); LONGEST];
    let mut bus = StepBus {
        board,
        reads: &mut reads,
        used: 0,
        writes: &[],
        buffer: StoreBuffer::new(),
    };
    decode(&mut bus, pc)
}

// An address, the bytes from there on, and the instruction that they are, or why they are none.
#[derive(Clone, Copy)]
pub struct Line {
    pub pc: u32,
    pub cells: [Option<u8>; LONGEST],
    pub decoded: Result<Instruction, Refusal>,
}

impl Line {
    // What stands at an address.
    pub fn at<B: Board>(board: &B, pc: u32) -> Line
        ensures { IsLine (B.Board.rights board.now) (B.Board.bytes board.now) pc result }
    {
        let mut cells = [None; LONGEST];
        read_block(board, pc, &mut cells);
        let decoded = decode_on(board, pc);
        Line { pc, cells, decoded }
    }
}

// The bytes of an instruction, in a column that is wide enough for eight.
#[derive(Drop)]
struct Code<'a>(&'a [Option<u8>]);

impl fmt::Display for Code<'_> {
    ghost output = { λ c. Some (code_text c.0.now) };

    fn fmt<W: fmt::Write>(&self, f: &mut fmt::Formatter<W>) -> fmt::Result {
        write!(f, "{}", Cells(self.0))?;
        for _ in 0..8usize.saturating_sub(self.0.len()) {
            write!(f, "   ")?;
        }
        Ok(())
    }
}

impl fmt::Display for Line {
    ghost output = { λ l. Some (line_text l) };

    #[tactic(auto, using(crate::proofs::Columns::printed))]
    fn fmt<W: fmt::Write>(&self, f: &mut fmt::Formatter<W>) -> fmt::Result {
        let pc = self.pc;
        match self.decoded {
            Ok(instruction) => {
                let length = LONGEST.min(instruction.length() as usize);
                let code = Code(&self.cells[..length]);
                let action = ActionText {
                    pc,
                    action: instruction.action(),
                };
                write!(f, "  {pc:08X} {code}  {action}")
            }
            Err(refusal) => write!(f, "  {pc:08X}  refused: {refusal}"),
        }
    }
}

// The instructions of a board that are still to be told.
// Why a type beside Regions: what it gives, and how it goes on after that, is another thing.
#[derive(Drop)]
pub struct Listing<'a, B> {
    board: &'a B,
    // the address of the next one; none after one that was refused
    next: Option<u32>,
}

impl<'a, B: Board> Listing<'a, B> {
    // One instruction after another from an address on, up to the first that is refused.
    pub fn from(board: &'a B, pc: u32) -> Listing<'a, B>
        ensures board { result.board.now ≡ board.now }
        ensures next { result.next ≡ Some pc }
    {
        Listing {
            board,
            next: Some(pc),
        }
    }
}

impl<B: Board> Iterator for Listing<'_, B> {
    type Item = Line;

    ghost next_gives = { λ s r t. TellsLine (B.Board.rights s.board.now) (B.Board.bytes s.board.now) s.next r t.next };

    fn next(&mut self) -> Option<Line> {
        let pc = self.next?;
        let line = Line::at(self.board, pc);
        self.next = match line.decoded {
            Ok(instruction) => Some(pc.wrapping_add(instruction.length())),
            Err(_) => None,
        };
        Some(line)
    }
}
