// The stack of boards that a script works on.
ghost use Rattle.std.specs.Prelude.{◌≡◌, ◌<◌, ◌-◌, ◌↔◌, [], ◌∷◌, ◌++◌, length, map, OnOk, OnErr, IsErrOf, slice_get, slice_set};
ghost use Rattle.std.specs.Option.{option_copied, option_copied_mut};
ghost use Rattle.std.specs.Borrow.{sem};
ghost use Rattle.assembly.specs.Made.{meaning_of};
ghost use Rattle.assembly.specs.Stack.{cut_last, top_of, without_top};

use super::made::{Assembly, Uncut};
use std::alloc::{AllocError, Global};
use std::error::Error;
use std::fmt;
use std::marker::Model;

// Boards one upon another. It is seen as the list of them, the lowest first.
#[derive(Drop)]
pub struct Stack {
    boards: Vec<Assembly>,
}

impl Model for Stack {
    ghost use Rattle.std.specs.Prelude.{List};
    ghost use Rattle.assembly.specs.declared.made.Assembly.{Assembly};

    ghost Value = { List Assembly };

    ghost view = { λ s. s.boards.items };
}

// Why two boards were not cut.
#[derive(Clone, Copy, PartialEq, Eq, Debug)]
pub enum CutError {
    TooFewBoards,
    OutOfMemory,
}

impl fmt::Display for CutError {
    fn fmt<W: fmt::Write>(&self, f: &mut fmt::Formatter<W>) -> fmt::Result {
        match self {
            CutError::TooFewBoards => write!(f, "a cut takes two boards off the stack"),
            CutError::OutOfMemory => write!(f, "out of memory"),
        }
    }
}

impl Error for CutError {}

impl Stack {
    ghost use Rattle.assembly.specs.Lending.{LendsTop};

    pub fn new(alloc: Global) -> Stack
        ensures { result ≡ [] }
    {
        Stack {
            boards: Vec::new(alloc),
        }
    }

    // Where memory runs out the board is let go.
    pub fn push(&mut self, board: Assembly) -> Result<(), AllocError>
        ensures ok { OnOk result (self.new ≡ self.old ++ board ∷ []) }
        ensures err { OnErr result (self.new ≡ self.old) }
    {
        self.boards.push(board)?;
        Ok(())
    }

    pub fn pop(&mut self) -> Option<Assembly>
        ensures board { result ≡ top_of self.old }
        ensures left { self.new ≡ without_top self.old }
    {
        self.boards.pop()
    }

    pub fn top(&self) -> Option<&Assembly>
        ensures { option_copied result ≡ top_of self.now }
    {
        self.boards.last()
    }

    pub fn top_mut(&mut self) -> Option<&mut Assembly>
        ensures* writes_back { sem 𝓛 (LendsTop self.entry result) }
        ensures board { option_copied_mut result ≡ top_of self.old }
    {
        self.boards.last_mut()
    }

    // Takes the upper and then the lower board off, and pushes their cut. Where there are fewer than two, and where memory
    // runs out, all mean what they meant.
    pub fn cut(&mut self, at: u32) -> Result<(), CutError>
        ensures ok { OnOk result (map meaning_of self.new ≡ cut_last at (map meaning_of self.old)) }
        ensures too_few { IsErrOf result CutError.TooFewBoards ↔ (length self.old < 2) }
        ensures err { OnErr result (map meaning_of self.new ≡ map meaning_of self.old) }
    {
        if self.boards.len() < 2 {
            return Err(CutError::TooFewBoards);
        }
        let upper = self.boards.pop().unwrap();
        let lower = self.boards.pop().unwrap();
        match Assembly::cut(at, lower, upper) {
            Ok(board) => {
                self.boards.push(board).unwrap();
                Ok(())
            }
            Err(Uncut { lower, upper }) => {
                self.boards.push(lower).unwrap();
                self.boards.push(upper).unwrap();
                Err(CutError::OutOfMemory)
            }
        }
    }
}
