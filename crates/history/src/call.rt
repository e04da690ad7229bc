// Calls as values, and what they answer.
ghost use Rattle.std.specs.Prelude.{◌≡◌};

use bus::Refusal;
use machine::Answer;

// How many lines a step or a run gets of each sheet.
#[derive(Clone, Copy, PartialEq, Eq, Debug)]
pub struct Lines {
    pub reads: usize,
    pub writes: usize,
}

// A call with its arguments.
#[derive(Clone, Copy, PartialEq, Eq, Debug)]
pub enum Call {
    // a register's number, and the value that it gets
    Preset(u32, u32),
    // the PC
    Start(u32),
    Step(Lines),
    // how many steps, before the lines
    Run(u32, Lines),
    Close,
}

// What a call answers.
#[derive(Clone, Copy, PartialEq, Eq, Debug)]
pub enum Reply {
    Accepted,
    Refused(Refusal),
    Ran(Answer),
    // the call does not fit the session's state, and did nothing; a program that makes it on the session's type does not build
    OutOfPlace,
}

// What a preset replies.
impl From<Result<(), Refusal>> for Reply {
    ghost use Rattle.history.specs.History.{replied};

    ghost from_gives = { λ answer reply. reply ≡ replied answer };

    fn from(answer: Result<(), Refusal>) -> Reply {
        match answer {
            Ok(()) => Reply::Accepted,
            Err(refusal) => Reply::Refused(refusal),
        }
    }
}
