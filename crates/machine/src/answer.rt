// What a run answers.
ghost use Rattle.std.specs.Prelude.{◌≡◌, Some};
ghost use Rattle.machine.specs.Asked.{answer_number, answer_place};

use bus::Refusal;
use std::fmt;

// How many steps a call completed, and why it went no further, if it did not.
// Why an Option, and no Result: a run that was refused has completed steps to tell of, too.
#[derive(Clone, Copy, PartialEq, Eq, Debug)]
pub struct Answer {
    pub completed: u32,
    pub refusal: Option<Refusal>,
}

impl Answer {
    // The number of the refusal, 0 for none.
    pub fn number(self) -> u8
        ensures { result ≡ answer_number self.refusal }
    {
        self.refusal.map_or(0, Refusal::number)
    }

    // Its place, 0 for none.
    pub fn place(self) -> u32
        ensures { result ≡ answer_place self.refusal }
    {
        self.refusal.map_or(0, Refusal::place)
    }
}

// The steps, and the refusal if there is one, as the programs print them.
impl fmt::Display for Answer {
    ghost use Rattle.machine.specs.Shown.{answer_text};

    ghost output = { λ a. Some (answer_text a) };

    fn fmt<W: fmt::Write>(&self, f: &mut fmt::Formatter<W>) -> fmt::Result {
        let completed = self.completed;
        write!(f, "{completed} completed")?;
        match self.refusal {
            None => Ok(()),
            Some(refusal) => write!(f, ", refused: {refusal}"),
        }
    }
}
