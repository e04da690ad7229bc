// A session that was closed.
use machine::{Machine, Questions};

// It may only be asked.
#[derive(PartialEq, Eq, Debug, Drop)]
pub struct Closed {
    pub(crate) machine: Machine,
}

impl Questions for Closed {
    ghost holds = { λ s. s.machine };

    fn machine(&self) -> Machine {
        self.machine
    }
}
