// What a session holds.
use processor::Cpu;

// Registers, PC and flags, the count of completed steps, and how many lines of each sheet are used.
#[derive(Clone, Copy, PartialEq, Eq, Debug, Default)]
pub struct Machine {
    pub cpu: Cpu,
    pub completed: u32,
    pub read: usize,
    pub written: usize,
}
