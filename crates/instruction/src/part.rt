// The parts of an instruction's code.

// What a part of the code says, and the address after it.
#[derive(Clone, Copy, PartialEq, Eq, Debug)]
pub struct Part<T> {
    pub value: T,
    pub next: u32,
}
