// What a line of a job script says.

// The bytes that a board is made with.
#[derive(Clone, Copy, PartialEq, Eq, Debug)]
pub enum Contents<'a> {
    // hexadecimal digits, two a byte
    Digits(&'a [u8]),
    // the name of the file that holds them
    File(&'a [u8]),
}

// Words, names and digits are borrowed from the line.
#[derive(Clone, Copy, PartialEq, Eq, Debug)]
pub enum Command<'a> {
    Case(&'a [u8]),
    Ram { base: u32, contents: Contents<'a> },
    Rom { base: u32, contents: Contents<'a> },
    Sensor { base: u32, readings: [u16; 16] },
    Cut { at: u32 },
    Store { address: u32, byte: u8 },
    Peek { address: u32 },
    Dump { address: u32, count: u32 },
    Sheets { reads: u32, writes: u32 },
    Open,
    Preset { register: u32, value: u32 },
    Start { pc: u32 },
    Step,
    Run { steps: u32 },
    Close,
    Reg { register: u32 },
    Show,
    Reads,
    Writes,
    List { address: u32, count: u32 },
    Report,
}
