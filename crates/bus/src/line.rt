// The lines of the two sheets, and the one search over them.
ghost use Rattle.std.specs.Prelude.{◌≡◌, ℕ};
ghost use Rattle.bus.specs.Sheets.{names as names_in};

// A line of the reads sheet: a byte that was fetched from the board.
#[derive(Clone, Copy, PartialEq, Eq, Debug, Default)]
pub struct ReadLine {
    pub address: u32,
    pub byte: u8,
}

// A line of the writes sheet: a byte that a step stored on the board. The first completed step has number 1.
#[derive(Clone, Copy, PartialEq, Eq, Debug, Default)]
pub struct WriteLine {
    pub step: u32,
    pub address: u32,
    pub byte: u8,
}

// A line that tells an address.
pub trait Line {
    ghost at: { Self → ℕ };

    fn address(&self) -> u32
        ensures { result ≡ at self.now };
}

// Why an impl for each: a trait has no fields, so each line says which of its own is the address.
impl Line for ReadLine {
    ghost at = { λ l. l.address };

    fn address(&self) -> u32 {
        self.address
    }
}

impl Line for WriteLine {
    ghost at = { λ l. l.address };

    fn address(&self) -> u32 {
        self.address
    }
}

// Whether some line names the address.
pub fn names<L: Line>(lines: &[L], address: u32) -> bool
    ensures { result ≡ names_in L.Line.at address lines.now }
{
    // Why a loop, and no `any`: the rules of the sheets ask that every used line is looked at, also after a hit.
    let mut found = false;
    for line in lines {
        found |= line.address() == address;
    }
    found
}
