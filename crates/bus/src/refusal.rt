ghost use Rattle.std.specs.Prelude.{◌≡◌, Some};
ghost use Rattle.bus.specs.Refusals.{number_of, place_of, refusal_text};

use std::error::Error;
use std::fmt;

// The reasons for which a call is refused, each with its place where it has one.
#[derive(Clone, Copy, PartialEq, Eq, Debug)]
pub enum Refusal {
    // a byte lacks the right needed: its address
    NoRight(u32),
    // the opcode or subcode is not served, or the low five bits of a Format II second byte are not 0: the PC
    NotServed(u32),
    // the encoding is not listed, a doubleword immediate, or R31 as a doubleword: the operand's first mode byte, or the
    // second instruction byte where that names the register
    ReservedEncoding(u32),
    // the instruction does not permit the mode here: the same place
    ForbiddenMode(u32),
    // a length byte with bit 7 set and bit 5 or 6 set: that byte
    BadLengthByte(u32),
    // a string of more than 128 characters: its length byte
    TooLong(u32),
    // fewer than 300 free reads lines
    ReadsFull,
    // fewer than 256 free writes lines
    WritesFull,
    // a sheet shorter than its used lines
    SheetTooShort,
    // a register number above 31 from a caller
    NoSuchRegister,
    // 1,000,000,000 steps are complete
    StepLimit,
}

impl Refusal {
    // The number by which a refusal is known.
    // Why numbers beside the enum: the machine's rules name its refusals by them.
    pub fn number(self) -> u8
        ensures { result ≡ number_of self }
    {
        match self {
            Refusal::NoRight(_) => 10,
            Refusal::NotServed(_) => 16,
            Refusal::ReservedEncoding(_) => 18,
            Refusal::ForbiddenMode(_) => 19,
            Refusal::BadLengthByte(_) => 20,
            Refusal::TooLong(_) => 70,
            Refusal::ReadsFull => 71,
            Refusal::WritesFull => 72,
            Refusal::SheetTooShort => 73,
            Refusal::NoSuchRegister => 74,
            Refusal::StepLimit => 75,
        }
    }

    // The address that it is about, or 0.
    pub fn place(self) -> u32
        ensures { result ≡ place_of self }
    {
        match self {
            Refusal::NoRight(place)
            | Refusal::NotServed(place)
            | Refusal::ReservedEncoding(place)
            | Refusal::ForbiddenMode(place)
            | Refusal::BadLengthByte(place)
            | Refusal::TooLong(place) => place,
            Refusal::ReadsFull
            | Refusal::WritesFull
            | Refusal::SheetTooShort
            | Refusal::NoSuchRegister
            | Refusal::StepLimit => 0,
        }
    }
}

// The number and the place, as the programs print them.
impl fmt::Display for Refusal {
    ghost output = { λ r. Some (refusal_text r) };

    fn fmt<W: fmt::Write>(&self, f: &mut fmt::Formatter<W>) -> fmt::Result {
        let number = self.number();
        let place = self.place();
        write!(f, "{number} at {place:08X}")
    }
}

impl Error for Refusal {}
