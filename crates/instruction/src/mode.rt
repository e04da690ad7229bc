// What a mode byte shows.
ghost use Rattle.std.specs.Prelude.{◌≡◌};
ghost use Rattle.instruction.specs.Modes.{plain_mode as plain_of, listed_mode as listed_of, register_mode as register_of, mode_of as mode_by, immediate_verdict as immediate_of, register_verdict as register_judged, refusal_at};

use super::operand::Base;
use super::operation::Access;
use bus::Refusal;
use number::width::Size;

// An address before its displacement is fetched, with the size of that.
#[derive(Clone, Copy, PartialEq, Eq, Debug)]
pub enum Shape {
    Indirect(u8),
    Displaced(Base, Size),
    Deferred(Base, Size),
}

// An operand before its numbers are fetched.
#[derive(Clone, Copy, PartialEq, Eq, Debug)]
pub enum Mode {
    At(Shape),
    Quick(u8),
    Immediate,
    Register(u8),
    Increment(u8),
    Decrement(u8),
    Double(Base, Size),
    Index(u8),
}

// The reasons for which an instruction does not take an operand.
#[derive(Clone, Copy, PartialEq, Eq, Debug)]
pub enum Misfit {
    Reserved,
    Forbidden,
}

impl Misfit {
    // What the operand at that place is refused with.
    pub fn at(self, place: u32) -> Refusal
        ensures { result ≡ refusal_at place self }
    {
        match self {
            Misfit::Reserved => Refusal::ReservedEncoding(place),
            Misfit::Forbidden => Refusal::ForbiddenMode(place),
        }
    }
}

// The mode of a byte whose top three bits are 7, where m is 0, by its low five bits.
fn listed_mode(n: u8) -> Option<Mode>
    ensures { result ≡ listed_of n }
{
    match n {
        0..=15 => Some(Mode::Quick(n)),
        16 => Some(Mode::At(Shape::Displaced(Base::Pc, Size::Byte))),
        17 => Some(Mode::At(Shape::Displaced(Base::Pc, Size::Halfword))),
        18 => Some(Mode::At(Shape::Displaced(Base::Pc, Size::Word))),
        19 => Some(Mode::At(Shape::Displaced(Base::Zero, Size::Word))),
        20 => Some(Mode::Immediate),
        24 => Some(Mode::At(Shape::Deferred(Base::Pc, Size::Byte))),
        25 => Some(Mode::At(Shape::Deferred(Base::Pc, Size::Halfword))),
        26 => Some(Mode::At(Shape::Deferred(Base::Pc, Size::Word))),
        27 => Some(Mode::At(Shape::Deferred(Base::Zero, Size::Word))),
        28 => Some(Mode::Double(Base::Pc, Size::Byte)),
        29 => Some(Mode::Double(Base::Pc, Size::Halfword)),
        30 => Some(Mode::Double(Base::Pc, Size::Word)),
        _ => None,
    }
}

// The mode of a byte where m is 0, and of the second byte of an indexed mode, if it is listed.
pub fn plain_mode(byte: u8) -> Option<Mode>
    ensures { result ≡ plain_of byte }
{
    let n = byte % 32;
    match byte / 32 {
        0 => Some(Mode::At(Shape::Displaced(Base::Register(n), Size::Byte))),
        1 => Some(Mode::At(Shape::Displaced(Base::Register(n), Size::Halfword))),
        2 => Some(Mode::At(Shape::Displaced(Base::Register(n), Size::Word))),
        3 => Some(Mode::At(Shape::Indirect(n))),
        4 => Some(Mode::At(Shape::Deferred(Base::Register(n), Size::Byte))),
        5 => Some(Mode::At(Shape::Deferred(Base::Register(n), Size::Halfword))),
        6 => Some(Mode::At(Shape::Deferred(Base::Register(n), Size::Word))),
        _ => listed_mode(n),
    }
}

// The mode of a byte where m is 1, if it is listed.
fn register_mode(byte: u8) -> Option<Mode>
    ensures { result ≡ register_of byte }
{
    let n = byte % 32;
    match byte / 32 {
        0 => Some(Mode::Double(Base::Register(n), Size::Byte)),
        1 => Some(Mode::Double(Base::Register(n), Size::Halfword)),
        2 => Some(Mode::Double(Base::Register(n), Size::Word)),
        3 => Some(Mode::Register(n)),
        4 => Some(Mode::Increment(n)),
        5 => Some(Mode::Decrement(n)),
        6 => Some(Mode::Index(n)),
        _ => None,
    }
}

// The mode of a byte, by the bit m, if it is listed.
pub fn mode_of(m: bool, byte: u8) -> Option<Mode>
    ensures { result ≡ mode_by m byte }
{
    if m {
        register_mode(byte)
    } else {
        plain_mode(byte)
    }
}

// Whether an operand may be an immediate.
pub fn immediate_verdict(access: Access, size: Size) -> Result<(), Misfit>
    ensures { result ≡ immediate_of access size }
{
    match (access, size) {
        (Access::Read, Size::Doubleword) => Err(Misfit::Reserved),
        (Access::Read, _) => Ok(()),
        _ => Err(Misfit::Forbidden),
    }
}

// Whether an operand may be register n.
pub fn register_verdict(access: Access, size: Size, n: u8) -> Result<(), Misfit>
    ensures { result ≡ register_judged access size n }
{
    match (access, size) {
        (Access::Address, _) => Err(Misfit::Forbidden),
        (_, Size::Doubleword) if n == 31 => Err(Misfit::Reserved),
        _ => Ok(()),
    }
}
