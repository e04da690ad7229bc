// The four flags, and the conditions over them.
ghost use Rattle.std.specs.Prelude.{◌≡◌, ◌<◌};
ghost use Rattle.number.specs.Words.{bit as bit_of};
ghost use Rattle.number.specs.declared.flags.Flags.{Flags as FlagSet};
ghost use Rattle.number.specs.Conditions.{number_of, condition as condition_of};

use crate::bits::bit;

// Carry, overflow, sign, zero.
#[derive(Clone, Copy, PartialEq, Eq, Debug, Default)]
pub struct Flags {
    pub cy: bool,
    pub ov: bool,
    pub s: bool,
    pub z: bool,
}

// The flags as a number of four bits: CY, OV, S, Z from the top.
impl From<Flags> for u8 {
    ghost from_gives = { λ flags number. number ≡ number_of flags };

    fn from(flags: Flags) -> u8 {
        8 * u8::from(flags.cy) + 4 * u8::from(flags.ov) + 2 * u8::from(flags.s) + u8::from(flags.z)
    }
}

impl Flags {
    // The same number, for who asks by a call, and that it is one of sixteen.
    pub fn number(self) -> u8
        ensures number { result ≡ number_of self }
        ensures bound { result < 16 }
    {
        u8::from(self)
    }
}

// For each condition, where it holds: bit k says whether it does at the flags whose number is k.
// Why a table of numbers, and no `match`: the rules number the conditions, and one computation shows all sixteen to be right.
const HOLDS: [u16; 16] = [
    0xf0f0, // OV
    0x0f0f, // not OV
    0xff00, // CY
    0x00ff, // not CY
    0xaaaa, // Z
    0x5555, // not Z
    0xffaa, // CY or Z
    0x0055, // neither CY nor Z
    0xcccc, // S
    0x3333, // not S
    0xffff, // always
    0x0000, // never
    0x3c3c, // S differs from OV
    0xc3c3, // S equals OV
    0xbebe, // Z, or S differs from OV
    0x4141, // not Z, and S equals OV
];

// The table's entry for a condition. Of its number the low four bits count.
// Why a u8, and no enum: each byte is a condition, and no caller has to make sure of one first.
fn entry(condition: u8) -> u16
    ensures { (f : FlagSet) → bit_of (number_of f) result ≡ condition_of condition f }
{
    HOLDS[usize::from(condition % 16)]
}

// Whether a condition holds at the flags. Of its number the low four bits count.
pub fn holds(condition: u8, flags: Flags) -> bool
    ensures { result ≡ condition_of condition flags }
{
    bit(u64::from(entry(condition)), u32::from(u8::from(flags)))
}
