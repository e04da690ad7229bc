// The widths of numbers, and moves from one to another.
ghost use Rattle.std.specs.Prelude.{◌≡◌, ℕ, ◌+◌, ◌-◌, ◌*◌, ◌%◌, ◌^◌, ◌<◌, ◌≤◌, IsTrue, Some};
ghost use Rattle.number.specs.Words.{signed, fits, residue, byte_of, from_bytes};
ghost use Rattle.number.specs.Outcomes.{turned};
ghost use Rattle.number.specs.Sizes.{byte_count, letter};

use crate::bits::joined;
use std::fmt;
use std::fmt::Write;
use std::marker::Copy;

mod byte;
mod doubleword;
mod halfword;
mod word;

// A number of one, two, four or eight bytes.
pub trait Width: Copy {
    // how many bytes it has
    const BYTES: u32;

    ghost BYTES: { ℕ };

    // its top bit
    const SIGN: u64;

    ghost SIGN: { ℕ };

    // how many bytes it has, as clauses name it
    ghost size: { ℕ };

    // the number, without a sign
    ghost value: { Self → ℕ };

    // Why each width has these three of its own: they are the conversions of its own type.

    // the number, without a sign
    fn to_u64(self) -> u64
        ensures number { result ≡ value self }
        ensures bound { result < 2 ^ (8 * size) };

    // the number, with its sign
    fn to_i64(self) -> i64
        ensures number { result ≡ signed (8 * size) (value self) }
        ensures bound { IsTrue (fits (8 * size) result) };

    // the number of the low bits
    fn low(n: u64) -> Self
        ensures number { value result ≡ n % 2 ^ (8 * size) }
        ensures exact { n < 2 ^ (8 * size) → value result ≡ n };

    // the constant, for who asks by a call
    final fn byte_count() -> u32
        ensures count { result ≡ size }
        ensures least { 1 ≤ result }
        ensures most { result ≤ 8 }
    {
        Self::BYTES
    }

    // the constant, for who asks by a call
    final fn sign_bit() -> u64
        ensures power { result ≡ 2 ^ (8 * size - 1) }
        ensures half { result + result ≡ 2 ^ (8 * size) }
    {
        Self::SIGN
    }

    // byte i of the number, the lowest first; 0 past its end
    final fn byte(self, i: u32) -> u8
        ensures { result ≡ byte_of (value self) i }
    {
        let bytes = self.to_u64().to_le_bytes();
        bytes.get(i as usize).copied().unwrap_or(0)
    }

    // the number whose bytes come first in the list, the lowest first
    final fn from_bytes(bytes: [u8; 8]) -> Self
        ensures { value result ≡ from_bytes size bytes }
    {
        Self::low(joined(&bytes))
    }

    ghost counted: { BYTES ≡ size };

    ghost topped: { SIGN ≡ 2 ^ (8 * size - 1) };

    ghost some: { 1 ≤ size };

    ghost narrow: { size ≤ 8 };
}

// A width that has arithmetic, of at most four bytes.
pub trait Arithmetic: Width {
    // the number turned to the left by so many bits, modulo its width
    // Why each width has this of its own: it is the rotation of its own type.
    fn turn(self, by: u32) -> Self
        ensures number { Self.Width.value result ≡ turned (8 * Self.Width.size) (Self.Width.value self) (by % (8 * Self.Width.size)) }
        ensures less { by < 8 * Self.Width.size → Self.Width.value result ≡ turned (8 * Self.Width.size) (Self.Width.value self) by };

    // how many bits it has
    final fn bits() -> u32
        ensures count { result ≡ 8 * Self.Width.size }
        ensures least { 8 ≤ result }
        ensures most { result ≤ 32 }
    {
        8 * Self::BYTES
    }

    // one more than the greatest number
    final fn modulus() -> u64
        ensures power { result ≡ 2 ^ (8 * Self.Width.size) }
        ensures half { result ≡ 2 * 2 ^ (8 * Self.Width.size - 1) }
        ensures most { result ≤ 2 ^ 32 }
    {
        2 * Self::SIGN
    }

    // the number, without a sign
    final fn to_u32(self) -> u32
        ensures number { result ≡ Self.Width.value self }
        ensures bound { result < 2 ^ (8 * Self.Width.size) }
    {
        self.to_u64() as u32
    }

    // the number, with its sign
    #[tactic(auto, using(crate::proofs::Spans::fits_word))]
    final fn to_i32(self) -> i32
        ensures { result ≡ signed (8 * Self.Width.size) (Self.Width.value self) }
    {
        self.to_i64() as i32
    }

    ghost short: { Self.Width.size ≤ 4 };
}

// 0, as a number of the width.
pub fn zero<W: Width>() -> W
    ensures { W.Width.value result ≡ 0 }
{
    W::low(0)
}

// 1, as a number of the width.
#[tactic(auto, using(std::proofs::lemmas::Nat::pow_below))]
pub fn one<W: Width>() -> W
    ensures { W.Width.value result ≡ 1 }
{
    W::low(1)
}

// The number of the low bits of a number with a sign.
#[tactic(auto, using(crate::proofs::Residues::low_bits))]
pub fn low_signed<W: Width>(z: i64) -> W
    ensures { W.Width.value result ≡ residue (8 * W.Width.size) z }
{
    W::low(z.cast_unsigned())
}

// The number without a sign, in another width: with zeros above it where that one is wider.
pub fn zero_extend<A: Width, B: Width>(x: A) -> B
    ensures { B.Width.value result ≡ A.Width.value x % 2 ^ (8 * B.Width.size) }
{
    B::low(x.to_u64())
}

// The number with its sign, in another width: with its top bit above it where that one is wider.
pub fn sign_extend<A: Width, B: Width>(x: A) -> B
    ensures { B.Width.value result ≡ residue (8 * B.Width.size) (signed (8 * A.Width.size) (A.Width.value x)) }
{
    low_signed(x.to_i64())
}

// The widths by name.
#[derive(Clone, Copy, PartialEq, Eq, Debug)]
pub enum Size {
    Byte,
    Halfword,
    Word,
    Doubleword,
}

impl Size {
    // How many bytes it has.
    pub fn bytes(self) -> u32
        ensures { result ≡ byte_count self }
    {
        match self {
            Size::Byte => <u8 as Width>::BYTES,
            Size::Halfword => <u16 as Width>::BYTES,
            Size::Word => <u32 as Width>::BYTES,
            Size::Doubleword => <u64 as Width>::BYTES,
        }
    }
}

// A width by its letter.
impl fmt::Display for Size {
    ghost output = { λ size. Some (letter size) };

    fn fmt<W: fmt::Write>(&self, f: &mut fmt::Formatter<W>) -> fmt::Result {
        f.write_str(match self {
            Size::Byte => "b",
            Size::Halfword => "h",
            Size::Word => "w",
            Size::Doubleword => "d",
        })
    }
}
