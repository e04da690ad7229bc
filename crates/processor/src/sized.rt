// Numbers at a size that is known when the code runs.
ghost use Rattle.std.specs.Prelude.{◌≡◌, ◌*◌, ◌%◌, ◌^◌};
ghost use Rattle.number.specs.Words.{signed};
ghost use Rattle.number.specs.Sizes.{byte_count};

use number::width::{Size, Width};

// The low bits of a number, at a size, without their sign.
pub(crate) fn low_of(size: Size, number: u64) -> u64
    ensures { result ≡ number % 2 ^ (8 * byte_count size) }
{
    match size {
        Size::Byte => number % 0x100,
        Size::Halfword => number % 0x1_0000,
        Size::Word => number % 0x1_0000_0000,
        Size::Doubleword => number,
    }
}

// The low bits of a number, at a size, with their sign.
//
// Why a match: of a number shifted to the top of 64 bits and back, which keeps its sign, the proof did not close.
pub(crate) fn signed_of(size: Size, number: u64) -> i64
    ensures { result ≡ signed (8 * byte_count size) (number % 2 ^ (8 * byte_count size)) }
{
    match size {
        Size::Byte => u8::low(number).to_i64(),
        Size::Halfword => u16::low(number).to_i64(),
        Size::Word => u32::low(number).to_i64(),
        Size::Doubleword => u64::low(number).to_i64(),
    }
}
