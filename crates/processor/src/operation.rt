// What operations come to, as numbers and flags.
ghost use Rattle.std.specs.Prelude.{◌≡◌, ◌*◌, ◌%◌, ◌^◌, ◌<◌};
ghost use Rattle.number.specs.Words.{signed};
ghost use Rattle.number.specs.Sizes.{byte_count};
ghost use Rattle.number.specs.Outcomes.{shown};
ghost use Rattle.processor.specs.Operations.{combined as combined_is, result as result_is};

use super::sized::{low_of, signed_of};
use instruction::TwoOperation;
use number::arithmetic::{Computed, add, and, not, or, subtract, xor};
use number::flags::Flags;
use number::shift::{rotate, shift_arithmetic, shift_logical};
use number::width::{Arithmetic, Size, Width, low_signed, zero};

// The low byte as a signed count.
fn count(number: u64) -> i8
    ensures { result ≡ signed 8 (number % 256) }
{
    u8::low(number).cast_signed()
}

// A result at its width as a number of 64 bits.
pub fn of_width<W: Arithmetic>(computed: Computed<W>) -> Computed<u64>
    ensures { shown (λ n. n) result ≡ shown W.Width.value computed }
{
    Computed {
        value: computed.value.to_u64(),
        flags: computed.flags,
    }
}

// The number alone, with the flags as they were.
pub fn moved<W: Width>(value: W, flags: Flags) -> Computed<W>
    ensures { result ≡ record { value = value; flags = flags } }
{
    Computed { value, flags }
}

// The result of an instruction of two operands, at the destination's width.
fn combined<W: Arithmetic>(
    operation: TwoOperation,
    first: Size,
    flags: Flags,
    x: u64,
    y: u64,
) -> Computed<W>
    ensures { shown W.Width.value result ≡ combined_is operation (8 * byte_count first) (8 * W.Width.size) flags x y }
{
    let src: W = W::low(x);
    let dst: W = W::low(y);
    match operation {
        TwoOperation::Mov | TwoOperation::Movea => moved(src, flags),
        TwoOperation::Movs => moved(low_signed(signed_of(first, x)), flags),
        TwoOperation::Movz => moved(W::low(low_of(first, x)), flags),
        TwoOperation::Add => add(dst, src, false),
        TwoOperation::Addc => add(dst, src, flags.cy),
        TwoOperation::Sub | TwoOperation::Cmp => subtract(dst, src, false),
        TwoOperation::Subc => subtract(dst, src, flags.cy),
        TwoOperation::Neg => subtract(zero(), src, false),
        TwoOperation::And => and(dst, src, flags),
        TwoOperation::Or => or(dst, src, flags),
        TwoOperation::Xor => xor(dst, src, flags),
        TwoOperation::Not => not(src, flags),
        TwoOperation::Shl => shift_logical(dst, count(x)),
        TwoOperation::Sha => shift_arithmetic(dst, count(x)),
        TwoOperation::Rot => rotate(dst, count(x)),
    }
}

// The result of an instruction of two operands, at its sizes. A doubleword serves moves only.
pub fn result(
    operation: TwoOperation,
    first: Size,
    second: Size,
    flags: Flags,
    x: u64,
    y: u64,
) -> Computed<u64>
    ensures { shown (λ n. n) result ≡ result_is operation first second flags x y }
{
    match second {
        Size::Byte => of_width(combined::<u8>(operation, first, flags, x, y)),
        Size::Halfword => of_width(combined::<u16>(operation, first, flags, x, y)),
        Size::Word => of_width(combined::<u32>(operation, first, flags, x, y)),
        Size::Doubleword => moved(x, flags),
    }
}
