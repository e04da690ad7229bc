// Shifts and rotation. A count above 0 goes to the left, and one below 0 to the right.
ghost use Rattle.std.specs.Prelude.{◌≡◌, ◌*◌, ◌%◌, ◌^◌, ◌<◌, pos, ◌*ℤ◌};
ghost use Rattle.number.specs.Words.{modulo, signed, fits, bit as bit_of};
ghost use Rattle.number.specs.Outcomes.{shown, left as left_is, shifted, arithmetic_shifted, rotated};

use crate::arithmetic::{Computed, with_flags};
use crate::bits::{bit, bit_signed, lowered, lowered_signed};
use crate::width::{Arithmetic, low_signed};

// Whether the number with its sign, times 2^by, is a signed number of the width.
fn product_fits<W: Arithmetic>(x: W, by: u32) -> bool
    ensures { result ≡ fits (8 * W.Width.size) (signed (8 * W.Width.size) (W.Width.value x) *ℤ pos (2 ^ by)) }
{
    let n = x.to_u64();
    let sign = W::SIGN;
    if n < sign {
        n <= lowered(sign - 1, by)
    } else {
        W::modulus() - n <= lowered(sign, by)
    }
}

// The number times 2^by: right in the bits of the width, and in the next one.
#[tactic(auto, using(crate::proofs::Powers::up_low, crate::proofs::Powers::up_next))]
fn raised<W: Arithmetic>(x: W, by: u32) -> u64
    ensures low { result % 2 ^ (8 * W.Width.size) ≡ W.Width.value x * 2 ^ by % 2 ^ (8 * W.Width.size) }
    ensures next { bit_of (8 * W.Width.size) result ≡ bit_of (8 * W.Width.size) (W.Width.value x * 2 ^ by) }
{
    x.to_u64().checked_shl(by).unwrap_or(0)
}

// To the left, with OV as given.
fn left<W: Arithmetic>(dst: W, by: u32, ov: bool) -> Computed<W>
    ensures { shown W.Width.value result ≡ left_is (8 * W.Width.size) (W.Width.value dst) by ov }
{
    let product = raised(dst, by);
    let cy = by != 0 && bit(product, W::bits());
    with_flags(W::low(product), cy, ov)
}

// The number without a sign, times 2^count, rounded down.
pub fn shift_logical<W: Arithmetic>(dst: W, count: i8) -> Computed<W>
    ensures { shown W.Width.value result ≡ shifted (8 * W.Width.size) (W.Width.value dst) count }
{
    let by = u32::from(count.unsigned_abs());
    if count < 0 {
        let n = dst.to_u64();
        with_flags(W::low(lowered(n, by)), bit(n, by - 1), false)
    } else {
        left(dst, by, false)
    }
}

// The number with its sign, times 2^count, rounded down.
pub fn shift_arithmetic<W: Arithmetic>(dst: W, count: i8) -> Computed<W>
    ensures { shown W.Width.value result ≡ arithmetic_shifted (8 * W.Width.size) (W.Width.value dst) count }
{
    let by = u32::from(count.unsigned_abs());
    if count < 0 {
        let z = dst.to_i32();
        with_flags(
            low_signed(i64::from(lowered_signed(z, by))),
            bit_signed(z, by - 1),
            false,
        )
    } else {
        left(dst, by, !product_fits(dst, by))
    }
}

// The count modulo the width.
fn turns<W: Arithmetic>(count: i8) -> u32
    ensures number { result ≡ modulo count (8 * W.Width.size) }
    ensures bound { result < 8 * W.Width.size }
{
    i32::from(count).rem_euclid(W::bits().cast_signed()) as u32
}

// The number turned to the left by the count modulo the width.
pub fn rotate<W: Arithmetic>(dst: W, count: i8) -> Computed<W>
    ensures { shown W.Width.value result ≡ rotated (8 * W.Width.size) (W.Width.value dst) count }
{
    let result = dst.turn(turns::<W>(count));
    let n = result.to_u64();
    let cy = if count < 0 {
        bit(n, W::bits() - 1)
    } else {
        count != 0 && bit(n, 0)
    };
    with_flags(result, cy, false)
}
