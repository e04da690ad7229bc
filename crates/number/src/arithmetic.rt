// Sums, differences and logic, with their flags.
// Why dst, src and the flags before as parameters, and no struct of them: not every operation has all three.
ghost use Rattle.std.specs.Prelude.{◌≡◌, ℕ, false, ◌*◌, ◌^◌, ◌<◌, pos, ◌+ℤ◌, ◌-ℤ◌};
ghost use Rattle.std.specs.Int.{from_bool};
ghost use Rattle.number.specs.Words.{signed, fits as fits_in};
ghost use Rattle.number.specs.Outcomes.{shown, outcome, added, subtracted, anded, ored, xored, inverted, tested};

use crate::bits::bit;
use crate::flags::Flags;
use crate::width::{Arithmetic, low_signed};

// A number, and the flags that come with it.
#[derive(Clone, Copy, PartialEq, Eq, Debug)]
pub struct Computed<W> {
    pub value: W,
    pub flags: Flags,
}

// The number with its flags: S and Z from the number.
pub(crate) fn with_flags<W: Arithmetic>(value: W, cy: bool, ov: bool) -> Computed<W>
    ensures { shown W.Width.value result ≡ outcome (8 * W.Width.size) (W.Width.value value) cy ov }
{
    let n = value.to_u64();
    let s = bit(n, W::bits() - 1);
    let z = n == 0;
    Computed {
        value,
        flags: Flags { cy, ov, s, z },
    }
}

// Whether it is a signed number of the width.
fn fits<W: Arithmetic>(z: i64) -> bool
    ensures { result ≡ fits_in (8 * W.Width.size) z }
{
    let half = (W::modulus() / 2) as i64;
    -half <= z && z < half
}

// dst + src, and 1 more with a carry.
pub fn add<W: Arithmetic>(dst: W, src: W, carry: bool) -> Computed<W>
    ensures { shown W.Width.value result ≡ added (8 * W.Width.size) (W.Width.value dst) (W.Width.value src) carry }
{
    let sum = u64::from(dst.to_u32()) + u64::from(src.to_u32()) + u64::from(carry);
    let exact = i64::from(dst.to_i32()) + i64::from(src.to_i32()) + i64::from(carry);
    with_flags(W::low(sum), sum >= W::modulus(), !fits::<W>(exact))
}

// dst - src, and 1 less with a borrow. From 0 it negates, and without its number it compares.
pub fn subtract<W: Arithmetic>(dst: W, src: W, borrow: bool) -> Computed<W>
    ensures { shown W.Width.value result ≡ subtracted (8 * W.Width.size) (W.Width.value dst) (W.Width.value src) borrow }
{
    let left = i64::from(dst.to_u32()) - i64::from(src.to_u32()) - i64::from(borrow);
    let exact = i64::from(dst.to_i32()) - i64::from(src.to_i32()) - i64::from(borrow);
    with_flags(low_signed(left), left < 0, !fits::<W>(exact))
}

// The bits that an operation makes of those of both numbers, with CY as it was before.
fn bitwise<W: Arithmetic, F: FnOnce(u64, u64) -> u64>(
    operation: F,
    dst: W,
    src: W,
    before: Flags,
) -> Computed<W>
    requires callable { F.IsAlwaysCallable operation }
    requires within { (a b n w : ℕ) → a < 2 ^ w → b < 2 ^ w → F.post operation a b n → n < 2 ^ w }
    ensures { (n : ℕ) × F.post operation (W.Width.value dst) (W.Width.value src) n × shown W.Width.value result ≡ outcome (8 * W.Width.size) n before.cy false }
{
    let bits = operation(dst.to_u64(), src.to_u64());
    with_flags(W::low(bits), before.cy, false)
}

// The bits that both have.
pub fn and<W: Arithmetic>(dst: W, src: W, before: Flags) -> Computed<W>
    ensures { shown W.Width.value result ≡ anded (8 * W.Width.size) (W.Width.value dst) (W.Width.value src) before }
{
    bitwise(|a, b| a & b, dst, src, before)
}

// The bits that at least one has.
#[tactic(auto, using(std::proofs::lemmas::Nat::or_lt))]
pub fn or<W: Arithmetic>(dst: W, src: W, before: Flags) -> Computed<W>
    ensures { shown W.Width.value result ≡ ored (8 * W.Width.size) (W.Width.value dst) (W.Width.value src) before }
{
    bitwise(|a, b| a | b, dst, src, before)
}

// The bits that just one has.
#[tactic(auto, using(std::proofs::lemmas::Nat::xor_lt))]
pub fn xor<W: Arithmetic>(dst: W, src: W, before: Flags) -> Computed<W>
    ensures { shown W.Width.value result ≡ xored (8 * W.Width.size) (W.Width.value dst) (W.Width.value src) before }
{
    bitwise(|a, b| a ^ b, dst, src, before)
}

// Each bit the other way.
#[tactic(auto, using(crate::proofs::Residues::complement))]
pub fn not<W: Arithmetic>(src: W, before: Flags) -> Computed<W>
    ensures { shown W.Width.value result ≡ inverted (8 * W.Width.size) (W.Width.value src) before }
{
    with_flags(W::low(!src.to_u64()), before.cy, false)
}

// The number as it is, with its flags.
pub fn test<W: Arithmetic>(src: W) -> Computed<W>
    ensures { shown W.Width.value result ≡ tested (8 * W.Width.size) (W.Width.value src) }
{
    with_flags(src, false, false)
}
