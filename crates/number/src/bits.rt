// Bits of a number, and numbers moved along their bits, at any distance.
ghost use Rattle.std.specs.Prelude.{◌≡◌, ℕ, ◌*◌, ◌/◌, ◌%◌, ◌^◌, ◌≤◌};
ghost use Rattle.std.specs.Int.Signed.{shr_z};
ghost use Rattle.number.specs.Words.{bit as bit_of, signed_bit, from_bytes};

// The number divided by 2^by, rounded down.
#[tactic(auto, using(crate::proofs::Powers::down))]
pub fn lowered(n: u64, by: u32) -> u64
    ensures { result ≡ n / 2 ^ by }
{
    n.checked_shr(by).unwrap_or(0)
}

// Bit i of a number.
pub fn bit(n: u64, i: u32) -> bool
    ensures { result ≡ bit_of i n }
{
    lowered(n, i) % 2 == 1
}

// The number with a sign divided by 2^by, rounded down.
#[tactic(auto, using(crate::proofs::Powers::far_signed))]
pub fn lowered_signed(z: i32, by: u32) -> i32
    ensures { result ≡ shr_z z (2 ^ by) }
{
    z >> by.min(31)
}

// Bit i of a number with a sign.
pub fn bit_signed(z: i32, i: u32) -> bool
    ensures { result ≡ signed_bit i z }
{
    lowered_signed(z, i).rem_euclid(2) == 1
}

// The number whose bytes these are, the lowest first: its low bytes are the first ones.
// Why a borrow: of an array that is lent it is known that each byte is below 256, and of one that is handed on it is not.
#[tactic(auto, using(crate::proofs::Bytes::low_bytes))]
pub fn joined(bytes: &[u8; 8]) -> u64
    ensures { (k : ℕ) → k ≤ 8 → result % 2 ^ (8 * k) ≡ from_bytes k bytes.now }
{
    u64::from_le_bytes(*bytes)
}
