// Bytes written as hexadecimal digits, two a byte, the high one first.
ghost use Rattle.std.specs.Prelude.{◌≡◌, ◌+◌, ◌%◌, ◌^◌, ◌<◌, ◌≤◌, length, take, drop, sum, slice_index, is_some};
ghost use Rattle.std.specs.List.{list_all};
ghost use Rattle.image.specs.Digits.{digit_of, pair, spelled, bytes_of, word};
ghost use Rattle.image.specs.Gives.{Gives};

use super::fault::Fault;

// The value of a digit, in either case.
fn digit(byte: u8) -> Option<u8>
    ensures { result ≡ digit_of byte }
{
    match byte {
        b'0'..=b'9' => Some(byte - b'0'),
        b'A'..=b'F' => Some(byte - b'A' + 10),
        b'a'..=b'f' => Some(byte - b'a' + 10),
        _ => None,
    }
}

// The byte that two digits spell. What is no digit counts 0.
pub fn byte_of(high: u8, low: u8) -> u8
    ensures { result ≡ pair high low }
{
    16 * digit(high).unwrap_or(0) + digit(low).unwrap_or(0)
}

fn all_digits(text: &[u8]) -> bool
    ensures { result ≡ list_all (λ byte. is_some (digit_of byte)) text.now }
{
    text.iter().all(|byte| digit(*byte).is_some())
}

// Whether a text is nothing but digits, two a byte.
pub fn check_digits(text: &[u8]) -> Result<(), Fault>
    ensures { Gives (λ _. spelled text.now) result (bytes_of text.now) }
{
    if !all_digits(text) {
        return Err(Fault::BadDigit);
    }
    if text.len() % 2 != 0 {
        return Err(Fault::OddDigits);
    }
    Ok(())
}

// How many bytes the digits spell.
#[tactic(auto, using(crate::proofs::Spelled::length_spelled))]
pub fn count_of(digits: &[u8]) -> usize
    ensures count { result ≡ length (spelled digits.now) }
    ensures small { result < 2 ^ 63 }
{
    digits.len() / 2
}

// The byte at a place, 0 past the last.
pub fn byte_at(digits: &[u8], place: u8) -> u8
    ensures { result ≡ slice_index (spelled digits.now) place }
{
    let high = 2 * usize::from(place);
    let low = high + 1;
    if low < digits.len() {
        byte_of(digits[high], digits[low])
    } else {
        0
    }
}

// The 16-bit number at a place, the high byte first.
pub fn word_at(digits: &[u8], place: u8) -> u32
    requires { place < 255 }
    ensures value { result ≡ word (spelled digits.now) place }
    ensures small { result < 65536 }
{
    256 * u32::from(byte_at(digits, place)) + u32::from(byte_at(digits, place + 1))
}

// So many bytes from a place on.
pub fn part(digits: &[u8], place: usize, count: usize) -> &[u8]
    requires { place + count ≤ length (spelled digits.now) }
    ensures { spelled result.now ≡ take count (drop place (spelled digits.now)) }
{
    &digits[2 * place..2 * (place + count)]
}

// The low byte of the sum.
pub fn low_sum(digits: &[u8]) -> u8
    ensures { result ≡ sum (spelled digits.now) % 256 }
{
    let mut sum: u8 = 0;
    let mut rest = digits;
    while let [high, low, others @ ..] = rest {
        sum = sum.wrapping_add(byte_of(*high, *low));
        rest = others;
    }
    sum
}
