// Hexadecimal numbers.
ghost use Rattle.std.specs.Prelude.{◌≡◌, ◌^◌, min, option_map};
ghost use Rattle.script.specs.Numbers.{digit_of, number_of};

// the first number that has more than 32 bits
pub(crate) const LIMIT: u64 = 1 << 32;

// What a digit stands for, in either case.
pub(crate) fn digit_of(byte: u8) -> Option<u8>
    ensures { result ≡ digit_of byte }
{
    match byte {
        b'0'..=b'9' => Some(byte - b'0'),
        b'A'..=b'F' => Some(byte - b'A' + 10),
        b'a'..=b'f' => Some(byte - b'a' + 10),
        _ => None,
    }
}

// The number that a word says, or the limit where it is more.
pub(crate) fn number_up_to_limit(word: &[u8]) -> Option<u64>
    ensures { result ≡ option_map (λ n. min n (2 ^ 32)) (number_of word.now) }
{
    if word.is_empty() {
        return None;
    }
    let mut number = 0;
    for byte in word {
        let digit = digit_of(*byte)?;
        number = LIMIT.min(16 * number + u64::from(digit));
    }
    Some(number)
}
