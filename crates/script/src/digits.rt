// Bytes that are written as digits.
ghost use Rattle.std.specs.Prelude.{◌≡◌};
ghost use Rattle.std.specs.Iterator.{YieldsFirst, item_count};
ghost use Rattle.script.specs.Numbers.{digit_value, are_digits, bytes_in};

use super::number::digit_of;

// What a digit stands for, and 0 for what is no digit.
fn digit_value(byte: u8) -> u8
    ensures { result ≡ digit_value byte }
{
    digit_of(byte).unwrap_or(0)
}

// The bytes that are still to be told, two digits each. A digit without another tells none.
#[derive(Clone, Drop, Debug)]
pub struct Digits<'a>(pub &'a [u8]);

impl Iterator for Digits<'_> {
    type Item = u8;

    ghost next_gives = { YieldsFirst (λ d. bytes_in d.0.now) };

    ghost remaining = { item_count (λ d. bytes_in d.0.now) };

    fn next(&mut self) -> Option<u8> {
        match self.0 {
            [high, low, rest @ ..] => {
                let byte = 16 * digit_value(*high) + digit_value(*low);
                self.0 = rest;
                Some(byte)
            }
            _ => None,
        }
    }
}

// Whether a word has digits and nothing else.
pub(crate) fn are_digits(word: &[u8]) -> bool
    ensures { result ≡ are_digits word.now }
{
    word.iter().all(|byte| digit_of(*byte).is_some())
}
