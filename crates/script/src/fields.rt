// The words of a command, one by one, each with what stands behind it.
ghost use Rattle.std.specs.Prelude.{◌≡◌, ◌^◌, ◌≤◌, [], ◌++◌, length};
ghost use Rattle.script.specs.Words.{words};
ghost use Rattle.script.specs.Fields.{seen, within, number_in, word_in, number_at, byte_at, reading_at, readings_at, contents_in, contents_at, end_at};
ghost use Rattle.script.specs.Orders.{contents_said};

use super::command::Contents;
use super::command_name::CommandName;
use super::digits::are_digits;
use super::number::{LIMIT, number_up_to_limit};
use super::problem::Problem;
use super::word::next_word;

// The number that a word says, if it is below a limit.
fn number_below(word: &[u8], limit: u64, too_large: Problem) -> Result<u32, Problem>
    requires { limit ≤ 2 ^ 32 }
    ensures { result ≡ number_in limit too_large word.now }
{
    match number_up_to_limit(word) {
        None => Err(Problem::NotANumber),
        Some(number) if number < limit => Ok(number as u32),
        Some(_) => Err(too_large),
    }
}

#[tactic(auto, unfolding(crate::specs::Fields::word_in))]
pub(crate) fn word(name: CommandName, line: &[u8]) -> Result<(&[u8], &[u8]), Problem>
    ensures { seen (λ x. (x.0.now, words x.1.now)) result ≡ word_in name (words line.now) }
{
    match next_word(line) {
        Some(found) => Ok(found),
        None => Err(Problem::WordMissing(name)),
    }
}

#[tactic(auto, unfolding(crate::specs::Fields::number_at))]
pub(crate) fn number(name: CommandName, line: &[u8]) -> Result<(u32, &[u8]), Problem>
    ensures { seen (λ x. (x.0, words x.1.now)) result ≡ number_at name (words line.now) }
{
    let (word, rest) = word(name, line)?;
    let number = number_below(word, LIMIT, Problem::NumberTooLarge)?;
    Ok((number, rest))
}

#[tactic(auto, unfolding(crate::specs::Fields::byte_at))]
pub(crate) fn byte(name: CommandName, line: &[u8]) -> Result<(u8, &[u8]), Problem>
    ensures { seen (λ x. (x.0, words x.1.now)) result ≡ byte_at name (words line.now) }
{
    let (word, rest) = word(name, line)?;
    let byte = number_below(word, 1 << 8, Problem::ByteTooLarge)?;
    Ok((byte as u8, rest))
}

#[tactic(auto, unfolding(crate::specs::Fields::reading_at))]
fn reading(name: CommandName, line: &[u8]) -> Result<(u16, &[u8]), Problem>
    ensures { seen (λ x. (x.0, words x.1.now)) result ≡ reading_at name (words line.now) }
{
    let (word, rest) = word(name, line)?;
    let reading = number_below(word, 1 << 16, Problem::ReadingTooLarge)?;
    Ok((reading as u16, rest))
}

pub(crate) fn readings(name: CommandName, line: &[u8]) -> Result<([u16; 16], &[u8]), Problem>
    ensures { seen (λ x. (x.0, words x.1.now)) result ≡ readings_at 16 name (words line.now) }
{
    let mut readings = [0; 16];
    let mut rest = line;
    for i in 0..16 {
        let (reading, after) = reading(name, rest)?;
        readings[i] = reading;
        rest = after;
    }
    Ok((readings, rest))
}

// What a word says of a board's bytes.
#[tactic(auto, unfolding(crate::specs::Fields::contents_in))]
fn contents_of(word: &[u8]) -> Result<Contents<'_>, Problem>
    ensures { seen contents_said result ≡ contents_in word.now }
{
    match word {
        b"-" => Ok(Contents::Digits(&[])),
        b"@" => Err(Problem::NoFileName),
        [b'@', name @ ..] => Ok(Contents::File(name)),
        _ if !are_digits(word) => Err(Problem::NotBytes),
        _ if word.len() % 2 != 0 => Err(Problem::OddDigits),
        _ => Ok(Contents::Digits(word)),
    }
}

#[tactic(auto, unfolding(crate::specs::Fields::contents_at))]
pub(crate) fn contents(name: CommandName, line: &[u8]) -> Result<(Contents<'_>, &[u8]), Problem>
    ensures { seen (λ x. (contents_said x.0, words x.1.now)) result ≡ contents_at name (words line.now) }
{
    let (word, rest) = word(name, line)?;
    let contents = contents_of(word)?;
    Ok((contents, rest))
}

// Whether no word is left.
#[tactic(auto, unfolding(crate::specs::Fields::end_at))]
pub(crate) fn end(name: CommandName, line: &[u8]) -> Result<(), Problem>
    ensures { result ≡ end_at name (words line.now) }
{
    match next_word(line) {
        Some(_) => Err(Problem::WordTooMany(name)),
        None => Ok(()),
    }
}
