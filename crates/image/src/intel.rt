// A record of Intel HEX.
ghost use Rattle.std.specs.Prelude.{◌≡◌};
ghost use Rattle.image.specs.Gives.{Gives};
ghost use Rattle.image.specs.Digits.{spelled};
ghost use Rattle.image.specs.Records.{said, wants};
ghost use Rattle.image.specs.Intel.{by_type, of_bytes, intel_record};

use super::digits::{byte_at, check_digits, count_of, low_sum, part, word_at};
use super::fault::Fault;
use super::record::{Record, wants};

fn by_type(kind: u8, address: u32, digits: &[u8]) -> Result<Record<'_>, Fault>
    ensures { Gives said result (by_type kind address (spelled digits.now)) }
{
    match kind {
        0 => Ok(Record::Data(address, digits)),
        1 => wants(0, digits, Record::End),
        2 => wants(2, digits, Record::Base(16 * word_at(digits, 0))),
        3 | 5 => wants(4, digits, Record::Remark),
        4 => wants(2, digits, Record::Base(65536 * word_at(digits, 0))),
        _ => Err(Fault::UnknownType),
    }
}

fn of_digits(digits: &[u8]) -> Result<Record<'_>, Fault>
    ensures { Gives said result (of_bytes (spelled digits.now)) }
{
    let count = usize::from(byte_at(digits, 0));
    if count_of(digits) != count + 5 {
        return Err(Fault::WrongLength);
    }
    if low_sum(digits) != 0 {
        return Err(Fault::WrongChecksum);
    }
    by_type(
        byte_at(digits, 3),
        word_at(digits, 1),
        part(digits, 4, count),
    )
}

// What a line says, without what ends it.
pub fn intel_record(line: &[u8]) -> Result<Record<'_>, Fault>
    ensures { Gives said result (intel_record line.now) }
{
    match line {
        [b':', digits @ ..] => {
            check_digits(digits)?;
            of_digits(digits)
        }
        _ => Err(Fault::NoMark),
    }
}
