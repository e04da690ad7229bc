// A Motorola S-record.
ghost use Rattle.std.specs.Prelude.{◌≡◌, ◌<◌, ◌^◌};
ghost use Rattle.image.specs.Gives.{Gives};
ghost use Rattle.image.specs.Digits.{spelled};
ghost use Rattle.image.specs.Records.{said, wants};
ghost use Rattle.image.specs.Motorola.{width_of, address_of, by_type, of_bytes, motorola_record};

use super::digits::{byte_at, check_digits, count_of, low_sum, part, word_at};
use super::fault::Fault;
use super::record::{Record, wants};

// How many bytes of address a record of a type has.
fn width_of(kind: u8) -> Option<u8>
    ensures { result ≡ width_of kind }
{
    match kind {
        b'0' | b'1' | b'5' | b'9' => Some(2),
        b'2' | b'6' | b'8' => Some(3),
        b'3' | b'7' => Some(4),
        _ => None,
    }
}

fn address_of(width: u8, digits: &[u8]) -> u32
    ensures { result ≡ address_of width (spelled digits.now) }
{
    match width {
        2 => word_at(digits, 1),
        3 => 65536 * u32::from(byte_at(digits, 1)) + word_at(digits, 2),
        _ => 65536 * word_at(digits, 1) + word_at(digits, 3),
    }
}

fn by_type(kind: u8, address: u32, digits: &[u8]) -> Result<Record<'_>, Fault>
    ensures { Gives said result (by_type kind address (spelled digits.now)) }
{
    match kind {
        b'0' => Ok(Record::Remark),
        b'1' | b'2' | b'3' => Ok(Record::Data(address, digits)),
        b'5' | b'6' => wants(0, digits, Record::Remark),
        _ => wants(0, digits, Record::End),
    }
}

fn of_digits(kind: u8, width: u8, digits: &[u8]) -> Result<Record<'_>, Fault>
    ensures { Gives said result (of_bytes kind width (spelled digits.now)) }
{
    let count = usize::from(byte_at(digits, 0));
    let others = usize::from(width) + 1;
    if count_of(digits) != count + 1 || count < others {
        return Err(Fault::WrongLength);
    }
    if low_sum(digits) != 255 {
        return Err(Fault::WrongChecksum);
    }
    let address = address_of(width, digits);
    by_type(kind, address, part(digits, others, count - others))
}

// What a line says, without what ends it.
pub fn motorola_record(line: &[u8]) -> Result<Record<'_>, Fault>
    ensures { Gives said result (motorola_record line.now) }
{
    match line {
        [b'S', kind, digits @ ..] => match width_of(*kind) {
            Some(width) => {
                check_digits(digits)?;
                of_digits(*kind, width, digits)
            }
            None => Err(Fault::UnknownType),
        },
        _ => Err(Fault::NoMark),
    }
}
