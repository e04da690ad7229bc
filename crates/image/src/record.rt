// One record, in either format.
ghost use Rattle.std.specs.Prelude.{◌≡◌};
ghost use Rattle.image.specs.Gives.{Gives};
ghost use Rattle.image.specs.Digits.{spelled};
ghost use Rattle.image.specs.Records.{said, wants};

use super::digits::count_of;
use super::fault::Fault;

#[derive(Clone, Copy, PartialEq, Eq, Debug)]
pub enum Record<'a> {
    // bytes from an address on, each two hexadecimal digits
    Data(u32, &'a [u8]),
    // what the addresses after it are counted from
    Base(u32),
    // nothing about bytes
    Remark,
    // there are no more records
    End,
}

// A record that wants so many bytes of data.
pub fn wants<'a>(count: usize, digits: &[u8], what: Record<'a>) -> Result<Record<'a>, Fault>
    ensures { Gives said result (wants count (spelled digits.now) (said what.entry)) }
{
    if count_of(digits) == count {
        Ok(what)
    } else {
        Err(Fault::WrongLength)
    }
}
