// Where the bytes of an image lie.
ghost use Rattle.std.specs.Prelude.{◌≡◌, ◌+◌, ◌^◌, ◌<◌, ◌≤◌, List, ℕ, length, fold};
ghost use Rattle.image.specs.Lines.{lines};
ghost use Rattle.image.specs.Texts.{cells, told};
ghost use Rattle.image.specs.Image.{bytes_at, extent_of, of_ok, covered};
ghost use Rattle.image.specs.Reading.{to_come};

use super::digits::count_of;
use super::fault::{Fault, Problem};
use super::reader::Reader;
use super::tell::notation_of;

// The lowest and the highest address.
#[derive(Clone, Copy, PartialEq, Eq, Debug)]
pub struct Extent {
    pub first: u32,
    pub last: u32,
}

// An extent, and so many bytes more from an address on.
fn covering(extent: Option<Extent>, start: u64, count: usize) -> Option<Extent>
    requires { start + count ≤ 2 ^ 32 }
    ensures { (bytes : List ℕ) → length bytes ≡ count → result ≡ fold covered extent (cells start bytes) }
{
    if count == 0 {
        return extent;
    }
    let first = start as u32;
    let last = (start + (count as u64 - 1)) as u32;
    match extent {
        None => Some(Extent { first, last }),
        Some(extent) => Some(Extent {
            first: first.min(extent.first),
            last: last.max(extent.last),
        }),
    }
}

// The extent of the bytes that are to come.
fn extent_to_come(reader: Reader) -> Result<Option<Extent>, Problem>
    ensures { result ≡ of_ok extent_of (to_come reader.entry) }
{
    let mut extent = None;
    let mut reader = reader;
    while let Some((piece, next)) = reader.next()? {
        extent = covering(extent, piece.start, count_of(piece.digits));
        reader = next;
    }
    Ok(extent)
}

// The lowest and the highest address of an image, if it has any bytes. Raw bytes lie from an origin on.
pub fn measure(text: &[u8], origin: u32) -> Result<Option<Extent>, Problem>
    ensures { result ≡ of_ok extent_of (bytes_at origin text.now) }
{
    match notation_of(text) {
        Some(notation) => extent_to_come(Reader::of(notation, text)),
        None => {
            let start = u64::from(origin);
            if text.len() as u64 > (1 << 32) - start {
                return Err(Problem {
                    line: 1,
                    fault: Fault::PastLastAddress,
                });
            }
            Ok(covering(None, start, text.len()))
        }
    }
}
