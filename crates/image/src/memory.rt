// The bytes of an image, put into memory.
ghost use Rattle.std.specs.Prelude.{◌≡◌, ◌+◌, ◌^◌, ◌≤◌, length, OnErr};
ghost use Rattle.image.specs.Gives.{Gives};
ghost use Rattle.image.specs.Digits.{spelled};
ghost use Rattle.image.specs.Texts.{cells};
ghost use Rattle.image.specs.Image.{bytes_at, of_ok, put, filled};
ghost use Rattle.image.specs.Reading.{to_come};

use super::digits::byte_of;
use super::extent::measure;
use super::fault::Problem;
use super::reader::Reader;
use super::tell::notation_of;

// Puts a byte where its address says.
fn put(memory: &mut [u8], base: u32, address: u64, byte: u8)
    ensures { memory.new ≡ put base memory.old (address, byte) }
{
    let base = u64::from(base);
    if base <= address && address - base < memory.len() as u64 {
        memory[(address - base) as usize] = byte;
    }
}

fn put_bytes(memory: &mut [u8], base: u32, start: u64, bytes: &[u8])
    requires { start + length bytes.now ≤ 2 ^ 32 }
    ensures { memory.new ≡ filled base memory.old (cells start bytes.now) }
{
    let mut address = start;
    let mut rest = bytes;
    while let [byte, others @ ..] = rest {
        put(memory, base, address, *byte);
        address += 1;
        rest = others;
    }
}

fn put_digits(memory: &mut [u8], base: u32, start: u64, digits: &[u8])
    requires { start + length (spelled digits.now) ≤ 2 ^ 32 }
    ensures { memory.new ≡ filled base memory.old (cells start (spelled digits.now)) }
{
    let mut address = start;
    let mut rest = digits;
    while let [high, low, others @ ..] = rest {
        put(memory, base, address, byte_of(*high, *low));
        address += 1;
        rest = others;
    }
}

// Puts the bytes that are to come.
fn put_to_come(memory: &mut [u8], base: u32, reader: Reader) -> Result<(), Problem>
    ensures { Gives (λ _. memory.new) result (of_ok (filled base memory.old) (to_come reader.entry)) }
{
    let mut reader = reader;
    while let Some((piece, next)) = reader.next()? {
        put_digits(memory, base, piece.start, piece.digits);
        reader = next;
    }
    Ok(())
}

// Puts each byte of an image where its address says, into memory that begins at a base. Raw bytes lie from an origin on.
// What lies outside the memory is left out, and what no byte is put at stays. Where two bytes have one address the later one stands.
pub fn fill(text: &[u8], origin: u32, base: u32, memory: &mut [u8]) -> Result<(), Problem>
    ensures filled { Gives (λ _. memory.new) result (of_ok (filled base memory.old) (bytes_at origin text.now)) }
    ensures err { OnErr result (memory.new ≡ memory.old) }
{
    measure(text, origin)?;
    match notation_of(text) {
        Some(notation) => put_to_come(memory, base, Reader::of(notation, text)),
        None => {
            put_bytes(memory, base, u64::from(origin), text);
            Ok(())
        }
    }
}
