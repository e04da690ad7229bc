// Numbers of several bytes, over any bus.
ghost use Rattle.std.specs.Prelude.{Ok};
ghost use Rattle.number.specs.Sizes.{byte_count};
ghost use Rattle.bus.specs.Seen.{Runs};
ghost use Rattle.bus.specs.Wide.{fetch_number, ask_bytes, put_number};

use super::access::Bus;
use super::refusal::Refusal;
use number::width::{Size, Width};

// Why an address and a size as parameters, and no struct of both: each of these functions would take it apart at once, and
// their definitions name the two.

// The number at an address, the lowest byte first.
pub fn fetch_number<B: Bus>(bus: &mut B, address: u32, size: Size) -> Result<u64, Refusal>
    ensures { Runs (fetch_number (byte_count size) address) (B.Bus.seen bus.old) result (B.Bus.seen bus.new) }
{
    let mut bytes = [0; 8];
    // Why an index for the bytes: it is the distance from the address as well.
    for i in 0..size.bytes() {
        bytes[i as usize] = bus.fetch(address.wrapping_add(i))?;
    }
    Ok(u64::from_le_bytes(bytes))
}

// Asks for the right to store a number at an address.
pub fn ask_bytes<B: Bus>(bus: &mut B, address: u32, size: Size) -> Result<(), Refusal>
    ensures { Runs (ask_bytes (byte_count size) address) (B.Bus.seen bus.old) result (B.Bus.seen bus.new) }
{
    for i in 0..size.bytes() {
        bus.ask(address.wrapping_add(i))?;
    }
    Ok(())
}

// Sets a number at an address, the lowest byte first.
pub fn put_number<B: Bus>(bus: &mut B, address: u32, size: Size, number: u64)
    ensures { Runs (put_number (byte_count size) address number) (B.Bus.seen bus.old) (Ok tt) (B.Bus.seen bus.new) }
{
    for i in 0..size.bytes() {
        bus.put(address.wrapping_add(i), number.byte(i));
    }
}
