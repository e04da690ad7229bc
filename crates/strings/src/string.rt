// Strings.
ghost use Rattle.std.specs.Prelude.{◌≡◌, ◌<◌, min};
ghost use Rattle.number.specs.Sizes.{byte_count};
ghost use Rattle.bus.specs.Seen.{Runs};
ghost use Rattle.bus.specs.Wide.{fetch_number as fetch_number_is};
ghost use Rattle.strings.specs.Strings.{length_value as length_value_is, counted as counted_is, character as character_is, put_character as put_character_is, copy_character as copy_character_is, copied as copied_is, filled as filled_is, copied_until as copied_until_is, string_done as string_done_is, moved as moved_is, padded as padded_is, halted as halted_is, worked as worked_is, string_instruction as string_instruction_is};

use bus::{Bus, Refusal, ask_bytes, fetch_number, put_number};
use instruction::{Length, StringOperand, StringOperation};
use number::flags::Flags;
use number::width::Size;
use processor::{Cpu, locate};

// How many characters a string has.
fn length_value(cpu: &Cpu, length: Length) -> u32
    ensures { result ≡ length_value_is cpu.now length }
{
    match length {
        Length::Literal(n) => u32::from(n),
        Length::Register(n) => cpu.register(n),
    }
}

// The length of a string operand, 128 characters at the most.
fn counted<B: Bus>(bus: &mut B, cpu: Cpu, string: StringOperand) -> Result<u32, Refusal>
    ensures { Runs (counted_is cpu string) (B.Bus.seen bus.old) result (B.Bus.seen bus.new) }
{
    let n = length_value(&cpu, string.length);
    if n > 128 {
        return Err(Refusal::TooLong(cpu.pc.wrapping_add(string.place)));
    }
    Ok(n)
}

// The address of a character.
fn character(size: Size, string: u32, i: u32) -> u32
    ensures { result ≡ character_is (byte_count size) string i }
{
    string.wrapping_add(i.wrapping_mul(size.bytes()))
}

// A source and a destination of characters of one size: where they lie, and how many characters each has.
// Why bus, registers and the next address stay parameters of its methods: the bus is lent to each call, the registers that one
// call leaves are what the next gets, and the definitions name the next address, as they name the fields of this one by one.
#[derive(Clone, Copy)]
struct Transfer {
    size: Size,
    from: u32,
    to: u32,
    source_length: u32,
    destination_length: u32,
}

impl Transfer {
    // A character put at its place in the destination.
    fn put<B: Bus>(self, bus: &mut B, i: u32, value: u64) -> Result<(), Refusal>
        ensures { Runs (put_character_is (byte_count self.size) self.to i value) (B.Bus.seen bus.old) result (B.Bus.seen bus.new) }
    {
        let at = character(self.size, self.to, i);
        ask_bytes(bus, at, self.size)?;
        put_number(bus, at, self.size, value);
        Ok(())
    }

    // A character of the source.
    fn fetch<B: Bus>(self, bus: &mut B, i: u32) -> Result<u64, Refusal>
        ensures { Runs (fetch_number_is (byte_count self.size) (character_is (byte_count self.size) self.from i)) (B.Bus.seen bus.old) result (B.Bus.seen bus.new) }
    {
        fetch_number(bus, character(self.size, self.from, i), self.size)
    }

    // One character copied.
    fn copy_one<B: Bus>(self, bus: &mut B, i: u32) -> Result<(), Refusal>
        ensures { Runs (copy_character_is (byte_count self.size) self.from self.to i) (B.Bus.seen bus.old) result (B.Bus.seen bus.new) }
    {
        let value = self.fetch(bus, i)?;
        self.put(bus, i, value)
    }

    // So many characters copied.
    fn copy<B: Bus>(self, bus: &mut B, count: u32) -> Result<(), Refusal>
        ensures { Runs (copied_is (byte_count self.size) self.from self.to count) (B.Bus.seen bus.old) result (B.Bus.seen bus.new) }
    {
        for i in 0..count {
            self.copy_one(bus, i)?;
        }
        Ok(())
    }

    // So many characters of the destination filled with a value.
    fn fill<B: Bus>(self, bus: &mut B, value: u64, count: u32) -> Result<(), Refusal>
        ensures { Runs (filled_is (byte_count self.size) self.to value count) (B.Bus.seen bus.old) result (B.Bus.seen bus.new) }
    {
        for i in 0..count {
            self.put(bus, i, value)?;
        }
        Ok(())
    }

    // The copy that ends before the stop character, of so many characters at the most: where that was met, if it was.
    fn copy_until<B: Bus>(self, bus: &mut B, stop: u64, count: u32) -> Result<Option<u32>, Refusal>
        ensures { Runs (copied_until_is (byte_count self.size) self.from self.to stop count) (B.Bus.seen bus.old) result (B.Bus.seen bus.new) }
    {
        for i in 0..count {
            let value = self.fetch(bus, i)?;
            if value == stop {
                return Ok(Some(i));
            }
            self.put(bus, i, value)?;
        }
        Ok(None)
    }

    // How many characters the shorter of the two has.
    fn shorter(self) -> u32
        ensures { result ≡ min self.source_length self.destination_length }
    {
        self.source_length.min(self.destination_length)
    }

    // The registers after a string instruction: past i characters of the source and j of the destination.
    fn done(self, cpu: Cpu, i: u32, j: u32, next: u32) -> Cpu
        ensures { result ≡ string_done_is cpu (byte_count self.size) self.from self.to i j cpu.flags next }
    {
        let source = cpu.with_register(28, character(self.size, self.from, i));
        let both = source.with_register(27, character(self.size, self.to, j));
        both.gone_on(cpu.flags, next)
    }

    // MOVC: as many characters as the shorter string has.
    fn moved<B: Bus>(self, bus: &mut B, cpu: Cpu, next: u32) -> Result<Cpu, Refusal>
        ensures { Runs (moved_is cpu self.size self.from self.to (min self.source_length self.destination_length) next) (B.Bus.seen bus.old) result (B.Bus.seen bus.new) }
    {
        let count = self.shorter();
        self.copy(bus, count)?;
        Ok(self.done(cpu, count, count, next))
    }

    // MOVCF: characters copied, then others filled up to the destination's length.
    fn padded<B: Bus>(self, bus: &mut B, cpu: Cpu, next: u32) -> Result<Cpu, Refusal>
        ensures { Runs (padded_is cpu self.size self.from self.to (min self.source_length self.destination_length) self.destination_length next) (B.Bus.seen bus.old) result (B.Bus.seen bus.new) }
    {
        let count = self.shorter();
        self.copy(bus, count)?;
        let rest = Transfer {
            to: character(self.size, self.to, count),
            ..self
        };
        rest.fill(
            bus,
            cpu.read(self.size, 26),
            self.destination_length - count,
        )?;
        Ok(self.done(cpu, count, self.destination_length, next))
    }

    // MOVCS: at most as many characters as the shorter string has, up to the stop character.
    fn halted<B: Bus>(self, bus: &mut B, cpu: Cpu, next: u32) -> Result<Cpu, Refusal>
        ensures { Runs (halted_is cpu self.size self.from self.to (min self.source_length self.destination_length) next) (B.Bus.seen bus.old) result (B.Bus.seen bus.new) }
    {
        let count = self.shorter();
        let met = self.copy_until(bus, cpu.read(self.size, 26), count)?;
        let end = met.unwrap_or(count);
        let flags = Flags {
            cy: met.is_none(),
            ..cpu.flags
        };
        Ok(self.done(Cpu { flags, ..cpu }, end, end, next))
    }

    // The work on a source and a destination that were found.
    fn worked<B: Bus>(
        self,
        bus: &mut B,
        cpu: Cpu,
        operation: StringOperation,
        next: u32,
    ) -> Result<Cpu, Refusal>
        ensures { Runs (worked_is cpu operation self.size self.from self.to self.source_length self.destination_length next) (B.Bus.seen bus.old) result (B.Bus.seen bus.new) }
    {
        match operation {
            StringOperation::Movc => self.moved(bus, cpu, next),
            StringOperation::Movcf => self.padded(bus, cpu, next),
            StringOperation::Movcs => self.halted(bus, cpu, next),
        }
    }
}

// A string instruction: both lengths, then both addresses, then the work.
pub fn string_instruction<B: Bus>(
    bus: &mut B,
    cpu: Cpu,
    operation: StringOperation,
    size: Size,
    source: StringOperand,
    destination: StringOperand,
    next: u32,
) -> Result<Cpu, Refusal>
    ensures { Runs (string_instruction_is cpu operation size source destination next) (B.Bus.seen bus.old) result (B.Bus.seen bus.new) }
{
    let source_length = counted(bus, cpu, source)?;
    let destination_length = counted(bus, cpu, destination)?;
    let from = locate(bus, cpu, size.bytes(), source.operand)?;
    let to = locate(bus, from.cpu, size.bytes(), destination.operand)?;
    let transfer = Transfer {
        size,
        from: from.location.address(),
        to: to.location.address(),
        source_length,
        destination_length,
    };
    transfer.worked(bus, to.cpu, operation, next)
}
