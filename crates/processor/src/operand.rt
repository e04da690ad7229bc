// Where operands lie, what they hold, and putting results there.
ghost use Rattle.std.specs.Prelude.{◌≡◌, ◌*◌, ◌^◌};
ghost use Rattle.bus.specs.Seen.{Runs};
ghost use Rattle.processor.specs.Operands.{base_value, displaced as displaced_is, fetch_pointer, address_of, locate as locate_is, location_address, read_at, write_at};
ghost use Rattle.processor.specs.Registers.{register};
ghost use Rattle.board.specs.Block.{above};

use super::cpu::Cpu;
use bus::{Bus, Refusal, ask_bytes, fetch_number, put_number};
use instruction::{Address, Base, Operand};
use number::width::{Size, Width};

// A register, a constant of the instruction, or an address in memory.
#[derive(Clone, Copy, PartialEq, Eq, Debug)]
pub enum Location {
    InRegister(u8),
    Constant(u32),
    InMemory(u32),
}

// An operand's location, and the processor once it was found.
#[derive(Clone, Copy, PartialEq, Eq, Debug)]
pub struct Found {
    pub cpu: Cpu,
    pub location: Location,
}

// What a base stands for.
fn base_value(cpu: &Cpu, base: Base) -> u32
    ensures { result ≡ base_value cpu.now base }
{
    match base {
        Base::Register(n) => cpu.register(n),
        Base::Pc => cpu.pc,
        Base::Zero => 0,
    }
}

// A displacement added to an address, modulo 2^32.
pub fn displaced(address: u32, displacement: i32) -> u32
    ensures { result ≡ displaced_is address displacement }
{
    address.wrapping_add(displacement.cast_unsigned())
}

// The word at an address.
pub fn pointer<B: Bus>(bus: &mut B, address: u32) -> Result<u32, Refusal>
    ensures { Runs (fetch_pointer address) (B.Bus.seen bus.old) result (B.Bus.seen bus.new) }
{
    let word = fetch_number(bus, address, Size::Word)?;
    Ok(u32::low(word))
}

// The address that an operand names.
fn address_of<B: Bus>(bus: &mut B, cpu: Cpu, address: Address) -> Result<u32, Refusal>
    ensures { Runs (address_of cpu address) (B.Bus.seen bus.old) result (B.Bus.seen bus.new) }
{
    match address {
        Address::Indirect(n) => Ok(cpu.register(n)),
        Address::Displaced(base, d) => Ok(displaced(base_value(&cpu, base), d)),
        Address::Deferred(base, e) => pointer(bus, displaced(base_value(&cpu, base), e)),
    }
}

// The index Rx counts times the operand's bytes.
fn indexed(cpu: &Cpu, address: u32, x: u8, count: u32) -> u32
    ensures { result ≡ above address (register cpu.now x * count) }
{
    address.wrapping_add(cpu.register(x).wrapping_mul(count))
}

// Where an operand of so many bytes lies, and the registers that finding it changes.
pub fn locate<B: Bus>(bus: &mut B, cpu: Cpu, count: u32, operand: Operand) -> Result<Found, Refusal>
    ensures { Runs (locate_is cpu count operand) (B.Bus.seen bus.old) result (B.Bus.seen bus.new) }
{
    let mut cpu = cpu;
    let location = match operand {
        Operand::Register(n) => Location::InRegister(n),
        Operand::Immediate(v) => Location::Constant(v),
        Operand::Memory(address) => Location::InMemory(address_of(bus, cpu, address)?),
        Operand::Indexed(address, x) => {
            let b = address_of(bus, cpu, address)?;
            Location::InMemory(indexed(&cpu, b, x, count))
        }
        Operand::Double(base, inner, outer) => {
            let p = pointer(bus, displaced(base_value(&cpu, base), inner))?;
            Location::InMemory(displaced(p, outer))
        }
        Operand::Increment(n) => {
            let a = cpu.register(n);
            cpu = cpu.with_register(n, a.wrapping_add(count));
            Location::InMemory(a)
        }
        Operand::Decrement(n) => {
            let a = cpu.register(n).wrapping_sub(count);
            cpu = cpu.with_register(n, a);
            Location::InMemory(a)
        }
    };
    Ok(Found { cpu, location })
}

impl Location {
    // Its address, if it is in memory; else 0.
    pub fn address(self) -> u32
        ensures { result ≡ location_address self }
    {
        match self {
            Location::InMemory(a) => a,
            Location::InRegister(_) | Location::Constant(_) => 0,
        }
    }
}

impl Found {
    // What lies there.
    pub fn read<B: Bus>(self, bus: &mut B, size: Size) -> Result<u64, Refusal>
        ensures { Runs (read_at self.cpu size self.location) (B.Bus.seen bus.old) result (B.Bus.seen bus.new) }
    {
        match self.location {
            Location::InRegister(n) => Ok(self.cpu.read(size, n)),
            Location::Constant(v) => Ok(u64::from(v)),
            Location::InMemory(a) => fetch_number(bus, a, size),
        }
    }

    // Puts a number there: the processor after that.
    pub fn write<B: Bus>(self, bus: &mut B, size: Size, number: u64) -> Result<Cpu, Refusal>
        ensures { Runs (write_at self.cpu size self.location number) (B.Bus.seen bus.old) result (B.Bus.seen bus.new) }
    {
        match self.location {
            Location::InRegister(n) => Ok(self.cpu.write(size, n, number)),
            Location::Constant(_) => Ok(self.cpu),
            Location::InMemory(a) => {
                ask_bytes(bus, a, size)?;
                put_number(bus, a, size, number);
                Ok(self.cpu)
            }
        }
    }
}
