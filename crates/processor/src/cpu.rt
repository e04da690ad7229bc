// The registers, the PC and the flags: the working copy of a step.
ghost use Rattle.std.specs.Prelude.{◌≡◌};
ghost use Rattle.processor.specs.Registers.{register, with_register, read_register, write_register, gone_on};

use super::sized::low_of;
use number::flags::Flags;
use number::width::{Size, Width};

// What the processor holds. It goes by value: a step works on a copy, which is committed or thrown away.
#[derive(Clone, Copy, PartialEq, Eq, Debug, Default)]
pub struct Cpu {
    pub registers: [u32; 32],
    pub pc: u32,
    pub flags: Flags,
}

impl Cpu {
    // Register n. There is none above 31, and it holds 0.
    pub fn register(&self, n: u8) -> u32
        ensures { result ≡ register self.now n }
    {
        self.registers.get(usize::from(n)).copied().unwrap_or(0)
    }

    // The processor once register n holds a value.
    pub fn with_register(self, n: u8, value: u32) -> Cpu
        ensures { result ≡ with_register self n value }
    {
        let mut cpu = self;
        // Why a copy with a test, and no get_mut: of what is written through that, a proof learns the length of the array alone.
        if usize::from(n) < cpu.registers.len() {
            cpu.registers[usize::from(n)] = value;
        }
        cpu
    }

    // What register n holds at a size: of a doubleword the high half is in the register after it.
    pub fn read(&self, size: Size, n: u8) -> u64
        ensures { result ≡ read_register self.now size n }
    {
        let low = u64::from(self.register(n));
        match size {
            Size::Doubleword => low + (u64::from(self.register(n.saturating_add(1))) << 32),
            _ => low_of(size, low),
        }
    }

    // The processor once register n holds a number of that size.
    pub fn write(self, size: Size, n: u8, number: u64) -> Cpu
        ensures { result ≡ write_register self size n number }
    {
        match size {
            Size::Doubleword => self
                .with_register(n, u32::low(number))
                .with_register(n.saturating_add(1), (number >> 32) as u32),
            _ => {
                let old = u64::from(self.register(n));
                let upper = old - low_of(size, old);
                self.with_register(n, u32::low(upper + low_of(size, number)))
            }
        }
    }

    // The processor with those flags, gone on to an address.
    pub fn gone_on(self, flags: Flags, next: u32) -> Cpu
        ensures { result ≡ gone_on self flags next }
    {
        Cpu {
            pc: next,
            flags,
            ..self
        }
    }
}
