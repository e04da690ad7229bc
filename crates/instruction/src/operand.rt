// Operands as values.

// Where the address of an operand in memory is counted from.
#[derive(Clone, Copy, PartialEq, Eq, Debug)]
pub enum Base {
    Register(u8),
    Pc,
    Zero,
}

// An address in memory that may be indexed: [Rn]; disp[Rn], disp[PC] and /addr; [disp[Rn]], [disp[PC]] and [/addr].
#[derive(Clone, Copy, PartialEq, Eq, Debug)]
pub enum Address {
    Indirect(u8),
    Displaced(Base, i32),
    Deferred(Base, i32),
}

// An operand by value, whatever the sizes of its numbers were in the code: Rn, an immediate, an address, an address
// with the index Rx, a double displacement, [Rn+] and [-Rn].
#[derive(Clone, Copy, PartialEq, Eq, Debug)]
pub enum Operand {
    Register(u8),
    Immediate(u32),
    Memory(Address),
    Indexed(Address, u8),
    Double(Base, i32, i32),
    Increment(u8),
    Decrement(u8),
}
