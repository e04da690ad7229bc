// Operands in the code of an instruction.
ghost use Rattle.std.specs.Prelude.{◌≡◌};
ghost use Rattle.bus.specs.Seen.{Runs};
ghost use Rattle.instruction.specs.Decode.{sign_extended as sign_extension, displacement as displacement_is, shape_at, judged, shape_of, indexed_at, double_at, immediate_at, by_mode, operand_at as operand_is};
ghost use Rattle.instruction.specs.Modes.{plain_mode as plain_of};

use super::mode::{Misfit, Mode, Shape, immediate_verdict, mode_of, plain_mode, register_verdict};
use super::operand::{Address, Base, Operand};
use super::operation::Access;
use super::part::Part;
use bus::{Bus, Refusal, fetch_number};
use number::width::{Arithmetic, Size, Width};

// Why bus, place and size as parameters, and no struct of them: the bus is lent to each call, and the place moves on with it.

// The low bits of a number of that size, with their sign.
// Why a match: each size reads them by the conversion of its own type.
fn sign_extended(number: u64, size: Size) -> i32
    ensures { result ≡ sign_extension size number }
{
    match size {
        Size::Byte => u8::low(number).to_i32(),
        Size::Halfword => u16::low(number).to_i32(),
        Size::Word | Size::Doubleword => u32::low(number).to_i32(),
    }
}

// The displacement at an address.
pub fn displacement<B: Bus>(bus: &mut B, size: Size, at: u32) -> Result<Part<i32>, Refusal>
    ensures { Runs (displacement_is size at) (B.Bus.seen bus.old) result (B.Bus.seen bus.new) }
{
    let number = fetch_number(bus, at, size)?;
    Ok(Part {
        value: sign_extended(number, size),
        next: at.wrapping_add(size.bytes()),
    })
}

// An address of that shape, whose displacement lies at `at`.
pub fn locate<B: Bus>(bus: &mut B, at: u32, shape: Shape) -> Result<Part<Address>, Refusal>
    ensures { Runs (shape_at at shape) (B.Bus.seen bus.old) result (B.Bus.seen bus.new) }
{
    match shape {
        Shape::Indirect(n) => Ok(Part {
            value: Address::Indirect(n),
            next: at,
        }),
        Shape::Displaced(base, size) => {
            let d = displacement(bus, size, at)?;
            Ok(Part {
                value: Address::Displaced(base, d.value),
                next: d.next,
            })
        }
        Shape::Deferred(base, size) => {
            let e = displacement(bus, size, at)?;
            Ok(Part {
                value: Address::Deferred(base, e.value),
                next: e.next,
            })
        }
    }
}

// What the verdict on the operand at `at` leads to.
pub fn permit(at: u32, verdict: Result<(), Misfit>) -> Result<(), Refusal>
    ensures { result ≡ judged at verdict }
{
    verdict.map_err(|misfit| misfit.at(at))
}

// The address that may be indexed, by the second byte of an indexed mode.
fn indexable(byte: u8) -> Option<Shape>
    ensures { result ≡ shape_of (plain_of byte) }
{
    match plain_mode(byte) {
        Some(Mode::At(shape)) => Some(shape),
        _ => None,
    }
}

// An indexed operand at `at` with the index Rx.
fn indexed<B: Bus>(bus: &mut B, at: u32, x: u8) -> Result<Part<Operand>, Refusal>
    ensures { Runs (indexed_at at x) (B.Bus.seen bus.old) result (B.Bus.seen bus.new) }
{
    let byte = bus.fetch(at.wrapping_add(1))?;
    let shape = indexable(byte).ok_or(Refusal::ReservedEncoding(at))?;
    let located = locate(bus, at.wrapping_add(2), shape)?;
    Ok(Part {
        value: Operand::Indexed(located.value, x),
        next: located.next,
    })
}

// A double displacement at `at`.
fn double<B: Bus>(bus: &mut B, at: u32, base: Base, size: Size) -> Result<Part<Operand>, Refusal>
    ensures { Runs (double_at at base size) (B.Bus.seen bus.old) result (B.Bus.seen bus.new) }
{
    let inner = displacement(bus, size, at.wrapping_add(1))?;
    let outer = displacement(bus, size, inner.next)?;
    Ok(Part {
        value: Operand::Double(base, inner.value, outer.value),
        next: outer.next,
    })
}

// An immediate of the operand's size at `at`.
fn immediate<B: Bus>(bus: &mut B, at: u32, size: Size) -> Result<Part<Operand>, Refusal>
    ensures { Runs (immediate_at at size) (B.Bus.seen bus.old) result (B.Bus.seen bus.new) }
{
    let first = at.wrapping_add(1);
    let number = fetch_number(bus, first, size)?;
    Ok(Part {
        value: Operand::Immediate(u32::low(number)),
        next: first.wrapping_add(size.bytes()),
    })
}

// An operand at `at` of that mode, as the instruction accesses it.
fn by_mode<B: Bus>(
    bus: &mut B,
    at: u32,
    size: Size,
    access: Access,
    mode: Mode,
) -> Result<Part<Operand>, Refusal>
    ensures { Runs (by_mode at size access mode) (B.Bus.seen bus.old) result (B.Bus.seen bus.new) }
{
    let next = at.wrapping_add(1);
    match mode {
        Mode::At(shape) => {
            let located = locate(bus, next, shape)?;
            Ok(Part {
                value: Operand::Memory(located.value),
                next: located.next,
            })
        }
        Mode::Quick(value) => {
            permit(at, immediate_verdict(access, size))?;
            Ok(Part {
                value: Operand::Immediate(u32::from(value)),
                next,
            })
        }
        Mode::Immediate => {
            permit(at, immediate_verdict(access, size))?;
            immediate(bus, at, size)
        }
        Mode::Register(n) => {
            permit(at, register_verdict(access, size, n))?;
            Ok(Part {
                value: Operand::Register(n),
                next,
            })
        }
        Mode::Increment(n) => Ok(Part {
            value: Operand::Increment(n),
            next,
        }),
        Mode::Decrement(n) => Ok(Part {
            value: Operand::Decrement(n),
            next,
        }),
        Mode::Double(base, width) => double(bus, at, base, width),
        Mode::Index(x) => indexed(bus, at, x),
    }
}

// The operand whose first mode byte lies at `at`.
pub fn operand_at<B: Bus>(
    bus: &mut B,
    at: u32,
    m: bool,
    size: Size,
    access: Access,
) -> Result<Part<Operand>, Refusal>
    ensures { Runs (operand_is at m size access) (B.Bus.seen bus.old) result (B.Bus.seen bus.new) }
{
    let byte = bus.fetch(at)?;
    let mode = mode_of(m, byte).ok_or(Refusal::ReservedEncoding(at))?;
    by_mode(bus, at, size, access, mode)
}
