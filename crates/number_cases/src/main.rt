// Reads cases from standard input, one to a line, and writes what each comes to.
// A case is OPERATION WIDTH DST SRC FLAGS. DST, SRC and FLAGS are hexadecimal; a width, a count and a place are decimal, and a
// condition may have any width.
// Of the answer the first word is the number, and the second the flags: CY, OV, S, Z.
#![tactic(auto)]

use anyhow::bail;
use number::arithmetic::{Computed, add, and, not, or, subtract, test, xor};
use number::flags::{Flags, holds};
use number::shift::{rotate, shift_arithmetic, shift_logical};
use number::width::{Arithmetic, Size, Width, one, sign_extend, zero, zero_extend};
use std::io::{BufRead, BufReader};
use std::str::SplitWhitespace;

#[derive(Drop)]
struct Case<'a> {
    operation: &'a str,
    // none where no width has so many bits
    size: Option<Size>,
    dst: u64,
    src: &'a str,
    flags: Flags,
}

impl<'a> TryFrom<&'a str> for Case<'a> {
    type Error = anyhow::Error;

    fn try_from(line: &'a str) -> anyhow::Result<Case<'a>> {
        let mut words = line.split_whitespace();
        Ok(Case {
            operation: next_word(&mut words)?,
            size: size(next_word(&mut words)?.parse::<u32>()?),
            dst: hex(next_word(&mut words)?)?,
            src: next_word(&mut words)?,
            flags: flags(hex(next_word(&mut words)?)?),
        })
    }
}

impl<'a> Case<'a> {
    // SRC as a number of the width.
    fn number<W: Width>(&self) -> anyhow::Result<W> {
        Ok(W::low(hex(self.src)?))
    }

    // SRC as a count of bits.
    fn count(&self) -> anyhow::Result<i8> {
        Ok(self.src.parse::<i8>()?)
    }
}

// The next word of a line that has one.
fn next_word<'a>(words: &mut SplitWhitespace<'a>) -> anyhow::Result<&'a str> {
    let Some(word) = words.next() else {
        bail!("a word is missing");
    };
    Ok(word)
}

fn hex(word: &str) -> anyhow::Result<u64> {
    Ok(u64::from_str_radix(word, 16)?)
}

// The width of so many bits, if there is one.
fn size(bits: u32) -> Option<Size> {
    match bits {
        8 => Some(Size::Byte),
        16 => Some(Size::Halfword),
        32 => Some(Size::Word),
        64 => Some(Size::Doubleword),
        _ => None,
    }
}

fn flags(number: u64) -> Flags {
    let [cy, ov, s, z] = [8, 4, 2, 1].map(|bit| number & bit != 0);
    Flags { cy, ov, s, z }
}

fn computed<W: Arithmetic>(case: &Case) -> anyhow::Result<Computed<W>> {
    let dst = W::low(case.dst);
    let before = case.flags;
    Ok(match case.operation {
        "add" => add(dst, case.number()?, before.cy),
        "sub" => subtract(dst, case.number()?, before.cy),
        "and" => and(dst, case.number()?, before),
        "or" => or(dst, case.number()?, before),
        "xor" => xor(dst, case.number()?, before),
        "not" => not(case.number()?, before),
        "test" => test(case.number()?),
        "inc" => add(case.number()?, one(), false),
        "dec" => subtract(case.number()?, one(), false),
        "neg" => subtract(zero(), case.number()?, false),
        "shl" => shift_logical(dst, case.count()?),
        "sha" => shift_arithmetic(dst, case.count()?),
        "rot" => rotate(dst, case.count()?),
        _ => {
            // SRC is read as a number before the operation is looked for
            hex(case.src)?;
            bail!("no such operation")
        }
    })
}

fn show_computed<W: Arithmetic>(rt: &HostRuntime, case: &Case) -> anyhow::Result<()> {
    let result = computed::<W>(case)?;
    let number = result.value.to_u64();
    let after = result.flags.number();
    println!(rt; "{number:x} {after:04b}")?;
    Ok(())
}

// The number in a wider width, with its sign or with zeros above it.
fn show_extended<A: Width, B: Width>(rt: &HostRuntime, case: &Case) -> anyhow::Result<()> {
    let narrow = A::low(case.dst);
    let wide: B = match case.operation {
        "movs" => sign_extend(narrow),
        _ => zero_extend(narrow),
    };
    let number = wide.to_u64();
    println!(rt; "{number:x}")?;
    Ok(())
}

// The byte at a place, and the number that the bytes of DST make.
fn bytes<W: Width>(case: &Case, place: u32) -> (u8, u64) {
    let number = W::from_bytes(case.dst.to_le_bytes());
    (W::low(case.dst).byte(place), number.to_u64())
}

// Both, and how many bytes a number of the width has.
fn show_bytes(rt: &HostRuntime, case: &Case, size: Size) -> anyhow::Result<()> {
    let place = case.src.parse::<u32>()?;
    let (byte, number) = match size {
        Size::Byte => bytes::<u8>(case, place),
        Size::Halfword => bytes::<u16>(case, place),
        Size::Word => bytes::<u32>(case, place),
        Size::Doubleword => bytes::<u64>(case, place),
    };
    let count = size.bytes();
    println!(rt; "{byte:x} {number:x} {count}")?;
    Ok(())
}

fn show_taken(rt: &HostRuntime, case: &Case) -> anyhow::Result<()> {
    let taken = holds(u8::low(case.dst), case.flags);
    println!(rt; "{taken}")?;
    Ok(())
}

fn show(rt: &HostRuntime, case: &Case) -> anyhow::Result<()> {
    match (case.operation, case.size) {
        ("if", _) => show_taken(rt, case),
        ("movs" | "movz", from) => match (from, size(case.src.parse::<u32>()?)) {
            (Some(Size::Byte), Some(Size::Halfword)) => show_extended::<u8, u16>(rt, case),
            (Some(Size::Byte), Some(Size::Word)) => show_extended::<u8, u32>(rt, case),
            (Some(Size::Halfword), Some(Size::Word)) => show_extended::<u16, u32>(rt, case),
            _ => bail!("no such extension"),
        },
        ("bytes", Some(size)) => show_bytes(rt, case, size),
        (_, Some(Size::Byte)) => show_computed::<u8>(rt, case),
        (_, Some(Size::Halfword)) => show_computed::<u16>(rt, case),
        (_, Some(Size::Word)) => show_computed::<u32>(rt, case),
        _ => bail!("no such width"),
    }
}

fn main(rt: HostRuntime) -> anyhow::Result<()> {
    for line in BufReader::new(rt.alloc(), rt.stdin())?.lines(rt.alloc()) {
        show(&rt, &Case::try_from(line?.as_str())?)?;
    }
    Ok(())
}
