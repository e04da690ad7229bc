// Reads cases from standard input, one to a line, and decodes each. A case is PC BYTES, both hexadecimal; the bytes lie
// from PC on, past FFFFFFFFh to 0, and no other address has a right. The answer is the instruction, its length and the
// reads lines that it left, or the refusal with its place and the lines.
#![tactic(auto)]

use anyhow::{Context, bail};
use board::{Board, Cut, Rom};
use bus::{ReadLine, Refusal, StepBus, StoreBuffer};
use instruction::{Instruction, decode};
use std::alloc::Global;
use std::io::{BufRead, BufReader};

// What decoding comes to, and how many lines of the reads sheet are used then.
fn attempt<B: Board>(
    board: &B,
    reads: &mut [ReadLine],
    pc: u32,
) -> (Result<Instruction, Refusal>, usize) {
    let mut bus = StepBus {
        board,
        reads,
        used: 0,
        writes: &[],
        buffer: StoreBuffer::new(),
    };
    let outcome = decode(&mut bus, pc);
    (outcome, bus.used)
}

fn answer(rt: &HostRuntime, board: &impl Board, pc: u32) -> anyhow::Result<()> {
    let mut reads = [ReadLine::default(); 32];
    let (outcome, used) = attempt(board, &mut reads, pc);
    match outcome {
        Ok(instruction) => {
            println!(rt;
                "{:?} {} {used}",
                instruction.action(),
                instruction.length()
            )?;
        }
        Err(refusal) => println!(rt; "{} {:08X} {used}", refusal.number(), refusal.place())?,
    }
    Ok(())
}

// Why here and in execute_cases: the two programs share no crate that reads text.
fn digit(byte: u8) -> anyhow::Result<u8> {
    match char::from(byte).to_digit(16) {
        Some(value) => Ok(value as u8),
        None => bail!("no hexadecimal digit"),
    }
}

// Bytes, two digits each; half a byte at the end says nothing.
fn bytes_of(heap: Global, text: &str) -> anyhow::Result<Vec<u8>> {
    let mut bytes = Vec::new(heap);
    for pair in text.as_bytes().chunks(2) {
        match pair {
            [high, low] => bytes.push(digit(*high)? << 4 | digit(*low)?)?,
            half => {
                for last in half {
                    digit(*last)?;
                }
            }
        }
    }
    Ok(bytes)
}

fn case(rt: &HostRuntime, line: &str) -> anyhow::Result<()> {
    let (pc, code) = line.split_once(' ').context("a case is PC BYTES")?;
    let pc = u32::from_str_radix(pc, 16)?;
    let bytes = bytes_of(rt.alloc(), code)?;
    let room = (u32::MAX - pc) as usize + 1;
    let (upper, lower) = bytes.as_slice().split_at(room.min(bytes.len()));
    let board = Cut::new(0x1000, Rom::new(0, lower), Rom::new(pc, upper));
    answer(rt, &board, pc)
}

fn main(rt: HostRuntime) -> anyhow::Result<()> {
    for line in BufReader::new(rt.alloc(), rt.stdin())?.lines(rt.alloc()) {
        case(&rt, line?.as_str())?;
    }
    Ok(())
}
