// Reads cases from standard input, one to a line, and executes each. A case is
//
//     STEPS PC FLAGS PART PART PART PART PART [Rn=VALUE ..] [@ADDRESS=BYTES ..]
//
// with words apart by blanks and numbers hexadecimal, except that STEPS, the number of steps that are tried, and the n of
// a register are decimal. FLAGS are four binary digits, CY OV S Z. The parts are RAM, ROM, RAM, ROM and RAM in rising
// order, each BASE+COUNT; no other address has a right. A register that is not given holds n+1 in each of its four bytes,
// so that one that is wrongly changed shows. A byte of memory that is not given is the low byte of its address with the
// bits of 5Ah turned over.
//
// Each step that is tried, also after a refused one, answers a line:
//
//     ok|NUMBER@PLACE PC FLAGS [Rn=VALUE ..] [r RUN ..] [w STEP:RUN ..] [m RUN ..]
//
// with NUMBER and STEP decimal. It tells the outcome, the PC and the flags, every register that differs from the case's
// start, the lines that the step added to the reads sheet (r) and to the writes sheet (w), and every byte of memory that
// differs from the case's start (m). A run is ADDRESS:BYTES, lines at successive addresses (and of one step).
#![tactic(auto)]

use board::{Board, Cut, Ram, Rom};
use bus::{ReadLine, Refusal, StepBus, StoreBuffer, WriteLine};
use execute::step;
use processor::Cpu;
use std::io::{BufRead, BufReader};

mod given;
mod parts;
mod told;

use given::Case;

// Where a case stands: what the processor holds, how many steps are complete, and how many lines of each sheet are used.
#[derive(Clone, Copy, Default)]
struct Standing {
    cpu: Cpu,
    completed: u32,
    read: usize,
    written: usize,
}

// Runs a step on a bus over the board and the sheets: what comes of it, how many lines of the reads sheet are used then,
// and what it set, which waits in the buffer.
fn attempt<'a, 'b, B: Board>(
    board: &'a B,
    reads: &'b mut [ReadLine],
    writes: &'a [WriteLine],
    before: Standing,
) -> (Result<Cpu, Refusal>, usize, StoreBuffer) {
    let mut bus = StepBus {
        board,
        reads,
        used: before.read,
        writes,
        buffer: StoreBuffer::new(),
    };
    let outcome = step(&mut bus, before.cpu);
    (outcome, bus.used, bus.buffer)
}

// Tries a step: it is accepted whole, or it leaves nothing but its reads lines.
fn try_step<B: Board>(
    board: &mut B,
    reads: &mut [ReadLine],
    writes: &mut [WriteLine],
    before: Standing,
) -> (Standing, Result<(), Refusal>) {
    let written = before.written.min(writes.len());
    let (outcome, read, buffer) = attempt(board, reads, &writes[..written], before);
    let refused = Standing { read, ..before };
    let completed = before.completed.saturating_add(1);
    match outcome {
        Err(refusal) => (refused, Err(refusal)),
        Ok(cpu) => {
            if !buffer.commit(board, writes, written, completed) {
                return (refused, Err(Refusal::WritesFull));
            }
            let accepted = Standing {
                cpu,
                completed,
                read,
                written: written + buffer.len(),
            };
            (accepted, Ok(()))
        }
    }
}

// Tries the steps of a case and prints a line for each.
fn try_steps<B: Board>(
    rt: &HostRuntime,
    board: &mut B,
    reads: &mut [ReadLine],
    writes: &mut [WriteLine],
    start: &Case,
) -> anyhow::Result<()> {
    let mut standing = Standing {
        cpu: start.cpu,
        ..Standing::default()
    };
    for _ in 0..start.steps {
        let before = standing;
        let (after, outcome) = try_step(board, reads, writes, before);
        let mut line = String::new(rt.alloc());
        told::tell_outcome(&mut line, outcome, &after.cpu)?;
        told::tell_registers(&mut line, &after.cpu, &start.cpu)?;
        told::tell_lines(&mut line, 'r', reads, before.read..after.read)?;
        told::tell_lines(&mut line, 'w', writes, before.written..after.written)?;
        told::tell_memory(&mut line, &start.memory, board)?;
        println!(rt; "{line}")?;
        standing = after;
    }
    Ok(())
}

// Tries the steps of a case on a board, with sheets that have room for them.
fn on_sheets<B: Board>(rt: &HostRuntime, board: &mut B, start: &Case) -> anyhow::Result<()> {
    let mut reads = [ReadLine::default(); 1024];
    let mut writes = [WriteLine::default(); 1024];
    try_steps(rt, board, &mut reads, &mut writes, start)
}

// Puts the board of a case together and tries its steps on it.
fn execute_case(rt: &HostRuntime, start: &Case) -> anyhow::Result<()> {
    let [
        mut first_ram,
        first_rom,
        mut second_ram,
        second_rom,
        mut third_ram,
    ] = start.memory.parts.clone()?;
    let top = Ram::new(third_ram.base, third_ram.bytes.as_mut_slice());
    let upper = Cut::new(
        third_ram.base,
        Rom::new(second_rom.base, second_rom.bytes.as_slice()),
        top,
    );
    let middle = Cut::new(
        second_rom.base,
        Ram::new(second_ram.base, second_ram.bytes.as_mut_slice()),
        upper,
    );
    let lower = Cut::new(
        second_ram.base,
        Rom::new(first_rom.base, first_rom.bytes.as_slice()),
        middle,
    );
    let mut board = Cut::new(
        first_rom.base,
        Ram::new(first_ram.base, first_ram.bytes.as_mut_slice()),
        lower,
    );
    on_sheets(rt, &mut board, start)
}

fn main(rt: HostRuntime) -> anyhow::Result<()> {
    for line in BufReader::new(rt.alloc(), rt.stdin())?.lines(rt.alloc()) {
        let start = Case::read(rt.alloc(), line?.as_str())?;
        execute_case(&rt, &start)?;
    }
    Ok(())
}
