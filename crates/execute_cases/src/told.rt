// Telling what a step came to.
use super::parts::Memory;
use anyhow::Context;
use board::Board;
use bus::{ReadLine, Refusal, WriteLine};
use processor::Cpu;
use std::fmt::Write;
use std::ops::Range;

// A byte at an address, and the step that put it there, where that is told too.
#[derive(Clone, Copy)]
pub struct Told {
    step: Option<u32>,
    address: u32,
    byte: u8,
}

impl Told {
    // Whether it goes on where another ends.
    fn follows(self, before: Told) -> bool {
        self.step == before.step && self.address == before.address.wrapping_add(1)
    }
}

impl From<ReadLine> for Told {
    fn from(line: ReadLine) -> Told {
        Told {
            step: None,
            address: line.address,
            byte: line.byte,
        }
    }
}

impl From<WriteLine> for Told {
    fn from(line: WriteLine) -> Told {
        Told {
            step: Some(line.step),
            address: line.address,
            byte: line.byte,
        }
    }
}

// Why functions that write to a line, and no Display: what they tell is put together from the case, the board and both sheets.

// The outcome, the PC and the flags.
pub fn tell_outcome(
    line: &mut String,
    outcome: Result<(), Refusal>,
    cpu: &Cpu,
) -> anyhow::Result<()> {
    match outcome {
        Ok(()) => write!(line, "ok")?,
        Err(refusal) => {
            let number = refusal.number();
            let place = refusal.place();
            write!(line, "{number}@{place:X}")?;
        }
    }
    let pc = cpu.pc;
    let flags = cpu.flags.number();
    write!(line, " {pc:X} {flags:04b}")?;
    Ok(())
}

// The registers that differ from the start.
pub fn tell_registers(line: &mut String, cpu: &Cpu, start: &Cpu) -> anyhow::Result<()> {
    for (n, (now, before)) in cpu.registers.iter().zip(&start.registers).enumerate() {
        if now != before {
            write!(line, " R{n}={now:X}")?;
        }
    }
    Ok(())
}

// Bytes under a letter. Those that follow on one another are told together.
#[derive(Clone, Copy)]
struct Runs {
    letter: char,
    last: Option<Told>,
}

impl Runs {
    fn new(letter: char) -> Runs {
        Runs { letter, last: None }
    }

    fn add(&mut self, line: &mut String, told: Told) -> anyhow::Result<()> {
        let Told {
            step,
            address,
            byte,
        } = told;
        if self.last.is_none() {
            let letter = self.letter;
            write!(line, " {letter}")?;
        }
        if !self.last.is_some_and(|before| told.follows(before)) {
            match step {
                Some(step) => write!(line, " {step}:{address:X}:")?,
                None => write!(line, " {address:X}:")?,
            }
        }
        write!(line, "{byte:02X}")?;
        self.last = Some(told);
        Ok(())
    }
}

// The lines that were added to a sheet, under a letter.
pub fn tell_lines<L: Copy + Into<Told>>(
    line: &mut String,
    letter: char,
    sheet: &[L],
    added: Range<usize>,
) -> anyhow::Result<()> {
    let mut runs = Runs::new(letter);
    for told in sheet.iter().take(added.end).skip(added.start) {
        runs.add(line, (*told).into())?;
    }
    Ok(())
}

// The bytes of memory that differ from the start.
pub fn tell_memory<B: Board>(line: &mut String, start: &Memory, board: &B) -> anyhow::Result<()> {
    let mut runs = Runs::new('m');
    for part in &start.parts {
        // what would lie past FFFFFFFFh is never reached
        for (address, before) in (part.base..=u32::MAX).zip(&part.bytes) {
            let byte = board.fetch(address).context("memory is missing")?;
            if byte != *before {
                runs.add(
                    line,
                    Told {
                        step: None,
                        address,
                        byte,
                    },
                )?;
            }
        }
    }
    Ok(())
}
