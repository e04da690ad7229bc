// Reading a case.
use super::parts::{Memory, Part};
use anyhow::{Context, bail};
use number::flags::Flags;
use processor::Cpu;
use std::alloc::Global;
use std::str::SplitWhitespace;

// The steps to try, and what processor and memory hold at the start.
#[derive(Drop)]
pub struct Case {
    pub steps: u32,
    pub cpu: Cpu,
    pub memory: Memory,
}

// The next word of a line that has one.
fn next_word<'a>(words: &mut SplitWhitespace<'a>) -> anyhow::Result<&'a str> {
    words.next().context("a word is missing")
}

// Why here and in decode_cases: the two programs share no crate that reads text.
fn digit(byte: u8) -> anyhow::Result<u8> {
    match char::from(byte).to_digit(16) {
        Some(value) => Ok(value as u8),
        None => bail!("no hexadecimal digit"),
    }
}

fn read_flags(word: &str) -> anyhow::Result<Flags> {
    let number = u8::from_str_radix(word, 2)?;
    let [cy, ov, s, z] = [8, 4, 2, 1].map(|bit| number & bit != 0);
    Ok(Flags { cy, ov, s, z })
}

// What the processor holds where a case says nothing.
fn first_cpu(pc: u32, flags: Flags) -> Cpu {
    Cpu {
        registers: std::array::from_fn(|n| (n as u32 + 1) * 0x0101_0101),
        pc,
        flags,
    }
}

impl Case {
    pub fn read(heap: Global, line: &str) -> anyhow::Result<Case> {
        let mut words = line.split_whitespace();
        let steps = next_word(&mut words)?.parse::<u32>()?;
        let pc = u32::from_str_radix(next_word(&mut words)?, 16)?;
        let flags = read_flags(next_word(&mut words)?)?;
        let parts = [
            Part::read(heap, next_word(&mut words)?)?,
            Part::read(heap, next_word(&mut words)?)?,
            Part::read(heap, next_word(&mut words)?)?,
            Part::read(heap, next_word(&mut words)?)?,
            Part::read(heap, next_word(&mut words)?)?,
        ];
        let mut case = Case {
            steps,
            cpu: first_cpu(pc, flags),
            memory: Memory { parts },
        };
        for word in words {
            case.preset(word)?;
        }
        Ok(case)
    }

    // Rn=VALUE or @ADDRESS=BYTES.
    fn preset(&mut self, word: &str) -> anyhow::Result<()> {
        let (name, value) = word.split_once('=').context("a preset has a =")?;
        if let Some(address) = name.strip_prefix('@') {
            return self.preset_bytes(u32::from_str_radix(address, 16)?, value);
        }
        let register = name
            .strip_prefix('R')
            .context("a preset is of a register or of memory")?
            .parse::<u8>()?;
        let value = u32::from_str_radix(value, 16)?;
        self.cpu = self.cpu.with_register(register, value);
        Ok(())
    }

    // Bytes, two digits each, from an address on; half a byte at the end says nothing.
    fn preset_bytes(&mut self, address: u32, text: &str) -> anyhow::Result<()> {
        for (i, digits) in text.as_bytes().chunks(2).enumerate() {
            match digits {
                [high, low] => {
                    let byte = digit(*high)? << 4 | digit(*low)?;
                    let address = address.wrapping_add((i & 0xffff_ffff) as u32);
                    self.memory.poke(address, byte);
                }
                half => {
                    for last in half {
                        digit(*last)?;
                    }
                }
            }
        }
        Ok(())
    }
}
