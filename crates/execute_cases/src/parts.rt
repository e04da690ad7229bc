// The memory of a case, by its parts.
use anyhow::Context;
use std::alloc::Global;

// Bytes from a base address on.
#[derive(Clone, Drop)]
pub struct Part {
    pub base: u32,
    pub bytes: Vec<u8>,
}

impl Part {
    // BASE+COUNT, each byte as its address gives it.
    pub fn read(heap: Global, word: &str) -> anyhow::Result<Part> {
        let (base, count) = word.split_once('+').context("a part is BASE+COUNT")?;
        let base = u32::from_str_radix(base, 16)?;
        let count = u32::from_str_radix(count, 16)?;
        let bytes = (0..count)
            .map(|i| first_byte(base.wrapping_add(i)))
            .collect(heap)?;
        Ok(Part { base, bytes })
    }

    // Puts a byte at an address, if it lies in this part.
    fn poke(&mut self, address: u32, byte: u8) {
        if let Some(i) = address.checked_sub(self.base) {
            if let Some(place) = self.bytes.get_mut(i as usize) {
                *place = byte;
            }
        }
    }
}

// What an address holds where a case says nothing.
fn first_byte(address: u32) -> u8 {
    (address % 0x100) as u8 ^ 0x5a
}

// RAM and ROM by turns, in rising order.
#[derive(Clone, Drop)]
pub struct Memory {
    pub parts: [Part; 5],
}

impl Memory {
    // Puts a byte at an address.
    pub fn poke(&mut self, address: u32, byte: u8) {
        for part in &mut self.parts {
            part.poke(address, byte);
        }
    }
}
