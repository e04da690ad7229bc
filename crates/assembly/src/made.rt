// A board that owns its memory: banks one after another.
ghost use Rattle.std.specs.Prelude.{◌≡◌, ◌+◌, ◌≤◌, [], vec_len, IfOk, IfErr};
ghost use Rattle.assembly.specs.Meaning.{ram_of, rom_of, sensor_of, cut_of};
ghost use Rattle.assembly.specs.Joints.{answering, passed as passed_by, next_joint};
ghost use Rattle.assembly.specs.Stretch.{Stretch};
ghost use Rattle.assembly.specs.Made.{meaning_of};

use super::bank::Bank;
use board::{Board, MemoryMap, Right, SensorPage};
use std::alloc::Global;

const LAST: u32 = u32::MAX;

// From the address `at` on this bank answers, up to the next joint.
#[derive(Drop)]
struct Joint {
    at: u32,
    bank: Bank,
}

// What the types of the crate `board` are, where only a running program knows which it needs.
//
// Why joints in a row, and no tree of cuts: a script may cut as often as it likes, and a deep tree takes a deep stack.
#[derive(Drop)]
pub struct Assembly {
    // the bank that answers below the first joint
    first: Bank,
    joints: Vec<Joint>,
}

// Two boards that were not cut, for want of memory.
#[derive(Drop)]
pub struct Uncut {
    pub lower: Assembly,
    pub upper: Assembly,
}

impl Assembly {
    fn of(alloc: Global, first: Bank) -> Assembly
        ensures first { result.first ≡ first }
        ensures joints { result.joints.items ≡ [] }
    {
        Assembly {
            first,
            joints: Vec::new(alloc),
        }
    }

    pub fn ram(alloc: Global, base: u32, bytes: Vec<u8>) -> Assembly
        ensures { meaning_of result ≡ ram_of base bytes.items }
    {
        Assembly::of(alloc, Bank::Ram { base, bytes })
    }

    pub fn rom(alloc: Global, base: u32, bytes: Vec<u8>) -> Assembly
        ensures { meaning_of result ≡ rom_of base bytes.items }
    {
        Assembly::of(alloc, Bank::Rom { base, bytes })
    }

    pub fn sensor(alloc: Global, base: u32, readings: [u16; 16]) -> Assembly
        ensures { meaning_of result ≡ sensor_of base readings }
    {
        Assembly::of(alloc, Bank::Sensor(SensorPage::new(base, readings)))
    }

    // How many joints are passed on the way to an address.
    fn passed(&self, address: u32) -> usize
        ensures number { result ≡ passed_by address self.now.joints.items }
        ensures within { result ≤ vec_len self.now.joints }
    {
        let mut passed = 0;
        for joint in &self.joints {
            if address < joint.at {
                return passed;
            }
            passed += 1;
        }
        passed
    }

    // The bank that answers at an address.
    fn bank(&self, address: u32) -> &Bank
        ensures { result.now ≡ answering address self.now.first self.now.joints.items }
    {
        let mut bank = &self.first;
        for joint in &self.joints {
            if address < joint.at {
                return bank;
            }
            bank = &joint.bank;
        }
        bank
    }

    // The last address before the first joint above an address.
    fn before_joint(&self, address: u32) -> u32
        ensures { result + 1 ≡ next_joint address self.now.joints.items }
    {
        for joint in &self.joints {
            if address < joint.at {
                return joint.at - 1;
            }
        }
        LAST
    }

    // The end of a stretch from an address on that has one right.
    fn stretch_end(&self, address: u32) -> u32
        ensures { Stretch (meaning_of self.now).rights address result }
    {
        let end = self.bank(address).region_end(address);
        end.min(self.before_joint(address))
    }

    // Joins two boards at an address: below it the lower one answers, from it on the upper one. Where memory runs out it
    // gives them back.
    pub fn cut(at: u32, lower: Assembly, upper: Assembly) -> Result<Assembly, Uncut>
        ensures ok { IfOk result (λ b. meaning_of b ≡ cut_of at (meaning_of lower) (meaning_of upper)) }
        ensures lower { IfErr result (λ e. meaning_of e.lower ≡ meaning_of lower) }
        ensures upper { IfErr result (λ e. meaning_of e.upper ≡ meaning_of upper) }
    {
        if at == 0 {
            return Ok(upper);
        }
        let mut lower = lower;
        if lower.joints.reserve(upper.joints.len() + 1).is_err() {
            return Err(Uncut { lower, upper });
        }
        let kept = lower.passed(at - 1);
        let Assembly {
            first: bank,
            mut joints,
        } = upper;
        lower.joints.truncate(kept);
        lower.joints.push(Joint { at, bank }).unwrap();
        lower.joints.append(&mut joints).unwrap();
        Ok(lower)
    }
}

impl Board for Assembly {
    ghost rights = { λ s. (meaning_of s).rights };

    ghost bytes = { λ s. (meaning_of s).bytes };

    fn right(&self, address: u32) -> Right {
        self.bank(address).right(address)
    }

    fn fetch(&self, address: u32) -> Option<u8> {
        self.bank(address).fetch(address)
    }

    fn store(&mut self, address: u32, byte: u8) -> bool {
        let passed = self.passed(address);
        if passed == 0 {
            self.first.store(address, byte)
        } else {
            self.joints[passed - 1].bank.store(address, byte)
        }
    }
}

impl MemoryMap for Assembly {
    fn region_end(&self, address: u32) -> u32 {
        let right = self.right(address);
        let mut end = self.stretch_end(address);
        while end < LAST && self.right(end + 1) == right {
            end = self.stretch_end(end + 1);
        }
        end
    }
}
