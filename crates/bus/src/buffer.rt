// The store buffer of one step.
ghost use Rattle.std.specs.Prelude.{◌≡◌, true, [], ◌∷◌, ◌++◌, if◌then◌else◌};
ghost use Rattle.bus.specs.Buffer.{last_set, joins, OneRun};

use std::marker::Model;

mod commit;

const CAPACITY: usize = 256;

// Bytes that a step has set and that wait for it to be accepted: a run from one address on.
// Why an array with a length, and no Vec: a step allocates nothing.
#[derive(Clone, Copy, Debug)]
pub struct StoreBuffer {
    base: u32,
    len: usize,
    bytes: [u8; 256],
}

// Clauses see the bytes set, each with its address, in order: they tell the fields, since what is not used stays 0.
impl Model for StoreBuffer {
    ghost use Rattle.std.specs.Prelude.{ℕ, List, length};
    ghost use Rattle.bus.specs.Buffer.{buffered};
    ghost use Rattle.bus.specs.Form.{OneForm, base_of, bytes_of, base_again, length_again, bytes_again};

    ghost Value = { List (ℕ × ℕ) };

    ghost view = { λ b. buffered b.base b.len b.bytes };

    ghost invariant = { λ b. OneForm b.base b.len b.bytes };

    ghost inverse = { λ cs. record { base = base_of cs; len = length cs; bytes = bytes_of cs } };

    ghost inverse_ok = { λ b h i. record {
      base = base_again b.base b.len b.bytes h i;
      len = length_again b.base b.len b.bytes h i;
      bytes = bytes_again b.base b.len b.bytes h i;
    } };
}

impl StoreBuffer {
    pub fn new() -> StoreBuffer
        ensures { result ≡ [] }
    {
        StoreBuffer {
            base: 0,
            len: 0,
            bytes: [0; 256],
        }
    }

    // The byte set last at an address.
    pub fn get(&self, address: u32) -> Option<u8>
        ensures { result ≡ last_set address self.now }
    {
        let i = address.wrapping_sub(self.base) as usize;
        self.bytes[..self.len].get(i).copied()
    }

    // Sets one byte more where it joins the run, and so wherever the bytes stay one run.
    pub fn put(&mut self, address: u32, byte: u8)
        ensures joined { OneRun (self.old ++ ((address, byte) ∷ [])) → joins self.old address ≡ true }
        ensures after { self.new ≡ (if joins self.old address then self.old ++ ((address, byte) ∷ []) else self.old) }
    {
        if !self.may_join(address) {
            return;
        }
        self.bytes[self.len] = byte;
        if self.len == 0 {
            self.base = address;
        }
        self.len += 1;
    }

    // Whether a byte at an address joins the run.
    fn may_join(&self, address: u32) -> bool
        ensures { result ≡ joins self.now address }
    {
        let place = address.wrapping_sub(self.base) as usize;
        self.len == 0 || (self.len < CAPACITY && place == self.len)
    }
}
