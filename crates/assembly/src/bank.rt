// A bank that owns its memory: one make of board, without cuts.
ghost use Rattle.std.specs.Prelude.{◌≡◌, ◌<◌, length, vec_len, slice_index};
ghost use Rattle.board.specs.declared.Right.TheVariants.{ReadWrite};
ghost use Rattle.board.specs.Meaning.{over, held, stored, writable, changed, place as place_of};
ghost use Rattle.assembly.specs.Banks.{bank_meaning};

use board::{Board, MemoryMap, Right, Rom, SensorPage};

#[derive(Drop)]
pub(crate) enum Bank {
    // bytes from a base address on, read and written
    Ram { base: u32, bytes: Vec<u8> },
    // bytes from a base address on, for reading only
    Rom { base: u32, bytes: Vec<u8> },
    Sensor(SensorPage),
}

// The place of an address among bytes from a base address on, if it is one of theirs.
fn place(base: u32, bytes: &[u8], address: u32) -> Option<usize>
    ensures { result ≡ place_of base (length bytes.now) address }
{
    let i = address.checked_sub(base)? as usize;
    (i < bytes.len()).then_some(i)
}

// Puts a byte into cell `i`.
fn set(bytes: &mut Vec<u8>, i: usize, byte: u8)
    requires { i < vec_len bytes.old }
    ensures count { length bytes.new.items ≡ length bytes.old.items }
    ensures bytes { slice_index bytes.new.items ≡ changed i byte (slice_index bytes.old.items) }
{
    bytes[i] = byte;
}

// Puts a byte at an address, if it is one of the bytes', and says whether it did.
fn put(base: u32, bytes: &mut Vec<u8>, address: u32, byte: u8) -> bool
    ensures answer { let n = length bytes.old.items in result ≡ writable (over ReadWrite base n address) }
    ensures count { length bytes.new.items ≡ length bytes.old.items }
    ensures bytes { let n = length bytes.old.items in held base n (slice_index bytes.new.items) ≡ stored (over ReadWrite base n address) address byte (held base n (slice_index bytes.old.items)) }
{
    match place(base, bytes, address) {
        Some(i) => {
            set(bytes, i, byte);
            true
        }
        None => false,
    }
}

impl Board for Bank {
    ghost rights = { λ s. (bank_meaning s).rights };

    ghost bytes = { λ s. (bank_meaning s).bytes };

    fn right(&self, address: u32) -> Right {
        match self {
            Bank::Ram { base, bytes } => match place(*base, bytes, address) {
                Some(_) => Right::ReadWrite,
                None => Right::NoAccess,
            },
            Bank::Rom { base, bytes } => Rom::new(*base, bytes).right(address),
            Bank::Sensor(page) => page.right(address),
        }
    }

    fn fetch(&self, address: u32) -> Option<u8> {
        match self {
            Bank::Ram { base, bytes } | Bank::Rom { base, bytes } => {
                Rom::new(*base, bytes).fetch(address)
            }
            Bank::Sensor(page) => page.fetch(address),
        }
    }

    fn store(&mut self, address: u32, byte: u8) -> bool {
        match self {
            Bank::Ram { base, bytes } => put(*base, bytes, address, byte),
            Bank::Rom { .. } | Bank::Sensor(_) => false,
        }
    }
}

impl MemoryMap for Bank {
    fn region_end(&self, address: u32) -> u32 {
        match self {
            Bank::Ram { base, bytes } | Bank::Rom { base, bytes } => {
                Rom::new(*base, bytes).region_end(address)
            }
            Bank::Sensor(page) => page.region_end(address),
        }
    }
}
