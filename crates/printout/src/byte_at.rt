// A byte with its address, as the lines of both sheets show it.
ghost use Rattle.std.specs.Prelude.{◌≡◌, Some};
ghost use Rattle.printout.specs.Text.{byte_at_text};

use bus::{ReadLine, WriteLine};
use std::fmt;

// Why a type beside the lines: those of the writes sheet show it too, each with its step before it.
#[derive(Clone, Copy)]
pub struct ByteAt {
    pub address: u32,
    pub byte: u8,
}

impl fmt::Display for ByteAt {
    ghost output = { λ b. Some (byte_at_text b.address b.byte) };

    #[tactic(auto, using(crate::proofs::Columns::printed))]
    fn fmt<W: fmt::Write>(&self, f: &mut fmt::Formatter<W>) -> fmt::Result {
        let ByteAt { address, byte } = *self;
        write!(f, "{address:08X} {byte:02X}")
    }
}

impl From<ReadLine> for ByteAt {
    ghost from_gives = { λ line b. (b.address ≡ line.address) × (b.byte ≡ line.byte) };

    fn from(line: ReadLine) -> ByteAt {
        let ReadLine { address, byte } = line;
        ByteAt { address, byte }
    }
}

impl From<WriteLine> for ByteAt {
    ghost from_gives = { λ line b. (b.address ≡ line.address) × (b.byte ≡ line.byte) };

    fn from(line: WriteLine) -> ByteAt {
        let WriteLine { address, byte, .. } = line;
        ByteAt { address, byte }
    }
}
