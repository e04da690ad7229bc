// Several bytes in a row, on any board.
ghost use Rattle.std.specs.Prelude.{◌≡◌, length};
ghost use Rattle.board.specs.Block.{above, fetches, copied};

use super::Board;

// What fetches from an address on answer, one for each cell, past FFFFFFFFh to 0.
pub fn read_block<B: Board>(board: &B, from: u32, cells: &mut [Option<u8>])
    ensures { cells.new ≡ fetches (B.Board.rights board.now) (B.Board.bytes board.now) from (length cells.old) }
{
    // Why an address beside the cells: there may be more cells than addresses, so that no index is sure to be a u32.
    let mut address = from;
    for cell in cells.iter_mut() {
        *cell = board.fetch(address);
        address = address.wrapping_add(1);
    }
}

// Copies bytes one by one, past FFFFFFFFh to 0, up to the first that may not be fetched or stored, and says how many.
pub fn copy_block<B: Board>(board: &mut B, from: u32, to: u32, count: u32) -> u32
    ensures rights { B.Board.rights board.new ≡ B.Board.rights board.old }
    ensures copied { copied (B.Board.rights board.old) from to count (B.Board.bytes board.old) ≡ (result, B.Board.bytes board.new) }
{
    for i in 0..count {
        let Some(byte) = board.fetch(from.wrapping_add(i)) else {
            return i;
        };
        if !board.store(to.wrapping_add(i), byte) {
            return i;
        }
    }
    count
}
