// The memory map of a board: where each region of one right ends.
ghost use Rattle.board.specs.Meaning.{covers};
ghost use Rattle.board.specs.Region.{RegionEnd};

use super::Board;

const LAST: u32 = u32::MAX;

// A board that can tell its regions without being asked for each address.
pub trait MemoryMap: Board {
    // The last address of the region that `address` lies in.
    fn region_end(&self, address: u32) -> u32
        ensures { RegionEnd (Self.Board.rights self.now) address result };
}

// Where the region of `address` ends on a board of `count` bytes from `base` on.
pub(crate) fn bytes_end(base: u32, count: usize, address: u32) -> u32
    ensures { RegionEnd (covers base count) address result }
{
    if count == 0 {
        return LAST;
    }
    if address < base {
        return base - 1;
    }
    if (address - base) as usize >= count {
        return LAST;
    }
    base + (count - 1).min((LAST - base) as usize) as u32
}
