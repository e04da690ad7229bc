// The memory map of a board, region by region.
ghost use Rattle.std.specs.Prelude.{◌≡◌, ◌-◌, ◌^◌, Some};
ghost use Rattle.std.specs.Iterator.{at_most};
ghost use Rattle.printout.specs.Text.{region_text};
ghost use Rattle.printout.specs.Regions.{TellsRegion, addresses_left};

use super::cells::Cells;
use super::right::right_name;
use board::{Board, MemoryMap, Right, read_block};
use std::fmt;

// A stretch of addresses with one right, and its first bytes.
#[derive(Clone, Copy)]
pub struct Region {
    pub first: u32,
    pub last: u32,
    pub right: Right,
    pub cells: [Option<u8>; 8],
}

impl fmt::Display for Region {
    ghost output = { λ r. Some (region_text r) };

    #[tactic(auto, using(crate::proofs::Columns::printed))]
    fn fmt<W: fmt::Write>(&self, f: &mut fmt::Formatter<W>) -> fmt::Result {
        let Region {
            first,
            last,
            right,
            ..
        } = *self;
        let name = right_name(right);
        match right {
            Right::NoAccess => write!(f, "  {first:08X}-{last:08X}  {name}"),
            _ => {
                let cells = Cells(&self.cells);
                write!(f, "  {first:08X}-{last:08X}  {name:<10}{cells}")
            }
        }
    }
}

// The regions of a board that are still to be told.
#[derive(Drop)]
pub struct Regions<'a, B> {
    board: &'a B,
    // the first address of the next one; none after FFFFFFFFh
    next: Option<u32>,
}

impl<'a, B: MemoryMap> Regions<'a, B> {
    // Every region of a board, from address 0 to FFFFFFFFh.
    pub fn of(board: &'a B) -> Regions<'a, B>
        ensures board { result.board.now ≡ board.now }
        ensures next { result.next ≡ Some 0 }
    {
        Regions {
            board,
            next: Some(0),
        }
    }
}

impl<B: MemoryMap> Iterator for Regions<'_, B> {
    type Item = Region;

    ghost next_gives = { λ s r t. TellsRegion (B.Board.rights s.board.now) (B.Board.bytes s.board.now) s.next r t.next };

    ghost remaining = { λ s. at_most (addresses_left s.next) };

    fn next(&mut self) -> Option<Region> {
        let first = self.next?;
        let last = self.board.region_end(first);
        let right = self.board.right(first);
        let mut cells = [None; 8];
        read_block(self.board, first, &mut cells);
        self.next = last.checked_add(1);
        Some(Region {
            first,
            last,
            right,
            cells,
        })
    }
}
