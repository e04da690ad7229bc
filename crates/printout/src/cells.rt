// Bytes of a board in hexadecimal.
ghost use Rattle.std.specs.Prelude.{◌≡◌, Some};
ghost use Rattle.printout.specs.Text.{cell_text, cells_text, row_text, rows_text};

use board::{Board, read_block};
use std::fmt;

// What a fetch answers: the byte, or `..` where there is no right.
#[derive(Clone, Copy)]
struct Cell(Option<u8>);

impl fmt::Display for Cell {
    ghost output = { λ c. Some (cell_text c.0) };

    #[tactic(auto, using(crate::proofs::Columns::printed))]
    fn fmt<W: fmt::Write>(&self, f: &mut fmt::Formatter<W>) -> fmt::Result {
        match self.0 {
            Some(byte) => write!(f, " {byte:02X}"),
            None => write!(f, " .."),
        }
    }
}

// Several of them side by side.
#[derive(Drop)]
pub(crate) struct Cells<'a>(pub &'a [Option<u8>]);

impl fmt::Display for Cells<'_> {
    ghost output = { λ c. Some (cells_text c.0.now) };

    fn fmt<W: fmt::Write>(&self, f: &mut fmt::Formatter<W>) -> fmt::Result {
        for cell in self.0 {
            write!(f, "{}", Cell(*cell))?;
        }
        Ok(())
    }
}

// The sixteen bytes from an address on, past FFFFFFFFh to 0.
#[derive(Drop)]
struct Row<'a, B> {
    board: &'a B,
    address: u32,
}

impl<B: Board> fmt::Display for Row<'_, B> {
    ghost output = { λ r. Some (row_text (B.Board.rights r.board.now) (B.Board.bytes r.board.now) r.address) };

    fn fmt<W: fmt::Write>(&self, f: &mut fmt::Formatter<W>) -> fmt::Result {
        let address = self.address;
        let mut cells = [None; 16];
        read_block(self.board, address, &mut cells);
        writeln!(f, "  {address:08X} {}", Cells(&cells))
    }
}

// Rows of sixteen bytes, a line each.
#[derive(Drop)]
pub struct Rows<'a, B> {
    pub board: &'a B,
    pub from: u32,
    pub count: u32,
}

impl<B: Board> fmt::Display for Rows<'_, B> {
    ghost output = { λ r. Some (rows_text (B.Board.rights r.board.now) (B.Board.bytes r.board.now) r.from r.count) };

    fn fmt<W: fmt::Write>(&self, f: &mut fmt::Formatter<W>) -> fmt::Result {
        for row in 0..self.count {
            let address = self.from.wrapping_add(row.wrapping_mul(16));
            let row = Row {
                board: self.board,
                address,
            };
            write!(f, "{row}")?;
        }
        Ok(())
    }
}
