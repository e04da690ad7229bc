// The bench program: puts a control unit's board together, works on it and prints what it did.
#![tactic(auto)]

use board::{Board, MemoryMap, copy_block};
use printout::{Listing, Regions, Rows, right_name};
use std::io;

mod cells;

const LAST: u32 = u32::MAX;

// where the copies go, within the RAM
const TABLE_COPY: u32 = unit::RAM + 0x80;

const READINGS_COPY: u32 = unit::RAM + 0x90;

// Copies so many bytes and reads back the rows that they fill.
fn copy<B: Board>(
    rt: &HostRuntime,
    board: &mut B,
    what: &str,
    from: u32,
    to: u32,
    count: u32,
) -> io::Result<()> {
    let copied = copy_block(board, from, to, count);
    println!(rt; "Copy of the {what}, {from:08X} to {to:08X}: {copied} of {count} bytes")?;
    let rows = Rows {
        board: &*board,
        from: to,
        count: count / 16,
    };
    print!(rt; "{rows}")
}

// Tries a store and tells how it went.
fn try_store<B: Board>(rt: &HostRuntime, board: &mut B, address: u32, byte: u8) -> io::Result<()> {
    let name = right_name(board.right(address));
    let answer = if board.store(address, byte) {
        "stored"
    } else {
        "refused"
    };
    println!(rt; "  {byte:02X} at {address:08X}: {answer}, the right there is {name}")
}

fn work<B: MemoryMap>(rt: &HostRuntime, board: &mut B) -> io::Result<()> {
    println!(rt; "Memory map")?;
    for region in Regions::of(&*board) {
        println!(rt; "{region}")?;
    }
    println!(rt; "Firmware")?;
    for line in Listing::from(&*board, unit::ROM).take(16) {
        println!(rt; "{line}")?;
    }
    copy(rt, board, "correction table", unit::TABLE, TABLE_COPY, 16)?;
    copy(
        rt,
        board,
        "sensor readings",
        unit::SENSORS,
        READINGS_COPY,
        32,
    )?;
    println!(rt; "Stores")?;
    for address in [unit::RAM, unit::TABLE, LAST] {
        try_store(rt, board, address, 0x5a)?;
    }
    cells::make(rt, board)?;
    println!(rt; "RAM afterwards")?;
    let rows = Rows {
        board: &*board,
        from: unit::RAM,
        count: 12,
    };
    print!(rt; "{rows}")
}

fn main(rt: HostRuntime) -> io::Result<()> {
    println!(rt; "Cefatsory bench: the board of a fuel control unit")?;
    let image = unit::IMAGE;
    let mut memory = [0u8; unit::RAM_BYTES];
    let mut board = unit::assemble(&image, &mut memory);
    work(&rt, &mut board)
}
