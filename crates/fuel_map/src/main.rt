// The demonstration job: puts a control unit's board together, runs its firmware and prints what came of it.
#![tactic(auto)]

use printout::{Listing, Regions};
use std::io;

mod calls;
mod job;
mod sheets;
mod state;

fn main(rt: HostRuntime) -> io::Result<()> {
    println!(rt; "Cefatsory bench: a fuel map, and how it comes about")?;
    let image = unit::IMAGE;
    let mut memory = [0u8; unit::RAM_BYTES];
    let mut board = unit::assemble(&image, &mut memory);
    println!(rt; "Memory map")?;
    for region in Regions::of(&board) {
        println!(rt; "{region}")?;
    }
    println!(rt; "Firmware")?;
    for line in Listing::from(&board, unit::ROM).take(16) {
        println!(rt; "{line}")?;
    }
    println!(rt; "The first steps, one by one")?;
    job::trace(&rt, &mut board, 12)?;
    println!(rt; "The job, on a fresh board")?;
    let mut memory = [0u8; unit::RAM_BYTES];
    let mut board = unit::assemble(&image, &mut memory);
    job::perform(&rt, &mut board)
}
