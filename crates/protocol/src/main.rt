// The calls of a session in their order: set up, preset, started, stepped, run, closed, and asked at every stage. The
// edits in must-not-build/ break the order, and each must be refused by the compiler.
#![tactic(auto)]

use board::Ram;
use bus::{ReadLine, WriteLine};
use machine::Questions;
use session::Setup;
use std::io;

fn tell<S: Questions>(rt: &HostRuntime, stage: &str, session: &S) -> io::Result<()> {
    let pc = session.pc();
    let completed = session.completed();
    println!(rt; "{stage}: PC {pc:08X}, {completed} steps completed")
}

fn main(rt: HostRuntime) -> io::Result<()> {
    // mov.w #0x5, r1; nop
    let mut memory = [0x2d, 0x21, 0xe5, 0xcd];
    let mut board = Ram::new(0x1000, &mut memory);
    let mut reads = [ReadLine::default(); 304];
    let mut writes = [WriteLine::default(); 256];
    let mut setup = Setup::new();
    let _ = setup.preset(1, 4);
    tell(&rt, "set up", &setup)?;
    let mut running = setup.start(0x1000);
    let _ = running.step(&mut board, &mut reads, &mut writes);
    tell(&rt, "stepped", &running)?;
    let _ = running.run(5, &mut board, &mut reads, &mut writes);
    tell(&rt, "run", &running)?;
    let closed = running.close();
    tell(&rt, "closed", &closed)
}
