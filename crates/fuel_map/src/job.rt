// The demonstration job, first step by step and then as a list of calls.
use super::calls::{CallText, ReplyText};
use super::sheets::{Reads, Writes};
use super::state::{ChangeText, MachineText};
use board::Board;
use bus::{ReadLine, WriteLine};
use history::{Call, Lines, Reply, Session};
use machine::Questions;
use printout::{Line, Rows};
use session::Setup;
use std::io;

const READS: usize = 400;

const WRITES: usize = 300;

// both sheets whole, and a shorter reads sheet
const WHOLE: Lines = Lines {
    reads: READS,
    writes: WRITES,
};

const SHORTER: Lines = Lines {
    reads: 360,
    writes: WRITES,
};

// The used lines of a sheet, from the line `from` on, where `count` are used.
fn used<L>(sheet: &[L], from: usize, count: usize) -> &[L] {
    sheet.get(from..count).unwrap_or(&[])
}

// The first steps, each with what it changed and listed.
fn trace_steps<B: Board>(
    rt: &HostRuntime,
    board: &mut B,
    reads: &mut [ReadLine],
    writes: &mut [WriteLine],
    steps: u32,
) -> io::Result<()> {
    let mut running = Setup::new().start(unit::ROM);
    for _ in 0..steps {
        let before = running.machine();
        println!(rt; "{}", Line::at(&*board, before.cpu.pc))?;
        let answer = running.step(board, reads, writes);
        let after = running.machine();
        if answer.refusal.is_some() {
            println!(rt; "      {answer}")?;
        }
        println!(rt; "      {}", ChangeText { before, after })?;
        let read = Reads {
            lines: used(reads, before.read, after.read),
            indent: "      read  ",
        };
        let written = Writes {
            lines: used(writes, before.written, after.written),
            indent: "      write ",
        };
        print!(rt; "{read}{written}")?;
    }
    Ok(())
}

// The same, beside sheets of its own.
pub fn trace<B: Board>(rt: &HostRuntime, board: &mut B, steps: u32) -> io::Result<()> {
    let mut reads = [ReadLine::default(); READS];
    let mut writes = [WriteLine::default(); WRITES];
    trace_steps(rt, board, &mut reads, &mut writes, steps)
}

// The job: a preset for a register that there is not, a run that stops for want of free reads lines, and one that goes on
// beside a longer sheet to the end of the firmware.
const CALLS: [Call; 7] = [
    Call::Preset(31, unit::STACK),
    Call::Preset(32, 1),
    Call::Start(unit::ROM),
    Call::Run(12, WHOLE),
    Call::Run(100, SHORTER),
    Call::Run(100, WHOLE),
    Call::Close,
];

// Carries out the job. The contract of `carry_out` is the session statement, of this very run.
pub fn perform<B: Board>(rt: &HostRuntime, board: &mut B) -> io::Result<()> {
    let mut reads = [ReadLine::default(); READS];
    let mut writes = [WriteLine::default(); WRITES];
    let mut replies = [Reply::OutOfPlace; 7];
    let session = Session::new();
    let session = session.carry_out(&CALLS, board, &mut reads, &mut writes, &mut replies);
    for (call, reply) in CALLS.iter().zip(&replies) {
        println!(rt; "  {}: {}", CallText(*call), ReplyText(*reply))?;
    }
    print!(rt; "Registers\n{}", MachineText(session.machine()))?;
    let read = session.reads_used();
    let reads = Reads {
        lines: used(&reads, 0, read),
        indent: "  ",
    };
    print!(rt; "Reads sheet: {read} lines\n{reads}")?;
    let written = session.writes_used();
    let writes = Writes {
        lines: used(&writes, 0, written),
        indent: "  ",
    };
    print!(rt; "Writes sheet: {written} lines\n{writes}")?;
    let map = Rows {
        board: &*board,
        from: unit::RAM,
        count: 1,
    };
    print!(rt; "The map\n{map}")
}
