// One try of a step.
ghost use Rattle.std.specs.Prelude.{◌≡◌, true, Ok, length, take};
ghost use Rattle.board.specs.Meaning.{writable};
ghost use Rattle.bus.specs.Sheets.{All};
ghost use Rattle.bus.specs.Program.{runs};
ghost use Rattle.bus.specs.Seen.{Runs, Later};
ghost use Rattle.execute.specs.Step.{one_step};
ghost use Rattle.session.specs.Calls.{short, step_admitted, moment, state_at, world, trail};
ghost use Rattle.session.specs.Attempt.{bus_seen};

use board::Board;
use bus::{ReadLine, Refusal, StepBus, StoreBuffer, WriteLine};
use execute::step;
use machine::Machine;
use processor::Cpu;

// free lines that a step asks for, however few it needs
const READS: usize = 300;

const WRITES: usize = 256;

// steps that a session may complete
const LIMIT: u32 = 1_000_000_000;

// Whether a sheet of so many lines is shorter than its used lines.
pub(crate) fn is_short(machine: &Machine, reads: usize, writes: usize) -> bool
    ensures { result ≡ short reads writes machine.now }
{
    reads < machine.read || writes < machine.written
}

// Whether a step may be tried beside sheets of so many lines, or why not.
pub(crate) fn admit_step(machine: &Machine, reads: usize, writes: usize) -> Result<(), Refusal>
    ensures { result ≡ step_admitted reads writes machine.now }
{
    if is_short(machine, reads, writes) {
        return Err(Refusal::SheetTooShort);
    }
    if machine.completed >= LIMIT {
        return Err(Refusal::StepLimit);
    }
    if reads - machine.read < READS {
        return Err(Refusal::ReadsFull);
    }
    if writes - machine.written < WRITES {
        return Err(Refusal::WritesFull);
    }
    Ok(())
}

// What a try came to: the registers or the refusal, how many reads lines are used then, and the bytes that wait.
#[derive(Drop)]
pub(crate) struct Tried {
    pub outcome: Result<Cpu, Refusal>,
    pub used: usize,
    pub buffer: StoreBuffer,
}

// The step on its bus. The loan of the reads sheet stays the one it was.
fn on_bus<'a, 'b, B: Board>(bus: &mut StepBus<'a, 'b, B>, cpu: Cpu) -> Result<Cpu, Refusal>
    ensures { Runs (one_step cpu) (bus_seen B.Board.rights B.Board.bytes bus.old) result (bus_seen B.Board.rights B.Board.bytes bus.new) }
{
    step(bus, cpu)
}

// Tries the step on a bus over the board and the sheets, where it is admitted. What it sets waits in the buffer.
pub(crate) fn try_step<'a, 'b, B: Board>(
    machine: &Machine,
    board: &'a B,
    reads: &'b mut [ReadLine],
    writes: &'a [WriteLine],
) -> Tried
    requires { step_admitted (length reads.old) (length writes.now) machine.now ≡ Ok tt }
    ensures comes { let found = state_at (moment B.Board.rights B.Board.bytes machine.now board.now reads.old writes.now) in
        runs (one_step machine.now.cpu) (world (B.Board.rights board.now) found) (trail found)
        ≡ (result.outcome, record { reads = take result.used reads.new; own = result.buffer }) }
    ensures stores { All (λ c. writable (B.Board.rights board.now c.0) ≡ true) result.buffer }
    ensures later { Later machine.now.read reads.old result.used reads.new }
{
    let mut bus = StepBus {
        board,
        reads,
        used: machine.read,
        writes: &writes[..machine.written],
        buffer: StoreBuffer::new(),
    };
    let outcome = on_bus(&mut bus, machine.cpu);
    let StepBus {
        reads,
        used,
        buffer,
        ..
    } = bus;
    // Why `reads` is taken out too: what the bus left in the sheet is known only of a loan that is let go by itself.
    let _reads = reads;
    Tried {
        outcome,
        used,
        buffer,
    }
}
