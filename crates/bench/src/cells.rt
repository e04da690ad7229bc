// Cells of a fuel map, each made in a step of its own, and the sheets that they leave.
use board::Board;
use bus::{
    Bus, ReadLine, Refusal, StepBus, StoreBuffer, WriteLine, ask_bytes, fetch_number, put_number,
};
use number::width::Size;
use printout::ByteAt;
use std::io;

// A cell to make: where its reading lies, and where it goes.
#[derive(Clone, Copy)]
struct Cell {
    reading: u32,
    place: u32,
}

const READING: u32 = unit::SENSORS + 4;

// The second may not be stored where it is to go, and the third reads what the first has left.
const CELLS: [Cell; 3] = [
    Cell {
        reading: READING,
        place: unit::RAM,
    },
    Cell {
        reading: READING,
        place: unit::TABLE,
    },
    Cell {
        reading: unit::RAM,
        place: unit::RAM + 2,
    },
];

impl Cell {
    // Makes it: the reading with the correction for its load, which are its top four bits.
    fn make<B: Bus>(self, bus: &mut B) -> Result<u64, Refusal> {
        let raw = fetch_number(bus, self.reading, Size::Halfword)?;
        let load = (raw >> 12 & 15) as u32;
        let correction = bus.fetch(unit::TABLE.wrapping_add(load))?;
        let value = raw.wrapping_add(u64::from(correction));
        ask_bytes(bus, self.place, Size::Halfword)?;
        put_number(bus, self.place, Size::Halfword, value);
        Ok(value)
    }
}

// The two sheets, how many lines of each are used, and how many steps are complete.
// Why arrays with counts: as with a session, a step gets the sheets whole, and lines past the used ones are left as they are.
#[derive(Drop)]
struct Sheets {
    reads: [ReadLine; 16],
    read: usize,
    writes: [WriteLine; 16],
    written: usize,
    completed: u32,
}

impl Sheets {
    fn new() -> Sheets {
        Sheets {
            reads: [ReadLine::default(); 16],
            read: 0,
            writes: [WriteLine::default(); 16],
            written: 0,
            completed: 0,
        }
    }

    // One step: it is accepted whole, or it leaves nothing but its reads lines.
    fn try_step<B: Board>(&mut self, board: &mut B, cell: Cell) -> Result<u64, Refusal> {
        let written = self.written.min(self.writes.len());
        let mut bus = StepBus {
            board: &*board,
            reads: &mut self.reads,
            used: self.read,
            writes: &self.writes[..written],
            buffer: StoreBuffer::new(),
        };
        let outcome = cell.make(&mut bus);
        let StepBus { used, buffer, .. } = bus;
        self.read = used;
        let step = self.completed.saturating_add(1);
        if outcome.is_ok() && buffer.commit(board, &mut self.writes, written, step) {
            self.written = written + buffer.len();
            self.completed = step;
        }
        outcome
    }
}

pub fn make<B: Board>(rt: &HostRuntime, board: &mut B) -> io::Result<()> {
    let mut sheets = Sheets::new();
    println!(rt; "Cells of the map, each a reading with its correction")?;
    for cell in CELLS {
        let Cell { reading, place } = cell;
        print!(rt; "  reading {reading:08X}, cell {place:08X}: ")?;
        match sheets.try_step(board, cell) {
            Ok(value) => println!(rt; "{value:04X}")?,
            Err(refusal) => println!(rt; "refused, {refusal}")?,
        }
    }
    println!(rt; "Reads sheet: the bytes fetched from the board")?;
    for line in sheets.reads.iter().take(sheets.read) {
        println!(rt; "  {}", ByteAt::from(*line))?;
    }
    println!(rt; "Writes sheet: the bytes stored on the board")?;
    for line in sheets.writes.iter().take(sheets.written) {
        println!(rt; "  {} {}", line.step, ByteAt::from(*line))?;
    }
    Ok(())
}
