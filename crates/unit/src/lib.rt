// The control unit of the demonstration: where its parts lie, what they hold, and the board that they make.
#![tactic(auto)]

ghost use Rattle.std.specs.Prelude.{◌≡◌, length};
ghost use Rattle.unit.specs.Unit.{unit_rights, unit_bytes};

use board::{Board, Cut, Ram, Rom, SensorPage};

pub const ROM: u32 = 0;

// the sixteen corrections, one for each load
pub const TABLE: u32 = 0x0000_0040;

pub const SENSORS: u32 = 0x0000_8000;

pub const RAM: u32 = 0x0001_0000;

// how many bytes of RAM there are
pub const RAM_BYTES: usize = 256;

// where the stack begins: behind the RAM
pub const STACK: u32 = 0x0001_0100;

// A firmware that makes eight cells of a fuel map, each a reading with the correction for its load, and
// then stays where it is; the sixteen corrections lie from 40h on.
pub const IMAGE: [u8; 80] = [
    0x2d, 0x21, 0xf4, 0x00, 0x80, 0x00, 0x00, // 00 mov.w #0x8000, r1      the readings
    0x2d, 0x22, 0xf4, 0x40, 0x00, 0x00, 0x00, // 07 mov.w #0x40, r2        the corrections
    0x2d, 0x23, 0xf4, 0x00, 0x00, 0x01, 0x00, // 0E mov.w #0x10000, r3     the map
    0x2d, 0x24, 0xe8, // 15 mov.w #0x8, r4         cells to make
    0x1d, 0x65, 0x81, // 18 movz.hw [r1+], r5      a reading
    0x2d, 0x66, 0x65, // 1B mov.w r5, r6
    0xad, 0x26, 0xf4, 0xf4, // 1E shl.w #-0xC, r6        its load, 0 to 15
    0x0d, 0x67, 0xc6, 0x62, // 22 movz.bw [r2](r6), r7   the correction
    0x84, 0x47, 0x65, // 26 add.w r7, r5
    0x1b, 0x45, 0x83, // 29 mov.h r5, [r3+]        a cell
    0xd5, 0x64, // 2C dec.w r4
    0x65, 0xea, // 2E bne 0x18
    0xcd, // 30 nop
    0x6a, 0x00, // 31 br 0x31
    0xff, 0xff, 0xff, 0xff, 0xff, 0xff, 0xff, 0xff, 0xff, 0xff, 0xff, 0xff, 0xff, // 33
    0x00, 0x02, 0x04, 0x06, 0x08, 0x0a, 0x0c, 0x0e, // 40
    0x10, 0x12, 0x14, 0x15, 0x16, 0x17, 0x18, 0x18, // 48
];

pub const READINGS: [u16; 16] = [
    0x0120, 0x1240, 0x2360, 0x3480, 0x45a0, 0x56c0, 0x67e0, 0x7900, 0x8a20, 0x9b40, 0xac60, 0xbd80,
    0xcea0, 0xdfc0, 0xf0e0, 0xfff0,
];

// ROM, sensor page and RAM, from the lowest address on.
pub type Unit<'a> = Cut<Rom<'a>, Cut<SensorPage, Ram<'a>>>;

// The unit's board, with the caller's bytes as its RAM.
pub fn assemble<'a>(image: &'a [u8], memory: &'a mut [u8]) -> Unit<'a>
    ensures rights { ⟦<Unit<'a> as Board>⟧.rights result ≡ unit_rights (length image.now) (length memory.old) }
    ensures bytes { ⟦<Unit<'a> as Board>⟧.bytes result ≡ unit_bytes image.now memory.old }
{
    let sensors = SensorPage::new(SENSORS, READINGS);
    let upper = Cut::new(RAM, sensors, Ram::new(RAM, memory));
    Cut::new(SENSORS, Rom::new(ROM, image), upper)
}
