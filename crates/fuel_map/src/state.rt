// What a session holds, as text.
use machine::Machine;
use number::flags::Flags;
use std::fmt;

#[derive(Clone, Copy)]
struct FlagsText(Flags);

impl fmt::Display for FlagsText {
    fn fmt<W: fmt::Write>(&self, f: &mut fmt::Formatter<W>) -> fmt::Result {
        let Flags { cy, ov, s, z } = self.0;
        let (cy, ov) = (u8::from(cy), u8::from(ov));
        let (s, z) = (u8::from(s), u8::from(z));
        write!(f, "CY {cy} OV {ov} S {s} Z {z}")
    }
}

// PC, flags and the count of steps, and the registers in four rows.
#[derive(Clone, Copy)]
pub struct MachineText(pub Machine);

impl fmt::Display for MachineText {
    fn fmt<W: fmt::Write>(&self, f: &mut fmt::Formatter<W>) -> fmt::Result {
        let Machine { cpu, completed, .. } = self.0;
        let pc = cpu.pc;
        let flags = FlagsText(cpu.flags);
        writeln!(f, "  PC {pc:08X} {flags}  steps completed {completed}")?;
        for (row, values) in cpu.registers.chunks(8).enumerate() {
            write!(f, "  R{:<2}", row * 8)?;
            for value in values {
                write!(f, " {value:08X}")?;
            }
            writeln!(f, "")?;
        }
        Ok(())
    }
}

// The PC and the flags after a step, and the registers that it changed.
#[derive(Clone, Copy)]
pub struct ChangeText {
    pub before: Machine,
    pub after: Machine,
}

impl fmt::Display for ChangeText {
    fn fmt<W: fmt::Write>(&self, f: &mut fmt::Formatter<W>) -> fmt::Result {
        let pc = self.after.cpu.pc;
        let flags = FlagsText(self.after.cpu.flags);
        write!(f, "PC {pc:08X} {flags}")?;
        let registers = self
            .before
            .cpu
            .registers
            .iter()
            .zip(&self.after.cpu.registers);
        for (n, (old, new)) in registers.enumerate() {
            if old != new {
                write!(f, " R{n} {new:08X}")?;
            }
        }
        Ok(())
    }
}
