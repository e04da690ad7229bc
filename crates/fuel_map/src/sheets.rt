// The lines of both sheets, as text. Each row stands behind the indent.
use bus::{ReadLine, WriteLine};
use printout::ByteAt;
use std::fmt;

// Lines of the reads sheet, eight to a row.
#[derive(Drop)]
pub struct Reads<'a> {
    pub lines: &'a [ReadLine],
    pub indent: &'a str,
}

impl fmt::Display for Reads<'_> {
    fn fmt<W: fmt::Write>(&self, f: &mut fmt::Formatter<W>) -> fmt::Result {
        for row in self.lines.chunks(8) {
            let mut before = self.indent;
            for line in row {
                write!(f, "{before}{}", ByteAt::from(*line))?;
                before = "  ";
            }
            writeln!(f, "")?;
        }
        Ok(())
    }
}

// Lines of the writes sheet, one to a row, each with its step.
// Why a type beside Reads: those stand eight to a row, and have no step.
#[derive(Drop)]
pub struct Writes<'a> {
    pub lines: &'a [WriteLine],
    pub indent: &'a str,
}

impl fmt::Display for Writes<'_> {
    fn fmt<W: fmt::Write>(&self, f: &mut fmt::Formatter<W>) -> fmt::Result {
        let indent = self.indent;
        for line in self.lines {
            writeln!(f, "{indent}step {}: {}", line.step, ByteAt::from(*line))?;
        }
        Ok(())
    }
}
