// A text of records, read line by line.
ghost use Rattle.std.specs.Prelude.{◌≡◌, ◌+◌, ◌^◌, ◌<◌, ◌≤◌, length};
ghost use Rattle.image.specs.Gives.{Gives};
ghost use Rattle.image.specs.Records.{said};
ghost use Rattle.image.specs.Digits.{spelled};

use super::digits::count_of;
use super::fault::{Fault, Problem};
use super::intel::intel_record;
use super::lines::{content, first_line};
use super::motorola::motorola_record;
use super::notation::Notation;
use super::record::Record;

// Bytes one after another, as pairs of digits.
#[derive(Clone, Copy)]
pub struct Piece<'a> {
    pub start: u64,
    pub digits: &'a [u8],
    ghost fits: { start + length (spelled digits.now) ≤ 2 ^ 32 },
}

// What is left of a text.
#[derive(Clone, Copy)]
pub struct Reader<'a> {
    pub notation: Notation,
    pub rest: &'a [u8],
    // the number of its first line
    pub line: usize,
    // what addresses are counted from
    pub base: u32,
    // whether the end was told
    pub ended: bool,
    ghost counted: { line + length rest.now < 2 ^ 64 },
}

ghost use Rattle.image.specs.Texts.{line_of, told};
ghost use Rattle.image.specs.Lines.{lines};

// What a line says. An empty one says nothing.
fn line_of(notation: Notation, line: &[u8]) -> Result<Record<'_>, Fault>
    ensures { Gives said result (line_of notation line.now) }
{
    match (line, notation) {
        ([], _) => Ok(Record::Remark),
        (_, Notation::Intel) => intel_record(line),
        (_, Notation::Motorola) => motorola_record(line),
    }
}

impl<'a> Reader<'a> {
    ghost use Rattle.image.specs.Reading.{to_come, Steps};

    // The whole of a text.
    pub fn of(notation: Notation, text: &'a [u8]) -> Reader<'a>
        ensures all { to_come result ≡ told notation 1 0 (lines text.now) }
        ensures rest { result.rest.now ≡ text.now }
        ensures line { result.line ≡ 1 }
    {
        Reader {
            notation,
            rest: text,
            line: 1,
            base: 0,
            ended: false,
        }
    }

    fn problem(&self, fault: Fault) -> Problem
        ensures { result ≡ record { line = self.now.line; fault = fault } }
    {
        Problem {
            line: self.line,
            fault,
        }
    }

    // What is to come where no line is left.
    fn at_end(self) -> Result<Option<(Piece<'a>, Reader<'a>)>, Problem>
        requires { length self.rest.now ≡ 0 }
        ensures { Steps self.entry result }
    {
        if self.ended {
            Ok(None)
        } else {
            Err(self.problem(Fault::NoEnd))
        }
    }

    // What the next line says, and what is left then; nothing where the text ends.
    pub fn next(self) -> Result<Option<(Piece<'a>, Reader<'a>)>, Problem>
        ensures { Steps self.entry result }
    {
        if self.rest.is_empty() {
            return self.at_end();
        }
        let (line, rest) = first_line(self.rest);
        let line = content(line);
        let nothing = Piece {
            start: 0,
            digits: &[],
        };
        let mut after = self;
        after.rest = rest;
        after.line += 1;
        if self.ended {
            return if line.is_empty() {
                Ok(Some((nothing, after)))
            } else {
                Err(self.problem(Fault::AfterEnd))
            };
        }
        match line_of(self.notation, line) {
            Err(fault) => Err(self.problem(fault)),
            Ok(Record::Data(address, digits)) => {
                let start = u64::from(self.base) + u64::from(address);
                if start + count_of(digits) as u64 > 1 << 32 {
                    return Err(self.problem(Fault::PastLastAddress));
                }
                Ok(Some((Piece { start, digits }, after)))
            }
            Ok(Record::Base(base)) => {
                after.base = base;
                Ok(Some((nothing, after)))
            }
            Ok(Record::Remark) => Ok(Some((nothing, after))),
            Ok(Record::End) => {
                after.ended = true;
                Ok(Some((nothing, after)))
            }
        }
    }
}
