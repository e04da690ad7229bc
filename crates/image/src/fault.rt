// What may be wrong with a line of an image.
ghost use Rattle.std.specs.Prelude.{Some};
ghost use Rattle.image.specs.Shown.{fault_text, problem_text};

use std::error::Error;
use std::fmt;

#[derive(Clone, Copy, PartialEq, Eq, Debug)]
pub enum Fault {
    // it does not begin as a record does
    NoMark,
    // the type is none of the format's
    UnknownType,
    // a byte that is no hexadecimal digit
    BadDigit,
    // a digit without a second one
    OddDigits,
    // not as many bytes as the count or the type says
    WrongLength,
    // the bytes do not add up
    WrongChecksum,
    // a byte past the address FFFFFFFFh
    PastLastAddress,
    // no record says that the text ends
    NoEnd,
    // a line that is not empty after the end
    AfterEnd,
}

// A fault, with the number of its line. The first line is 1.
#[derive(Clone, Copy, PartialEq, Eq, Debug)]
pub struct Problem {
    pub line: usize,
    pub fault: Fault,
}

impl fmt::Display for Fault {
    ghost output = { λ f. Some (fault_text f) };

    fn fmt<W: fmt::Write>(&self, f: &mut fmt::Formatter<W>) -> fmt::Result {
        match self {
            Fault::NoMark => write!(f, "no record begins here"),
            Fault::UnknownType => write!(f, "a type of record that is not known"),
            Fault::BadDigit => write!(f, "a byte that is no hexadecimal digit"),
            Fault::OddDigits => write!(f, "an odd number of digits"),
            Fault::WrongLength => write!(f, "a record of a wrong length"),
            Fault::WrongChecksum => write!(f, "a wrong checksum"),
            Fault::PastLastAddress => write!(f, "a byte past the address FFFFFFFF"),
            Fault::NoEnd => write!(f, "no record that ends the text"),
            Fault::AfterEnd => write!(f, "more after the end"),
        }
    }
}

impl fmt::Display for Problem {
    ghost output = { λ p. Some (problem_text p) };

    fn fmt<W: fmt::Write>(&self, f: &mut fmt::Formatter<W>) -> fmt::Result {
        let Problem { line, fault } = *self;
        write!(f, "line {line}: {fault}")
    }
}

impl Error for Problem {}
