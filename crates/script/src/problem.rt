// What is wrong with a line, and what would be right.
ghost use Rattle.std.specs.Prelude.{Some};
ghost use Rattle.script.specs.Problems.{problem_text};

use super::command_name::CommandName;
use std::error::Error;
use std::fmt;

// The first thing that is wrong, from the left.
#[derive(Clone, Copy, PartialEq, Eq, Debug)]
pub enum Problem {
    // the first word names no command
    UnknownCommand,
    // `board` and no board that there is
    UnknownBoard,
    // a word less than the command takes
    WordMissing(CommandName),
    // a word more than it takes
    WordTooMany(CommandName),
    // something other than hexadecimal digits where a number is wanted
    NotANumber,
    // a number of more than 32 bits
    NumberTooLarge,
    // a number of more than 8 bits where a byte is wanted
    ByteTooLarge,
    // a number of more than 16 bits where a reading is wanted
    ReadingTooLarge,
    // something other than hexadecimal digits where bytes are wanted
    NotBytes,
    // digits for bytes, and one digit without another
    OddDigits,
    // `@` and no name of a file
    NoFileName,
}

impl fmt::Display for Problem {
    ghost output = { λ p. Some (problem_text p) };

    fn fmt<W: fmt::Write>(&self, f: &mut fmt::Formatter<W>) -> fmt::Result {
        match self {
            Problem::UnknownCommand => write!(
                f,
                "no such command: it is case, board, store, peek, dump, sheets, open, preset, start, step, run, close, reg, show, reads, writes, list or report"
            ),
            Problem::UnknownBoard => {
                write!(
                    f,
                    "no such board: it is board ram, board rom, board sensor or board cut"
                )
            }
            Problem::WordMissing(name) => write!(f, "a word is missing: it is {name}"),
            Problem::WordTooMany(name) => write!(f, "a word too many: it is {name}"),
            Problem::NotANumber => write!(
                f,
                "not a number: it is hexadecimal digits, without a prefix"
            ),
            Problem::NumberTooLarge => write!(f, "too large a number: it is FFFFFFFF at the most"),
            Problem::ByteTooLarge => write!(f, "too large a byte: it is FF at the most"),
            Problem::ReadingTooLarge => write!(f, "too large a reading: it is FFFF at the most"),
            Problem::NotBytes => write!(
                f,
                "not bytes: they are two hexadecimal digits each, or - for none, or @ and the name of a file"
            ),
            Problem::OddDigits => write!(
                f,
                "a digit is missing: bytes are two hexadecimal digits each"
            ),
            Problem::NoFileName => write!(f, "no file: the name of a file follows the @"),
        }
    }
}

impl Error for Problem {}
