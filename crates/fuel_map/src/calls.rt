// Calls and what they answer, as text.
use history::{Call, Lines, Reply};
use std::fmt;

#[derive(Clone, Copy)]
pub struct CallText(pub Call);

impl fmt::Display for CallText {
    fn fmt<W: fmt::Write>(&self, f: &mut fmt::Formatter<W>) -> fmt::Result {
        match self.0 {
            Call::Preset(n, value) => write!(f, "preset R{n} {value:08X}"),
            Call::Start(pc) => write!(f, "start {pc:08X}"),
            Call::Step(Lines { reads, writes }) => {
                write!(f, "step beside {reads} and {writes} lines")
            }
            Call::Run(count, Lines { reads, writes }) => {
                write!(f, "run {count} beside {reads} and {writes} lines")
            }
            Call::Close => write!(f, "close"),
        }
    }
}

#[derive(Clone, Copy)]
pub struct ReplyText(pub Reply);

impl fmt::Display for ReplyText {
    fn fmt<W: fmt::Write>(&self, f: &mut fmt::Formatter<W>) -> fmt::Result {
        match self.0 {
            Reply::Accepted => write!(f, "accepted"),
            Reply::Refused(refusal) => write!(f, "refused: {refusal}"),
            Reply::Ran(answer) => write!(f, "{answer}"),
            Reply::OutOfPlace => write!(f, "out of place"),
        }
    }
}
