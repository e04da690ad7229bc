// A line, and the command that it says.
ghost use Rattle.std.specs.Prelude.{◌≡◌, ◌↔◌, option_map, IfOk, IfSome};
ghost use Rattle.script.specs.Words.{words, from_word, without_return};
ghost use Rattle.script.specs.Fields.{seen};
ghost use Rattle.script.specs.Orders.{Order, said};
ghost use Rattle.script.specs.Grammar.{Says, SaysNothing};
ghost use Rattle.script.specs.Lines.{one_number, two_numbers, case_in, board_in, store_in, order_of, parsed};

use super::command::Command;
use super::command_name::CommandName;
use super::fields::{byte, contents, end, number, readings, word};
use super::problem::Problem;
use super::word::{next_word, skip_blanks};

// The number that is the only word of a command.
#[tactic(auto, unfolding(crate::specs::Lines::one_number))]
fn one_number(name: CommandName, line: &[u8]) -> Result<u32, Problem>
    ensures { result ≡ one_number name (words line.now) }
{
    let (number, rest) = number(name, line)?;
    end(name, rest)?;
    Ok(number)
}

// The numbers that are both words of a command.
#[tactic(auto, unfolding(crate::specs::Lines::two_numbers))]
fn two_numbers(name: CommandName, line: &[u8]) -> Result<(u32, u32), Problem>
    ensures { result ≡ two_numbers name (words line.now) }
{
    let (first, rest) = number(name, line)?;
    let (second, rest) = number(name, rest)?;
    end(name, rest)?;
    Ok((first, second))
}

#[tactic(auto, unfolding(crate::specs::Lines::case_in))]
fn case(line: &[u8]) -> Result<Command<'_>, Problem>
    ensures { seen said result ≡ case_in (from_word line.now) }
{
    let text = skip_blanks(line);
    if text.is_empty() {
        return Err(Problem::WordMissing(CommandName::Case));
    }
    Ok(Command::Case(text))
}

#[tactic(auto, unfolding(crate::specs::Lines::board_in, crate::specs::Lines::ram_in, crate::specs::Lines::rom_in, crate::specs::Lines::sensor_in, crate::specs::Lines::cut_in))]
fn board(line: &[u8]) -> Result<Command<'_>, Problem>
    ensures { seen said result ≡ board_in (words line.now) }
{
    let name = CommandName::Board;
    let (kind, rest) = word(name, line)?;
    match kind {
        b"ram" => {
            let (base, rest) = number(name, rest)?;
            let (contents, rest) = contents(name, rest)?;
            end(name, rest)?;
            Ok(Command::Ram { base, contents })
        }
        b"rom" => {
            let (base, rest) = number(name, rest)?;
            let (contents, rest) = contents(name, rest)?;
            end(name, rest)?;
            Ok(Command::Rom { base, contents })
        }
        b"sensor" => {
            let (base, rest) = number(name, rest)?;
            let (readings, rest) = readings(name, rest)?;
            end(name, rest)?;
            Ok(Command::Sensor { base, readings })
        }
        b"cut" => {
            let at = one_number(name, rest)?;
            Ok(Command::Cut { at })
        }
        _ => Err(Problem::UnknownBoard),
    }
}

#[tactic(auto, unfolding(crate::specs::Lines::store_in))]
fn store(line: &[u8]) -> Result<Command<'_>, Problem>
    ensures { seen said result ≡ store_in (words line.now) }
{
    let name = CommandName::Store;
    let (address, rest) = number(name, line)?;
    let (byte, rest) = byte(name, rest)?;
    end(name, rest)?;
    Ok(Command::Store { address, byte })
}

// The command of a name, from what stands behind it.
#[tactic(auto, unfolding(crate::specs::Lines::order_of))]
fn command(name: CommandName, line: &[u8]) -> Result<Command<'_>, Problem>
    ensures { seen said result ≡ order_of name (from_word line.now) (words line.now) }
{
    match name {
        CommandName::Case => case(line),
        CommandName::Board => board(line),
        CommandName::Store => store(line),
        CommandName::Peek => one_number(name, line).map(|address| Command::Peek { address }),
        CommandName::Dump => {
            two_numbers(name, line).map(|(address, count)| Command::Dump { address, count })
        }
        CommandName::Sheets => {
            two_numbers(name, line).map(|(reads, writes)| Command::Sheets { reads, writes })
        }
        CommandName::Open => end(name, line).map(|()| Command::Open),
        CommandName::Preset => {
            two_numbers(name, line).map(|(register, value)| Command::Preset { register, value })
        }
        CommandName::Start => one_number(name, line).map(|pc| Command::Start { pc }),
        CommandName::Step => end(name, line).map(|()| Command::Step),
        CommandName::Run => one_number(name, line).map(|steps| Command::Run { steps }),
        CommandName::Close => end(name, line).map(|()| Command::Close),
        CommandName::Reg => one_number(name, line).map(|register| Command::Reg { register }),
        CommandName::Show => end(name, line).map(|()| Command::Show),
        CommandName::Reads => end(name, line).map(|()| Command::Reads),
        CommandName::Writes => end(name, line).map(|()| Command::Writes),
        CommandName::List => {
            two_numbers(name, line).map(|(address, count)| Command::List { address, count })
        }
        CommandName::Report => end(name, line).map(|()| Command::Report),
    }
}

// A line without the carriage return that it may end in.
fn without_return(line: &[u8]) -> &[u8]
    ensures { result.now ≡ without_return line.now }
{
    match line {
        [front @ .., b'\r'] => front,
        _ => line,
    }
}

// A line word by word, with the first problem that is met.
#[tactic(auto, unfolding(crate::specs::Lines::parsed, crate::specs::Lines::command_of))]
fn read(line: &[u8]) -> Result<Option<Command<'_>>, Problem>
    ensures { seen (option_map said) result ≡ parsed line.now }
{
    let Some((first, rest)) = next_word(without_return(line)) else {
        return Ok(None);
    };
    if let [b'#', ..] = first {
        return Ok(None);
    }
    match CommandName::of(first) {
        Some(name) => command(name, rest).map(Some),
        None => Err(Problem::UnknownCommand),
    }
}

// The command that a line says; none where it has no word or is a comment.
pub fn parse(line: &[u8]) -> Result<Option<Command<'_>>, Problem>
    // What is read is what the line says, and what the line says is read.
    ensures found { IfOk result (λ c. IfSome c (λ c. Says line.now (said c))) }
    ensures only { (o : Order) → Says line.now o → seen (option_map said) result ≡ Ok (Some o) }
    ensures nothing { (result ≡ Ok None) ↔ SaysNothing line.now }

    // Which problem it is where the line says neither: the first from the left.
    ensures exact { seen (option_map said) result ≡ parsed line.now }
{
    read(line)
}
