// The commands by name.
ghost use Rattle.std.specs.Prelude.{◌≡◌, Some, IfSome};
ghost use Rattle.script.specs.Names.{name_text, words_text, usage_text, name_of};

use std::fmt;

// The first word of a line.
#[derive(Clone, Copy, PartialEq, Eq, Debug)]
pub enum CommandName {
    Case,
    Board,
    Store,
    Peek,
    Dump,
    Sheets,
    Open,
    Preset,
    Start,
    Step,
    Run,
    Close,
    Reg,
    Show,
    Reads,
    Writes,
    List,
    Report,
}

impl CommandName {
    // Each command once.
    pub const ALL: [CommandName; 18] = [
        CommandName::Case,
        CommandName::Board,
        CommandName::Store,
        CommandName::Peek,
        CommandName::Dump,
        CommandName::Sheets,
        CommandName::Open,
        CommandName::Preset,
        CommandName::Start,
        CommandName::Step,
        CommandName::Run,
        CommandName::Close,
        CommandName::Reg,
        CommandName::Show,
        CommandName::Reads,
        CommandName::Writes,
        CommandName::List,
        CommandName::Report,
    ];

    // The command as a script writes it.
    pub fn text(self) -> &'static str
        ensures { result.now ≡ name_text self }
    {
        match self {
            CommandName::Case => "case",
            CommandName::Board => "board",
            CommandName::Store => "store",
            CommandName::Peek => "peek",
            CommandName::Dump => "dump",
            CommandName::Sheets => "sheets",
            CommandName::Open => "open",
            CommandName::Preset => "preset",
            CommandName::Start => "start",
            CommandName::Step => "step",
            CommandName::Run => "run",
            CommandName::Close => "close",
            CommandName::Reg => "reg",
            CommandName::Show => "show",
            CommandName::Reads => "reads",
            CommandName::Writes => "writes",
            CommandName::List => "list",
            CommandName::Report => "report",
        }
    }

    // The words that follow it.
    pub fn words(self) -> &'static str
        ensures { result.now ≡ words_text self }
    {
        match self {
            CommandName::Case => " WORDS",
            CommandName::Board => {
                " ram BASE BYTES, board rom BASE BYTES, board sensor BASE R0 .. R15 or board cut AT"
            }
            CommandName::Store => " ADDR BYTE",
            CommandName::Peek => " ADDR",
            CommandName::Dump | CommandName::List => " ADDR COUNT",
            CommandName::Sheets => " READS WRITES",
            CommandName::Preset => " N V",
            CommandName::Start => " PC",
            CommandName::Run | CommandName::Reg => " N",
            _ => "",
        }
    }

    // The command whose name a word is.
    pub fn of(word: &[u8]) -> Option<CommandName>
        ensures found { IfSome result (λ n. name_text n ≡ word.now) }
        ensures only { (n : CommandName) → name_text n ≡ word.now → result ≡ Some n }
        ensures exact { result ≡ name_of word.now }
    {
        first_named(word)
    }
}

// The first of all commands whose name a word is.
#[tactic(auto, unfolding(crate::specs::Names::name_of))]
fn first_named(word: &[u8]) -> Option<CommandName>
    ensures { result ≡ name_of word.now }
{
    CommandName::ALL
        .iter()
        .copied()
        .find(|name| name.text().as_bytes() == word)
}

// How the command is used.
impl fmt::Display for CommandName {
    ghost output = { λ n. Some (usage_text n) };

    fn fmt<W: fmt::Write>(&self, f: &mut fmt::Formatter<W>) -> fmt::Result {
        let name = self.text();
        let words = self.words();
        write!(f, "{name}{words}")
    }
}
