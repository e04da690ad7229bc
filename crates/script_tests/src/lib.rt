// Lines of job scripts, and what they are read as.
#![tactic(auto)]

#[cfg(test)]
mod tests {
    use script::{Command, CommandName, Contents, Digits, Problem, parse};

    #[test]
    fn lines_that_say_nothing(rt: HostRuntime) {
        assert_eq!(rt; parse(b""), Ok(None));
        assert_eq!(rt; parse(b" \t "), Ok(None));
        assert_eq!(rt; parse(b"\r"), Ok(None));
        assert_eq!(rt; parse(b"# open"), Ok(None));
        assert_eq!(rt; parse(b" #open"), Ok(None));
    }

    #[test]
    fn a_case_keeps_its_text(rt: HostRuntime) {
        assert_eq!(rt;
            parse(b"case a  b\t c \r"),
            Ok(Some(Command::Case(b"a  b\t c ")))
        );
        assert_eq!(rt;
            parse(b"case"),
            Err(Problem::WordMissing(CommandName::Case))
        );
    }

    #[test]
    fn boards(rt: HostRuntime) {
        let digits = Contents::Digits(b"0fA0");
        let ram = Command::Ram {
            base: 0x1000,
            contents: digits,
        };
        assert_eq!(rt; parse(b"board ram 1000 0fA0"), Ok(Some(ram)));
        let none = Command::Rom {
            base: 0,
            contents: Contents::Digits(b""),
        };
        assert_eq!(rt; parse(b"board rom 0 -"), Ok(Some(none)));
        let file = Command::Rom {
            base: 0xffff_ffff,
            contents: Contents::File(b"rom.bin"),
        };
        assert_eq!(rt; parse(b"board rom FFFFffff @rom.bin"), Ok(Some(file)));
        assert_eq!(rt;
            parse(b"board cut 8000"),
            Ok(Some(Command::Cut { at: 0x8000 }))
        );
        let readings = [0, 1, 2, 3, 4, 5, 6, 7, 8, 9, 10, 11, 12, 13, 14, 0xffff];
        let sensor = Command::Sensor {
            base: 0x20,
            readings,
        };
        assert_eq!(rt;
            parse(b"board sensor 20 0 1 2 3 4 5 6 7 8 9 a b c d e ffff"),
            Ok(Some(sensor))
        );
    }

    #[test]
    fn malformed_boards(rt: HostRuntime) {
        let name = CommandName::Board;
        assert_eq!(rt; parse(b"board"), Err(Problem::WordMissing(name)));
        assert_eq!(rt; parse(b"board sram 0 -"), Err(Problem::UnknownBoard));
        assert_eq!(rt; parse(b"board ram 0"), Err(Problem::WordMissing(name)));
        assert_eq!(rt; parse(b"board ram 0 123"), Err(Problem::OddDigits));
        assert_eq!(rt; parse(b"board ram 0 12g"), Err(Problem::NotBytes));
        assert_eq!(rt; parse(b"board ram 0 @"), Err(Problem::NoFileName));
        assert_eq!(rt; parse(b"board ram 0 - -"), Err(Problem::WordTooMany(name)));
        assert_eq!(rt;
            parse(b"board sensor 20 0 1 2"),
            Err(Problem::WordMissing(name))
        );
        assert_eq!(rt;
            parse(b"board sensor 20 10000"),
            Err(Problem::ReadingTooLarge)
        );
    }

    #[test]
    fn numbers(rt: HostRuntime) {
        assert_eq!(rt;
            parse(b"peek 00000000000fFfFfFfF"),
            Ok(Some(Command::Peek {
                address: 0xffff_ffff
            }))
        );
        assert_eq!(rt; parse(b"peek 100000000"), Err(Problem::NumberTooLarge));
        assert_eq!(rt;
            parse(b"peek 10000000000000000000000000000000"),
            Err(Problem::NumberTooLarge)
        );
        assert_eq!(rt;
            parse(b"peek 10000000000000000000000000000000x"),
            Err(Problem::NotANumber)
        );
        assert_eq!(rt; parse(b"peek 0x10"), Err(Problem::NotANumber));
        assert_eq!(rt;
            parse(b"store 10 ff"),
            Ok(Some(Command::Store {
                address: 0x10,
                byte: 0xff
            }))
        );
        assert_eq!(rt; parse(b"store 10 100"), Err(Problem::ByteTooLarge));
    }

    #[test]
    fn calls_and_questions(rt: HostRuntime) {
        assert_eq!(rt;
            parse(b"dump 10 20"),
            Ok(Some(Command::Dump {
                address: 0x10,
                count: 0x20
            }))
        );
        assert_eq!(rt;
            parse(b"sheets 12c 100"),
            Ok(Some(Command::Sheets {
                reads: 0x12c,
                writes: 0x100
            }))
        );
        assert_eq!(rt; parse(b"open"), Ok(Some(Command::Open)));
        assert_eq!(rt;
            parse(b"preset 1f 8"),
            Ok(Some(Command::Preset {
                register: 0x1f,
                value: 8
            }))
        );
        assert_eq!(rt;
            parse(b"start 8000"),
            Ok(Some(Command::Start { pc: 0x8000 }))
        );
        assert_eq!(rt; parse(b"step"), Ok(Some(Command::Step)));
        assert_eq!(rt;
            parse(b"run 3b9aca00"),
            Ok(Some(Command::Run {
                steps: 1_000_000_000
            }))
        );
        assert_eq!(rt; parse(b"close"), Ok(Some(Command::Close)));
        assert_eq!(rt; parse(b"reg 1"), Ok(Some(Command::Reg { register: 1 })));
    }

    #[test]
    fn questions(rt: HostRuntime) {
        assert_eq!(rt; parse(b"show"), Ok(Some(Command::Show)));
        assert_eq!(rt; parse(b"reads"), Ok(Some(Command::Reads)));
        assert_eq!(rt; parse(b"writes"), Ok(Some(Command::Writes)));
        assert_eq!(rt;
            parse(b"list 8000 5"),
            Ok(Some(Command::List {
                address: 0x8000,
                count: 5
            }))
        );
        assert_eq!(rt; parse(b"report"), Ok(Some(Command::Report)));
        assert_eq!(rt; parse(b"Open"), Err(Problem::UnknownCommand));
        assert_eq!(rt;
            parse(b"open 1"),
            Err(Problem::WordTooMany(CommandName::Open))
        );
    }

    #[test]
    fn digits_tell_bytes(rt: HostRuntime) {
        let mut digits = Digits(b"00fFA01");
        assert_eq!(rt; digits.next(), Some(0x00));
        assert_eq!(rt; digits.next(), Some(0xff));
        assert_eq!(rt; digits.next(), Some(0xa0));
        assert_eq!(rt; digits.next(), None);
    }

    #[test]
    fn problems_say_what_would_be_right(rt: HostRuntime) {
        let missing = Problem::WordMissing(CommandName::Store);
        let told = format!(in rt.alloc(); "{missing}").expect(&rt, "memory");
        assert_eq!(rt; told.as_str(), "a word is missing: it is store ADDR BYTE");
    }
}
