// Image files of each form, as other tools write them.
#![tactic(auto)]

#[cfg(test)]
mod tests {
    use image::{Extent, Fault, Notation, Problem, fill, measure, notation_of};
    use std::test::Fail;

    const INTEL: &str =
        ":10010000214601360121470136007EFE09D2190140\r\n:100110002146017E17C20001FF5F16002148011928\r\n:10012000194E79234623965778239EDA3F01B2CAA7\r\n:100130003F0156702B5E712B722B732146013421C7\r\n:00000001FF\r\n";

    const MOTOROLA: &str =
        "S00F000068656C6C6F202020202000003C\nS11F00007C0802A6900100049421FFF07C6C1B787C8C23783C6000003863000026\nS11F001C4BFFFFE5398000007D83637880010014382100107C0803A64E800020E9\nS111003848656C6C6F20776F726C642E0A0042\nS5030003F9\nS9030000FC";

    // What is wrong with a text, if anything is.
    fn problem(text: &str) -> Option<Problem> {
        measure(text.as_bytes(), 0).err()
    }

    fn at(line: usize, fault: Fault) -> Option<Problem> {
        Some(Problem { line, fault })
    }

    #[test]
    fn intel(rt: HostRuntime) {
        let text = INTEL.as_bytes();
        assert_eq!(rt; notation_of(text), Some(Notation::Intel));
        let extent = Extent {
            first: 0x100,
            last: 0x13f,
        };
        assert_eq!(rt; measure(text, 0), Ok(Some(extent)));
        let mut memory = [0xaa; 4];
        assert_eq!(rt; fill(text, 0, 0xff, &mut memory), Ok(()));
        assert_eq!(rt; memory, [0xaa, 0x21, 0x46, 0x01]);
    }

    #[test]
    fn intel_above_64k_and_twice(rt: HostRuntime) {
        let text = b":020000040800F2\n\n:0400100001020304E2\n:0100110055 99\n";
        assert_eq!(rt;
            measure(text, 0),
            Err(Problem {
                line: 4,
                fault: Fault::BadDigit
            })
        );
        let text = b":020000040800F2\n\n:0400100001020304E2\n:010011005599\n:00000001FF";
        let mut memory = [0; 6];
        assert_eq!(rt; fill(text, 0, 0x0800_000f, &mut memory), Ok(()));
        assert_eq!(rt; memory, [0, 1, 0x55, 3, 4, 0]);
    }

    #[test]
    fn motorola(rt: HostRuntime) {
        let text = MOTOROLA.as_bytes();
        assert_eq!(rt; notation_of(text), Some(Notation::Motorola));
        let extent = Extent {
            first: 0,
            last: 0x45,
        };
        assert_eq!(rt; measure(text, 0), Ok(Some(extent)));
        let mut memory = [0; 14];
        assert_eq!(rt; fill(text, 0, 0x38, &mut memory), Ok(()));
        assert_eq!(rt; memory, *b"Hello world.\n\0");
    }

    #[test]
    fn raw(rt: HostRuntime) {
        let bytes = [0x53, 0x41, 0x30];
        assert_eq!(rt; notation_of(&bytes), None);
        let extent = Extent {
            first: 0x1000,
            last: 0x1002,
        };
        assert_eq!(rt; measure(&bytes, 0x1000), Ok(Some(extent)));
        assert_eq!(rt; measure(&[], 0x1000), Ok(None));
        let mut memory = [0; 2];
        assert_eq!(rt; fill(&bytes, 0x1000, 0x1001, &mut memory), Ok(()));
        assert_eq!(rt; memory, [0x41, 0x30]);
        assert_eq!(rt;
            measure(&bytes, 0xffff_fffe),
            Err(Problem {
                line: 1,
                fault: Fault::PastLastAddress
            })
        );
    }

    #[test]
    fn refused(rt: HostRuntime) {
        assert_eq!(rt; problem(":00000001FE\n"), at(1, Fault::WrongChecksum));
        assert_eq!(rt; problem(":0000000\n"), at(1, Fault::OddDigits));
        assert_eq!(rt; problem(":000000FF\n"), at(1, Fault::WrongLength));
        assert_eq!(rt; problem(":00000006FA\n"), at(1, Fault::UnknownType));
        assert_eq!(rt; problem(":020000040800F2\n"), at(2, Fault::NoEnd));
        assert_eq!(rt; problem(":00000001FF\n\nx"), at(3, Fault::AfterEnd));
        assert_eq!(rt; problem("S9030000FC\nS"), at(2, Fault::AfterEnd));
        assert_eq!(rt; problem("S4030000FC\n"), at(1, Fault::UnknownType));
        assert_eq!(rt; problem("S0030000FC\n:"), at(2, Fault::NoMark));
        assert_eq!(rt;
            problem("S308FFFFFFFE010203F6\n"),
            at(1, Fault::PastLastAddress)
        );
        let mut memory = [1, 2];
        assert_eq!(rt;
            fill(b":0100000000FF\n", 0, 0, &mut memory),
            Err(Problem {
                line: 2,
                fault: Fault::NoEnd
            })
        );
        assert_eq!(rt; memory, [1, 2]);
    }

    #[test]
    fn shown(rt: HostRuntime) -> Result<(), Fail> {
        let problem = Problem {
            line: 12,
            fault: Fault::WrongChecksum,
        };
        let text = format!(in rt.alloc(); "{problem}")?;
        assert_eq!(rt; text.as_str(), "line 12: a wrong checksum");
        Ok(())
    }
}
