// Examples of what one step may do with the board and the two sheets.
#![tactic(auto)]

#[cfg(test)]
mod tests {
    use board::{Board, Cut, Ram, Rom};
    use bus::{
        Bus, ReadLine, Refusal, StepBus, StoreBuffer, WriteLine, ask_bytes, fetch_number, names,
        put_number,
    };
    use number::width::Size;

    // What stands on a sheet where no line is used. It names an address of the boards below.
    const FREE_READ: ReadLine = ReadLine {
        address: 0x1002,
        byte: 0xee,
    };

    const FREE_WRITE: WriteLine = WriteLine {
        step: 99,
        address: 0x1002,
        byte: 0xee,
    };

    static CODE: [u8; 3] = [0xa1, 0xa2, 0xa3];

    static WRITES: [WriteLine; 3] = [
        WriteLine {
            step: 1,
            address: 0x2000,
            byte: 7,
        },
        WriteLine {
            step: 2,
            address: 0x1001,
            byte: 8,
        },
        FREE_WRITE,
    ];

    fn read_line(address: u32, byte: u8) -> ReadLine {
        ReadLine { address, byte }
    }

    fn write_line(step: u32, address: u32, byte: u8) -> WriteLine {
        WriteLine {
            step,
            address,
            byte,
        }
    }

    // The first step on a board: no line is used.
    fn step_on<'a, 'b, B: Board>(board: &'a B, reads: &'b mut [ReadLine]) -> StepBus<'a, 'b, B> {
        StepBus {
            board,
            reads,
            used: 0,
            writes: &WRITES[0..0],
            buffer: StoreBuffer::new(),
        }
    }

    // The number and the place of a refusal, together.
    fn told(refusal: Refusal) -> (u8, u32) {
        (refusal.number(), refusal.place())
    }

    // The same of an answer that is a refusal.
    fn refused<T: Drop>(answer: Result<T, Refusal>) -> Option<(u8, u32)> {
        answer.err().map(told)
    }

    #[test]
    fn a_byte_is_listed_once(rt: HostRuntime) {
        let board = Rom::new(0x1000, &CODE);
        let mut reads = [FREE_READ; 4];
        let mut bus = step_on(&board, &mut reads);
        assert_eq!(rt; bus.fetch(0x1001), Ok(0xa2));
        assert_eq!(rt; bus.used, 1);
        assert_eq!(rt; bus.fetch(0x1001), Ok(0xa2));
        assert_eq!(rt; bus.used, 1);
        // lines past the used ones name it on both sheets, and do not count
        assert_eq!(rt; bus.fetch(0x1002), Ok(0xa3));
        assert_eq!(rt; bus.fetch(0x1001), Ok(0xa2));
        assert_eq!(rt; bus.fetch(0x1002), Ok(0xa3));
        assert_eq!(rt; bus.used, 2);
        assert_eq!(rt;
            reads,
            [
                read_line(0x1001, 0xa2),
                read_line(0x1002, 0xa3),
                FREE_READ,
                FREE_READ,
            ]
        );
    }

    #[test]
    fn used_lines_of_either_sheet_count(rt: HostRuntime) {
        let board = Rom::new(0x1000, &CODE);
        // the board's byte is answered, whatever a line has
        let mut reads = [read_line(0x1000, 0x55), FREE_READ, FREE_READ];
        let mut bus = step_on(&board, &mut reads);
        bus.used = 1;
        bus.writes = &WRITES[0..2];
        assert_eq!(rt; bus.fetch(0x1000), Ok(0xa1));
        assert_eq!(rt; bus.fetch(0x1001), Ok(0xa2));
        assert_eq!(rt; bus.used, 1);
        assert_eq!(rt; bus.fetch(0x1002), Ok(0xa3));
        assert_eq!(rt; bus.used, 2);
        assert_eq!(rt;
            reads,
            [read_line(0x1000, 0x55), read_line(0x1002, 0xa3), FREE_READ]
        );
    }

    #[test]
    fn own_bytes_are_answered_and_not_listed(rt: HostRuntime) {
        let mut memory = [1, 2, 3];
        let board = Ram::new(0x1000, &mut memory);
        let mut reads = [FREE_READ; 2];
        let mut bus = step_on(&board, &mut reads);
        bus.put(0x1001, 0x99);
        assert_eq!(rt; bus.fetch(0x1001), Ok(0x99));
        assert_eq!(rt; bus.used, 0);
        assert_eq!(rt; bus.buffer.len(), 1);
        // of two bytes one is the step's own and one the board's
        assert_eq!(rt; fetch_number(&mut bus, 0x1001, Size::Halfword), Ok(0x0399));
        assert_eq!(rt; bus.used, 1);
        // it is kept back
        assert_eq!(rt; board.fetch(0x1001), Some(2));
        assert_eq!(rt; reads, [read_line(0x1002, 3), FREE_READ]);
    }

    #[test]
    fn no_right_is_refused_and_not_listed(rt: HostRuntime) {
        let mut memory = [1, 2];
        let board = Cut::new(
            0x2000,
            Rom::new(0x1000, &CODE),
            Ram::new(0x2000, &mut memory),
        );
        let mut reads = [FREE_READ; 2];
        let mut bus = step_on(&board, &mut reads);
        assert_eq!(rt; bus.fetch(0x1003), Err(Refusal::NoRight(0x1003)));
        assert_eq!(rt; refused(bus.fetch(0xffff_ffff)), Some((10, 0xffff_ffff)));
        // read only, and no right
        assert_eq!(rt; bus.ask(0x1001), Err(Refusal::NoRight(0x1001)));
        assert_eq!(rt; refused(bus.ask(0x2002)), Some((10, 0x2002)));
        assert_eq!(rt; bus.ask(0x2001), Ok(()));
        assert_eq!(rt; bus.used, 0);
        assert_eq!(rt; bus.buffer.len(), 0);
        assert_eq!(rt; board.fetch(0x2001), Some(2));
        assert_eq!(rt; reads, [FREE_READ; 2]);
    }

    #[test]
    fn a_word_goes_past_the_last_address_low_byte_first(rt: HostRuntime) {
        let mut low = [0x33, 0x44];
        let mut high = [0x11, 0x22];
        let board = Cut::new(
            0x1000,
            Ram::new(0, &mut low),
            Ram::new(0xffff_fffe, &mut high),
        );
        let mut reads = [FREE_READ; 5];
        let mut bus = step_on(&board, &mut reads);
        assert_eq!(rt;
            fetch_number(&mut bus, 0xffff_fffe, Size::Word),
            Ok(0x4433_2211)
        );
        assert_eq!(rt; fetch_number(&mut bus, 0, Size::Byte), Ok(0x33));
        assert_eq!(rt; bus.used, 4);
        assert_eq!(rt; board.fetch(0), Some(0x33));
        assert_eq!(rt;
            reads,
            [
                read_line(0xffff_fffe, 0x11),
                read_line(0xffff_ffff, 0x22),
                read_line(0, 0x33),
                read_line(1, 0x44),
                FREE_READ,
            ]
        );
    }

    #[test]
    fn a_word_refused_in_the_middle_leaves_its_lines(rt: HostRuntime) {
        let board = Rom::new(0x1000, &CODE);
        let mut reads = [FREE_READ; 4];
        let mut bus = step_on(&board, &mut reads);
        assert_eq!(rt;
            fetch_number(&mut bus, 0x1000, Size::Word),
            Err(Refusal::NoRight(0x1003))
        );
        assert_eq!(rt; bus.used, 3);
        assert_eq!(rt;
            fetch_number(&mut bus, 0x0fff, Size::Doubleword),
            Err(Refusal::NoRight(0x0fff))
        );
        assert_eq!(rt; bus.used, 3);
        assert_eq!(rt;
            reads,
            [
                read_line(0x1000, 0xa1),
                read_line(0x1001, 0xa2),
                read_line(0x1002, 0xa3),
                FREE_READ,
            ]
        );
    }

    #[test]
    fn asking_refuses_at_the_first_byte(rt: HostRuntime) {
        let mut memory = [1, 2];
        let board = Cut::new(
            0x1002,
            Ram::new(0x1000, &mut memory),
            Rom::new(0x1002, &CODE),
        );
        let mut reads = [FREE_READ; 2];
        let mut bus = step_on(&board, &mut reads);
        assert_eq!(rt; ask_bytes(&mut bus, 0x1000, Size::Halfword), Ok(()));
        assert_eq!(rt;
            ask_bytes(&mut bus, 0x1000, Size::Word),
            Err(Refusal::NoRight(0x1002))
        );
        assert_eq!(rt;
            ask_bytes(&mut bus, 0x0fff, Size::Doubleword),
            Err(Refusal::NoRight(0x0fff))
        );
        assert_eq!(rt;
            ask_bytes(&mut bus, 0x1003, Size::Byte),
            Err(Refusal::NoRight(0x1003))
        );
        assert_eq!(rt; bus.used, 0);
        assert_eq!(rt; bus.buffer.len(), 0);
        assert_eq!(rt; board.fetch(0x1000), Some(1));
        assert_eq!(rt; reads, [FREE_READ; 2]);
    }

    #[test]
    fn a_number_that_was_put_is_fetched_back(rt: HostRuntime) {
        let mut low = [0x33, 0x44];
        let mut high = [0x11, 0x22];
        let board = Cut::new(
            0x1000,
            Ram::new(0, &mut low),
            Ram::new(0xffff_fffe, &mut high),
        );
        let mut reads = [FREE_READ; 2];
        let mut bus = step_on(&board, &mut reads);
        put_number(&mut bus, 0xffff_fffe, Size::Word, 0x9999_9999_c4c3_c2c1);
        assert_eq!(rt; bus.buffer.len(), 4);
        assert_eq!(rt;
            fetch_number(&mut bus, 0xffff_fffe, Size::Word),
            Ok(0xc4c3_c2c1)
        );
        assert_eq!(rt;
            fetch_number(&mut bus, 0xffff_ffff, Size::Halfword),
            Ok(0xc3c2)
        );
        assert_eq!(rt; bus.used, 0);
        assert_eq!(rt; board.fetch(0), Some(0x33));
        assert_eq!(rt; reads, [FREE_READ; 2]);
    }

    #[test]
    fn a_buffer_takes_one_run(rt: HostRuntime) {
        let mut buffer = StoreBuffer::new();
        assert_eq!(rt; buffer.get(0), None);
        buffer.put(0xffff_ffff, 0xc1);
        buffer.put(0, 0xc2);
        assert_eq!(rt; buffer.get(0xffff_ffff), Some(0xc1));
        assert_eq!(rt; buffer.get(0), Some(0xc2));
        assert_eq!(rt; buffer.get(1), None);
        assert_eq!(rt; buffer.get(0xffff_fffe), None);
        // these do not join the run
        buffer.put(2, 0xc3);
        buffer.put(0xffff_fffe, 0xc4);
        buffer.put(0, 0xc5);
        assert_eq!(rt; buffer.len(), 2);
        assert_eq!(rt; buffer.get(2), None);
        assert_eq!(rt; buffer.get(0), Some(0xc2));
        // of 300 more bytes it takes as many as make 256
        for i in 0..300 {
            buffer.put(1 + i, 0xc6);
        }
        assert_eq!(rt; buffer.len(), 256);
        assert_eq!(rt; buffer.get(254), Some(0xc6));
        assert_eq!(rt; buffer.get(255), None);
    }

    #[test]
    fn an_accepted_step_stores_and_lists_in_order(rt: HostRuntime) {
        let mut low = [0x33, 0x44];
        let mut high = [0x11, 0x22];
        let mut board = Cut::new(
            0x1000,
            Ram::new(0, &mut low),
            Ram::new(0xffff_fffe, &mut high),
        );
        let mut writes = [FREE_WRITE; 5];
        let mut buffer = StoreBuffer::new();
        buffer.put(0xffff_ffff, 0xc1);
        // the same byte as on the board
        buffer.put(0, 0x33);
        buffer.put(1, 0xc3);
        assert!(rt; buffer.commit(&mut board, &mut writes, 1, 7));
        assert_eq!(rt; board.fetch(0xffff_fffe), Some(0x11));
        assert_eq!(rt; board.fetch(0xffff_ffff), Some(0xc1));
        assert_eq!(rt; board.fetch(0), Some(0x33));
        assert_eq!(rt; board.fetch(1), Some(0xc3));
        assert_eq!(rt;
            writes,
            [
                FREE_WRITE,
                write_line(7, 0xffff_ffff, 0xc1),
                write_line(7, 0, 0x33),
                write_line(7, 1, 0xc3),
                FREE_WRITE,
            ]
        );
    }

    #[test]
    fn a_sheet_without_the_lines_stays(rt: HostRuntime) {
        let mut memory = [1, 2];
        let mut board = Ram::new(0x1000, &mut memory);
        let mut writes = [FREE_WRITE; 3];
        let mut buffer = StoreBuffer::new();
        // no byte needs no line
        assert!(rt; buffer.commit(&mut board, &mut writes, 3, 7));
        assert!(rt; !buffer.commit(&mut board, &mut writes, 4, 7));
        buffer.put(0x1000, 0xc1);
        buffer.put(0x1001, 0xc2);
        assert!(rt; !buffer.commit(&mut board, &mut writes, 2, 7));
        assert!(rt; !buffer.commit(&mut board, &mut writes, usize::MAX, 7));
        assert_eq!(rt; board.fetch(0x1000), Some(1));
        assert_eq!(rt; board.fetch(0x1001), Some(2));
        assert_eq!(rt; writes, [FREE_WRITE; 3]);
        // two free lines suffice
        assert!(rt; buffer.commit(&mut board, &mut writes, 1, 8));
        assert_eq!(rt; board.fetch(0x1001), Some(0xc2));
        assert_eq!(rt;
            writes,
            [
                FREE_WRITE,
                write_line(8, 0x1000, 0xc1),
                write_line(8, 0x1001, 0xc2),
            ]
        );
    }

    #[test]
    fn every_line_is_looked_at(rt: HostRuntime) {
        let reads = [read_line(5, 1), read_line(6, 2), read_line(7, 3)];
        assert!(rt; !names(&reads[0..0], 5));
        assert!(rt; names(&reads, 5));
        assert!(rt; names(&reads, 6));
        assert!(rt; names(&reads, 7));
        assert!(rt; !names(&reads, 8));
        assert!(rt; !names(&reads[0..2], 7));
        // neither a step nor a byte is an address
        let writes = [write_line(1, 5, 2), write_line(3, 6, 4)];
        assert!(rt; names(&writes, 5));
        assert!(rt; names(&writes, 6));
        assert!(rt; !names(&writes, 3));
        assert!(rt; !names(&writes, 4));
    }

    #[test]
    fn each_refusal_has_a_number_and_a_place(rt: HostRuntime) {
        assert_eq!(rt; told(Refusal::NoRight(0x1234)), (10, 0x1234));
        assert_eq!(rt; told(Refusal::NotServed(0xffff_ffff)), (16, 0xffff_ffff));
        assert_eq!(rt; told(Refusal::ReservedEncoding(3)), (18, 3));
        assert_eq!(rt; told(Refusal::ForbiddenMode(4)), (19, 4));
        assert_eq!(rt; told(Refusal::BadLengthByte(5)), (20, 5));
        assert_eq!(rt; told(Refusal::TooLong(6)), (70, 6));
        assert_eq!(rt; told(Refusal::ReadsFull), (71, 0));
        assert_eq!(rt; told(Refusal::WritesFull), (72, 0));
        assert_eq!(rt; told(Refusal::SheetTooShort), (73, 0));
        assert_eq!(rt; told(Refusal::NoSuchRegister), (74, 0));
        assert_eq!(rt; told(Refusal::StepLimit), (75, 0));
    }
}
