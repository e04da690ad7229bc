// Examples at the edges of each make of board.
#![tactic(auto)]

#[cfg(test)]
mod tests {
    use board::{Board, Cut, MemoryMap, Ram, Right, Rom, SensorPage, copy_block, read_block};

    const READINGS: [u16; 16] = [
        0x0102, 0x1112, 0x2122, 0x3132, 0x4142, 0x5152, 0x6162, 0x7172, 0x8182, 0x9192, 0xa1a2,
        0xb1b2, 0xc1c2, 0xd1d2, 0xe1e2, 0xf1f2,
    ];

    // The right and the byte at an address, together.
    fn seen<B: Board>(board: &B, address: u32) -> (Right, Option<u8>) {
        (board.right(address), board.fetch(address))
    }

    #[test]
    fn ram_first_and_last_byte(rt: HostRuntime) {
        let mut bytes = [0x10, 0x20, 0x30];
        let mut ram = Ram::new(0x1000, &mut bytes);
        assert_eq!(rt; seen(&ram, 0x0fff), (Right::NoAccess, None));
        assert_eq!(rt; seen(&ram, 0x1000), (Right::ReadWrite, Some(0x10)));
        assert_eq!(rt; seen(&ram, 0x1002), (Right::ReadWrite, Some(0x30)));
        assert_eq!(rt; seen(&ram, 0x1003), (Right::NoAccess, None));
        assert_eq!(rt; ram.store(0x0fff, 1), false);
        assert_eq!(rt; ram.store(0x1003, 1), false);
        assert_eq!(rt; ram.store(0x1002, 0xff), true);
        assert_eq!(rt; ram.fetch(0x1002), Some(0xff));
        assert_eq!(rt; ram.fetch(0x1001), Some(0x20));
    }

    #[test]
    fn ram_from_base_zero(rt: HostRuntime) {
        let mut bytes = [7];
        let ram = Ram::new(0, &mut bytes);
        assert_eq!(rt; seen(&ram, 0), (Right::ReadWrite, Some(7)));
        assert_eq!(rt; seen(&ram, 1), (Right::NoAccess, None));
        assert_eq!(rt; seen(&ram, 0xffff_ffff), (Right::NoAccess, None));
    }

    #[test]
    fn ram_up_to_the_last_address(rt: HostRuntime) {
        let mut bytes = [1, 2];
        let mut ram = Ram::new(0xffff_fffe, &mut bytes);
        assert_eq!(rt; seen(&ram, 0xffff_fffd), (Right::NoAccess, None));
        assert_eq!(rt; seen(&ram, 0xffff_ffff), (Right::ReadWrite, Some(2)));
        assert_eq!(rt; seen(&ram, 0), (Right::NoAccess, None));
        assert_eq!(rt; ram.store(0xffff_ffff, 9), true);
        assert_eq!(rt; ram.fetch(0xffff_ffff), Some(9));
    }

    #[test]
    fn ram_bytes_past_the_last_address_are_not_reached(rt: HostRuntime) {
        let mut bytes = [1, 2, 3, 4];
        let mut ram = Ram::new(0xffff_fffe, &mut bytes);
        assert_eq!(rt; seen(&ram, 0xffff_ffff), (Right::ReadWrite, Some(2)));
        assert_eq!(rt; seen(&ram, 0), (Right::NoAccess, None));
        assert_eq!(rt; seen(&ram, 1), (Right::NoAccess, None));
        assert_eq!(rt; ram.store(0, 9), false);
        assert_eq!(rt; ram.region_end(0xffff_fffe), 0xffff_ffff);
    }

    #[test]
    fn empty_ram_has_no_right(rt: HostRuntime) {
        let mut bytes = [];
        let mut ram = Ram::new(0x1000, &mut bytes);
        assert_eq!(rt; seen(&ram, 0x1000), (Right::NoAccess, None));
        assert_eq!(rt; ram.store(0x1000, 1), false);
        assert_eq!(rt; ram.region_end(0), 0xffff_ffff);
    }

    #[test]
    fn rom_reads_and_refuses_stores(rt: HostRuntime) {
        let bytes = [0xaa, 0xbb];
        let mut rom = Rom::new(0x2000, &bytes);
        assert_eq!(rt; seen(&rom, 0x1fff), (Right::NoAccess, None));
        assert_eq!(rt; seen(&rom, 0x2000), (Right::ReadOnly, Some(0xaa)));
        assert_eq!(rt; seen(&rom, 0x2001), (Right::ReadOnly, Some(0xbb)));
        assert_eq!(rt; seen(&rom, 0x2002), (Right::NoAccess, None));
        assert_eq!(rt; rom.store(0x2000, 1), false);
        assert_eq!(rt; rom.store(0x2002, 1), false);
        assert_eq!(rt; rom.fetch(0x2000), Some(0xaa));
    }

    #[test]
    fn sensor_bytes_come_low_first(rt: HostRuntime) {
        let mut page = SensorPage::new(0x8000, READINGS);
        assert_eq!(rt; seen(&page, 0x7fff), (Right::NoAccess, None));
        assert_eq!(rt; seen(&page, 0x8000), (Right::ReadOnly, Some(0x02)));
        assert_eq!(rt; seen(&page, 0x8001), (Right::ReadOnly, Some(0x01)));
        assert_eq!(rt; seen(&page, 0x801e), (Right::ReadOnly, Some(0xf2)));
        assert_eq!(rt; seen(&page, 0x801f), (Right::ReadOnly, Some(0xf1)));
        assert_eq!(rt; seen(&page, 0x8020), (Right::NoAccess, None));
        assert_eq!(rt; page.store(0x8000, 1), false);
        assert_eq!(rt; page.fetch(0x8000), Some(0x02));
    }

    #[test]
    fn sensor_page_near_the_last_address(rt: HostRuntime) {
        let page = SensorPage::new(0xffff_fff0, READINGS);
        assert_eq!(rt; seen(&page, 0xffff_ffff), (Right::ReadOnly, Some(0x71)));
        assert_eq!(rt; seen(&page, 0), (Right::NoAccess, None));
        assert_eq!(rt; page.region_end(0xffff_fff8), 0xffff_ffff);
    }

    #[test]
    fn cut_sends_each_side_to_its_board(rt: HostRuntime) {
        let low = [1, 2, 3, 4];
        let mut high = [5, 6, 7, 8];
        // both cover 1000h-1003h, so that only the cut decides
        let mut board = Cut::new(0x1002, Rom::new(0x1000, &low), Ram::new(0x1000, &mut high));
        assert_eq!(rt; seen(&board, 0x1001), (Right::ReadOnly, Some(2)));
        assert_eq!(rt; seen(&board, 0x1002), (Right::ReadWrite, Some(7)));
        assert_eq!(rt; board.store(0x1001, 9), false);
        assert_eq!(rt; board.store(0x1002, 9), true);
        assert_eq!(rt; board.fetch(0x1002), Some(9));
        assert_eq!(rt; board.region_end(0x1000), 0x1001);
        assert_eq!(rt; board.region_end(0x1002), 0x1003);
    }

    #[test]
    fn cut_at_zero_and_at_the_last_address(rt: HostRuntime) {
        let low = [1, 2];
        let high = [3, 4];
        let at_zero = Cut::new(0, Rom::new(0, &low), Rom::new(0, &high));
        assert_eq!(rt; seen(&at_zero, 0), (Right::ReadOnly, Some(3)));
        let at_last = Cut::new(
            0xffff_ffff,
            Rom::new(0xffff_fffe, &low),
            Rom::new(0xffff_fffe, &high),
        );
        assert_eq!(rt; seen(&at_last, 0xffff_fffe), (Right::ReadOnly, Some(1)));
        assert_eq!(rt; seen(&at_last, 0xffff_ffff), (Right::ReadOnly, Some(4)));
        // the two sides have one right, so their region is one
        assert_eq!(rt; at_last.region_end(0xffff_fffe), 0xffff_ffff);
    }

    #[test]
    fn cuts_nest(rt: HostRuntime) {
        let code = [0x11, 0x12];
        let mut memory = [0x31, 0x32];
        let upper = Cut::new(
            0x10000,
            SensorPage::new(0x8000, READINGS),
            Ram::new(0x10000, &mut memory),
        );
        let mut board = Cut::new(0x8000, Rom::new(0, &code), upper);
        assert_eq!(rt; seen(&board, 1), (Right::ReadOnly, Some(0x12)));
        assert_eq!(rt; seen(&board, 2), (Right::NoAccess, None));
        assert_eq!(rt; seen(&board, 0x8001), (Right::ReadOnly, Some(0x01)));
        assert_eq!(rt; seen(&board, 0x10001), (Right::ReadWrite, Some(0x32)));
        assert_eq!(rt; board.store(0x10001, 0x99), true);
        assert_eq!(rt; board.fetch(0x10001), Some(0x99));
        assert_eq!(rt; board.region_end(2), 0x7fff);
        assert_eq!(rt; board.region_end(0x10002), 0xffff_ffff);
    }

    #[test]
    fn blocks_go_past_the_last_address_to_zero(rt: HostRuntime) {
        let mut bytes = [1, 2, 3];
        let mut top = [8, 9];
        let mut board = Cut::new(
            0x1000,
            Ram::new(0, &mut bytes),
            Ram::new(0xffff_fffe, &mut top),
        );
        let mut cells = [None; 6];
        read_block(&board, 0xffff_fffe, &mut cells);
        assert_eq!(rt; cells, [Some(8), Some(9), Some(1), Some(2), Some(3), None]);
        // 9 and 1 are copied to 1 and 2; the third has no place to go
        assert_eq!(rt; copy_block(&mut board, 0xffff_ffff, 1, 3), 2);
        assert_eq!(rt; board.fetch(1), Some(9));
        assert_eq!(rt; board.fetch(2), Some(1));
        // the source ends after one byte
        assert_eq!(rt; copy_block(&mut board, 2, 0xffff_fffe, 2), 1);
        assert_eq!(rt; board.fetch(0xffff_fffe), Some(1));
    }
}
