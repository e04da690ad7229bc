// Examples of boards that are put together while a program runs.
#![tactic(auto)]

#[cfg(test)]
mod tests {
    use assembly::{Assembly, CutError, Stack};
    use board::{Board, MemoryMap, Right};
    use std::alloc::{AllocError, Global};
    use std::process::Abort;

    const READINGS: [u16; 16] = [
        0x0102, 0x1112, 0x2122, 0x3132, 0x4142, 0x5152, 0x6162, 0x7172, 0x8182, 0x9192, 0xa1a2,
        0xb1b2, 0xc1c2, 0xd1d2, 0xe1e2, 0xf1f2,
    ];

    fn ram(alloc: Global, base: u32, bytes: &[u8]) -> Result<Assembly, AllocError> {
        let bytes = Vec::from_slice(alloc, bytes)?;
        Ok(Assembly::ram(alloc, base, bytes))
    }

    fn rom(alloc: Global, base: u32, bytes: &[u8]) -> Result<Assembly, AllocError> {
        let bytes = Vec::from_slice(alloc, bytes)?;
        Ok(Assembly::rom(alloc, base, bytes))
    }

    // The right and the byte at an address, together.
    fn seen(board: &Assembly, address: u32) -> (Right, Option<u8>) {
        (board.right(address), board.fetch(address))
    }

    #[test]
    fn makes(rt: HostRuntime) {
        let mut board = ram(rt.alloc(), 0xffff_fffe, &[1, 2, 3]).expect(&rt, "memory");
        assert_eq!(rt; seen(&board, 0xffff_fffd), (Right::NoAccess, None));
        assert_eq!(rt; seen(&board, 0xffff_ffff), (Right::ReadWrite, Some(2)));
        assert_eq!(rt; board.store(0, 9), false);
        assert_eq!(rt; board.store(0xffff_ffff, 9), true);
        assert_eq!(rt; board.fetch(0xffff_ffff), Some(9));
        assert_eq!(rt; board.region_end(5), 0xffff_fffd);
        let mut board = rom(rt.alloc(), 0x10, &[7]).expect(&rt, "memory");
        assert_eq!(rt; seen(&board, 0x10), (Right::ReadOnly, Some(7)));
        assert_eq!(rt; board.store(0x10, 9), false);
        assert_eq!(rt; board.region_end(0x10), 0x10);
        let board = Assembly::sensor(rt.alloc(), 0x8000, READINGS);
        assert_eq!(rt; seen(&board, 0x8003), (Right::ReadOnly, Some(0x11)));
        assert_eq!(rt; board.region_end(0x8000), 0x801f);
    }

    // Three boards on a stack, and what their cuts leave.
    fn cut_three(rt: &impl Abort, alloc: Global) -> Result<(), AllocError> {
        let mut stack = Stack::new(alloc);
        assert_eq!(rt; stack.cut(0), Err(CutError::TooFewBoards));
        stack.push(rom(alloc, 0, &[1, 2, 3, 4])?)?;
        assert_eq!(rt; stack.cut(0), Err(CutError::TooFewBoards));
        stack.push(ram(alloc, 0, &[5, 6, 7, 8])?)?;
        stack.push(rom(alloc, 0, &[9, 10, 11, 12])?)?;
        assert_eq!(rt; stack.cut(2), Ok(()));
        assert_eq!(rt; stack.cut(1), Ok(()));
        let Some(board) = stack.top_mut() else {
            return Ok(());
        };
        assert_eq!(rt; seen(board, 0), (Right::ReadOnly, Some(1)));
        assert_eq!(rt; seen(board, 1), (Right::ReadWrite, Some(6)));
        assert_eq!(rt; seen(board, 2), (Right::ReadOnly, Some(11)));
        assert_eq!(rt; board.store(1, 0x66), true);
        assert_eq!(rt; board.store(2, 0x66), false);
        assert_eq!(rt; board.region_end(2), 3);
        let Some(board) = stack.top() else {
            return Ok(());
        };
        assert_eq!(rt; board.fetch(1), Some(0x66));
        assert!(rt; stack.pop().is_some());
        assert!(rt; stack.top().is_none());
        assert!(rt; stack.pop().is_none());
        Ok(())
    }

    #[test]
    fn stacks(rt: HostRuntime) {
        cut_three(&rt, rt.alloc()).expect(&rt, "memory");
    }
}
