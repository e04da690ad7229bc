// Numbers of one byte.
ghost use Rattle.std.proofs.Common.{rules};

use crate::width::{Arithmetic, Width};

impl Width for u8 {
    const BYTES: u32 = 1;

    ghost BYTES = { 1 };

    const SIGN: u64 = 0x80;

    ghost SIGN = { 0x80 };

    ghost size = { 1 };

    ghost value = { λ x. x };

    ghost counted = { Prim.search rules };

    ghost topped = { Prim.search rules };

    ghost some = { Prim.search rules };

    ghost narrow = { Prim.search rules };

    fn to_u64(self) -> u64 {
        u64::from(self)
    }

    fn to_i64(self) -> i64 {
        i64::from(self.cast_signed())
    }

    fn low(n: u64) -> u8 {
        (n % 0x100) as u8
    }
}

impl Arithmetic for u8 {
    ghost short = { Prim.search rules };

    #[tactic(auto, using(crate::proofs::Powers::turns))]
    fn turn(self, by: u32) -> u8 {
        self.rotate_left(by)
    }
}
