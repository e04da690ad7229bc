// Numbers of four bytes.
ghost use Rattle.std.proofs.Common.{rules};

use crate::width::{Arithmetic, Width};

impl Width for u32 {
    const BYTES: u32 = 4;

    ghost BYTES = { 4 };

    const SIGN: u64 = 0x8000_0000;

    ghost SIGN = { 0x8000_0000 };

    ghost size = { 4 };

    ghost value = { λ x. x };

    ghost counted = { Prim.search rules };

    ghost topped = { Prim.search rules };

    ghost some = { Prim.search rules };

    ghost narrow = { Prim.search rules };

    fn to_u64(self) -> u64 {
        u64::from(self)
    }

    fn to_i64(self) -> i64 {
        i64::from(self.cast_signed())
    }

    fn low(n: u64) -> u32 {
        (n % 0x1_0000_0000) as u32
    }
}

impl Arithmetic for u32 {
    ghost short = { Prim.search rules };

    #[tactic(auto, using(crate::proofs::Powers::turns))]
    fn turn(self, by: u32) -> u32 {
        self.rotate_left(by)
    }
}
