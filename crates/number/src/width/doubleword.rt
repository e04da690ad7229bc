// Numbers of eight bytes: for moves only.
ghost use Rattle.std.proofs.Common.{rules};

use crate::width::Width;

impl Width for u64 {
    const BYTES: u32 = 8;

    ghost BYTES = { 8 };

    const SIGN: u64 = 0x8000_0000_0000_0000;

    ghost SIGN = { 0x8000_0000_0000_0000 };

    ghost size = { 8 };

    ghost value = { λ x. x };

    ghost counted = { Prim.search rules };

    ghost topped = { Prim.search rules };

    ghost some = { Prim.search rules };

    ghost narrow = { Prim.search rules };

    fn to_u64(self) -> u64 {
        self
    }

    fn to_i64(self) -> i64 {
        self.cast_signed()
    }

    fn low(n: u64) -> u64 {
        n
    }
}
