// Words of 64 bits.
// Kept: the text of the other width once more; the gate takes no `impl` that a macro writes.
ghost use Rattle.std.proofs.Common.{lit≤};

use crate::word::Word;

impl Word for u64 {
    ghost bits = { 64 };

    ghost number = { λ x. x };

    ghost few = { lit≤ tt };

    ghost can_and = { λ x y. tt };

    ghost and = { λ x y z e. e };

    ghost can_or = { λ x y. tt };

    ghost or = { λ x y z e. e };

    ghost can_xor = { λ x y. tt };

    ghost xor = { λ x y z e. e };

    fn width(self) -> usize {
        64
    }

    fn bit(b: usize) -> u64 {
        if b < 64 { 1 << b } else { 0 }
    }

    fn mask(n: usize) -> u64 {
        if n < 64 { (1 << n) - 1 } else { u64::MAX }
    }

    fn less_lowest(self) -> u64 {
        self & self.wrapping_sub(1)
    }

    fn zeros_from(self, from: usize) -> usize {
        // Kept: std has no `From<u32>` for `usize`.
        if from < 64 {
            (self >> from).trailing_zeros() as usize
        } else {
            self.width()
        }
    }
}
