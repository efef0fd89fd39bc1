// What the functions on bits need of a type of words.
ghost use Rattle.std.specs.Prelude.{◌≡◌, ℕ, ◌-◌, ◌/◌, ◌^◌, ◌<◌, ◌≤◌, if◌then◌else◌, min, bit_and, bit_or, bit_xor, nat_lt};
ghost use Rattle.std.specs.Int.Count.{count_trailing_zeros};

use std::ops::{BitAnd, BitOr, BitXor};

// A word: an unsigned number, whose set bits are the members of a set of small numbers.
pub trait Word: Copy
    + BitAnd<Self, Output = Self>
    + BitOr<Self, Output = Self>
    + BitXor<Self, Output = Self> {
    // How many bits each word of the type has.
    ghost bits: { ℕ };

    // Its number.
    ghost number: { Self → ℕ };

    // How many bits it has; its number fits in them.
    fn width(self) -> usize
        ensures count { result ≡ bits }
        ensures fits { number self < 2 ^ bits };

    // The word of bit b alone, or of none where there is no bit b.
    fn bit(b: usize) -> Self
        ensures { number result ≡ (if nat_lt b bits then 2 ^ b else 0) };

    // The word of the bits below n, or of all where it has fewer.
    fn mask(n: usize) -> Self
        ensures { number result ≡ 2 ^ min n bits - 1 };

    // The word less its lowest set bit, if it has one.
    fn less_lowest(self) -> Self
        ensures { number result ≡ bit_and (number self) (number self - 1) };

    // How many bits from `from` on are not set until one is, and the width where none is.
    fn zeros_from(self, from: usize) -> usize
        ensures { result ≡ count_trailing_zeros bits (number self / 2 ^ from) };

    // There are no longer words.
    ghost few: { bits ≤ 128 };

    // The operators may always be used, and work on the numbers.
    ghost can_and: { (x y : Self) → Self.can_bitand x y };

    ghost and: { (x y z : Self) → Self.bitand_gives x y z → number z ≡ bit_and (number x) (number y) };

    ghost can_or: { (x y : Self) → Self.can_bitor x y };

    ghost or: { (x y z : Self) → Self.bitor_gives x y z → number z ≡ bit_or (number x) (number y) };

    ghost can_xor: { (x y : Self) → Self.can_bitxor x y };

    ghost xor: { (x y z : Self) → Self.bitxor_gives x y z → number z ≡ bit_xor (number x) (number y) };
}
