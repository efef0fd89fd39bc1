// Bits of words: a word is a set of small numbers, one for each of its bits that is set.
#![tactic(auto)]

ghost use Rattle.std.specs.Prelude.{◌≡◌, ℕ, ◌+◌, ◌-◌, ◌/◌, ◌^◌, ◌<◌, ◌&&◌, ◌||◌, if◌then◌else◌, MatchOption, ◌==◌, bit_and, bit_or, bit_xor, nat_le, nat_lt};
ghost use Rattle.std.specs.Int.Count.{count_trailing_zeros};
ghost use Rattle.bits.specs.Bits.{cleared, marked, on};
ghost use Rattle.bits.specs.Least.{Least};

pub mod narrow;
pub mod wide;
pub mod word;

use crate::word::Word;

// The bits that two words share.
fn met<W: Word>(word: W, other: W) -> W
    ensures { W.number result ≡ bit_and (W.number word) (W.number other) }
{
    word & other
}

// All bits of two words.
fn joined<W: Word>(word: W, other: W) -> W
    ensures { W.number result ≡ bit_or (W.number word) (W.number other) }
{
    word | other
}

// The word's bits below n.
fn kept_below<W: Word>(word: W, n: usize) -> W
    requires { n < W.bits }
    ensures { W.number result ≡ bit_and (W.number word) (2 ^ n - 1) }
{
    word & W::mask(n)
}

// The word less its bits below n.
fn less_below<W: Word>(word: W, n: usize) -> W
    requires { n < W.bits }
    ensures { W.number result ≡ bit_xor (W.number word) (bit_and (W.number word) (2 ^ n - 1)) }
{
    word ^ (word & W::mask(n))
}

// The word's bit b.
fn kept_at<W: Word>(word: W, b: usize) -> W
    requires { b < W.bits }
    ensures { W.number result ≡ bit_and (W.number word) (2 ^ b) }
{
    word & W::bit(b)
}

// Past the bits from `from` on that are not set.
fn past_zeros<W: Word>(word: W, from: usize) -> usize
    requires { from < W.bits }
    ensures { result ≡ from + count_trailing_zeros W.bits (W.number word / 2 ^ from) }
{
    from + word.zeros_from(from)
}

// Whether the word has no bit between bit b and the next one that is set, which then is bit b.
fn starts_at<W: Word>(word: W, b: usize) -> bool
    requires { b < W.bits }
    ensures { result ≡ (count_trailing_zeros W.bits (W.number word / 2 ^ b) == 0) }
{
    word.zeros_from(b) == 0
}

// Whether bit b of the word is set; there is none past its end.
pub fn has<W: Word>(word: W, b: usize) -> bool
    ensures { result ≡ on (W.number word) b }
{
    b < word.width() && starts_at(word, b)
}

// The least set bit at or above from.
pub fn next_one<W: Word>(word: W, from: usize) -> Option<usize>
    ensures { Least (on (W.number word)) from result }
{
    let width = word.width();
    if from >= width {
        return None;
    }
    let b = past_zeros(word, from);
    (b < width).then_some(b)
}

// The word without bit b.
pub fn without<W: Word>(word: W, b: usize) -> W
    ensures { W.number result ≡ cleared (W.number word) b }
{
    if b >= word.width() {
        return word;
    }
    word ^ (word & W::bit(b))
}

// Bit b of the word alone, if it is set.
pub fn only<W: Word>(word: W, b: usize) -> W
    ensures { (q : ℕ) → on (W.number result) q ≡ (on (W.number word) q && q == b) }
{
    if b >= word.width() {
        return W::mask(0);
    }
    kept_at(word, b)
}

// The word with bit b; past its end there is no place for one.
pub fn with<W: Word>(word: W, b: usize) -> W
    ensures { W.number result ≡ (if nat_lt b W.bits then marked (W.number word) b else W.number word) }
{
    if b >= word.width() {
        return word;
    }
    word | W::bit(b)
}

// The bits that are set in both words.
pub fn shared<W: Word>(word: W, other: W) -> W
    ensures { (b : ℕ) → on (W.number result) b ≡ (on (W.number word) b && on (W.number other) b) }
{
    met(word, other)
}

// The bits that are set in one word or the other.
pub fn either<W: Word>(word: W, other: W) -> W
    ensures { (b : ℕ) → on (W.number result) b ≡ (on (W.number word) b || on (W.number other) b) }
{
    joined(word, other)
}

// The word without its bits at or above n.
pub fn below<W: Word>(word: W, n: usize) -> W
    ensures { (b : ℕ) → on (W.number result) b ≡ (on (W.number word) b && nat_lt b n) }
{
    if n >= word.width() {
        return word;
    }
    kept_below(word, n)
}

// The word without its lowest n bits.
pub fn above<W: Word>(word: W, n: usize) -> W
    ensures { (b : ℕ) → on (W.number result) b ≡ (on (W.number word) b && nat_le n b) }
{
    if n >= word.width() {
        return W::mask(0);
    }
    less_below(word, n)
}

// A word whose lowest n bits alone are set, or all of them where it has fewer.
pub fn ones<W: Word>(n: usize) -> W
    ensures { (b : ℕ) → on (W.number result) b ≡ (nat_lt b n && nat_lt b W.bits) }
{
    W::mask(n)
}

// Takes the lowest set bit out of the word, if there is one.
pub fn pop<W: Word>(word: &mut W) -> Option<usize>
    ensures least { Least (on (W.number word.old)) 0 result }
    ensures left { MatchOption result (word.new ≡ word.old) (λ b. W.number word.new ≡ cleared (W.number word.old) b) }
{
    let b = next_one(*word, 0)?;
    *word = word.less_lowest();
    Some(b)
}
