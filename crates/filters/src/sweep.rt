// Testing the options of a line in the set as it stands, and striking each failure. To strike an
// option is to remove it from the set.
// Kept: level and set as two parameters; of a struct that holds the lent set a contract says less plainly
// what is left.
ghost use Rattle.std.specs.Prelude.{◌≡◌, ℕ, ◌<◌, ◌&&◌, length, MatchBool, MatchResult, nat_le, slice_index};
ghost use Rattle.bits.specs.Bits.{on};
ghost use Rattle.filters.specs.Sweeps.{LineSwept, Tested, strike};
ghost use Rattle.model.specs.Sets.{EachLine, NoneOn, SomeOn};

use bits::{above, has, next_one, without};
use levels::level::Level;
use levels::words::word;

// A line was left without options.
#[derive(Clone, Copy, PartialEq, Eq, Debug)]
pub(crate) struct Emptied;

// Strikes an option of a line that has a word.
fn strike(set: &mut [u64], line: usize, option: usize)
    requires { line < length set.old }
    ensures { set.new ≡ strike set.old line option }
{
    set[line] = without(set[line], option);
}

// Strikes an option if it stands and fails, and says whether it did.
fn test_option<L: Level>(level: &L, set: &mut [u64], line: usize, option: usize) -> bool
    requires { (line < (L.meaning level.now).lines) × (option < (L.meaning level.now).count line) }
    ensures { Tested (L.meaning level.now) (L.passing level.now) line option set.old set.new result }
{
    if !has(word(set, line), option) || level.passes(set, line, option) {
        return false;
    }
    strike(set, line, option);
    true
}

// Whether no option of the line stands: the least bit of its word is past them, or there is none.
fn line_empty<L: Level>(level: &L, set: &[u64], line: usize) -> bool
    ensures { MatchBool result (NoneOn (L.meaning level.now) set.now line) (SomeOn (L.meaning level.now) set.now line) }
{
    let count = level.count(line);
    next_one(word(set, line), 0).is_none_or(|b| b >= count)
}

// Whether some line has no option standing.
fn some_empty<L: Level>(level: &L, set: &[u64]) -> bool
    ensures { MatchBool result ((i : ℕ) × (i < (L.meaning level.now).lines) × NoneOn (L.meaning level.now) set.now i) (EachLine (L.meaning level.now) set.now) }
{
    (0..level.lines()).any(|i| line_empty(level, set, i))
}

// Tells if some line has no option standing.
pub(crate) fn each_line_stands<L: Level>(level: &L, set: &[u64]) -> Result<(), Emptied>
    ensures { MatchResult result (λ _. EachLine (L.meaning level.now) set.now) (λ _. (i : ℕ) × (i < (L.meaning level.now).lines) × NoneOn (L.meaning level.now) set.now i) }
{
    if some_empty(level, set) {
        Err(Emptied)
    } else {
        Ok(())
    }
}

// Strikes every option; bits that stand for none stay.
pub(crate) fn strike_all<L: Level>(level: &L, set: &mut [u64])
    ensures { (i b : ℕ) → on (slice_index set.new i) b ≡ (on (slice_index set.old i) b && nat_le ((L.meaning level.now).count i) b) }
{
    for (i, options) in set.iter_mut().enumerate() {
        *options = above(*options, level.count(i));
    }
}

// Tests the options of a line in order, until none of them stands, and says whether it struck any.
pub(crate) fn sweep_line<L: Level>(level: &L, set: &mut [u64], line: usize) -> Result<bool, Emptied>
    ensures { LineSwept (L.meaning level.now) (L.passing level.now) (L.touching level.now line line) line set.old set.new result }
{
    let mut struck = false;
    for a in 0..level.count(line) {
        if test_option(level, set, line, a) {
            struck = true;
            if line_empty(level, set, line) {
                return Err(Emptied);
            }
        }
    }
    Ok(struck)
}
