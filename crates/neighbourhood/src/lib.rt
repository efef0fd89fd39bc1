// Neighbourhood singleton arc consistency: with its line held to it, an option passes if its line and
// the lines joined with that, looked at alone, have a good subset at arc that is not empty.
#![tactic(auto)]

ghost use Rattle.std.specs.Prelude.{◌≡◌, ℕ, ◌<◌, ◌&&◌, ◌||◌, Decides, MatchBool, ◌==◌, slice_index};
ghost use Rattle.arrayvec.specs.ArrayVec.{array_vec_len};
ghost use Rattle.bits.specs.Bits.{on};
ghost use Rattle.model.specs.Passing.{NearPasses, near, stays};
ghost use Rattle.model.specs.Sets.{Empty, Full, Largest};
ghost use Rattle.model.specs.Views.{Lists};
ghost use Rattle.model.proofs.Nears.{near_monotone, near_plan, near_touch};

use arrayvec::ArrayVec;
use bits::{has, only, pop, with};
use filters::outcome::Outcome;
use filters::rounds::by_rounds;
use levels::arc::Arc;
use levels::level::Level;
use levels::words::word;
use rules::source::RuleSource;
use views::view::View;

// Neighbourhood singleton arc consistency over a source.
#[derive(Drop)]
pub struct Neighbourhood<S: RuleSource> {
    pub source: S,
}

// The lines of a word, and one more.
fn with_line(word: u128, line: usize) -> u128
    requires { line < 128 }
    ensures { (k : ℕ) → on result k ≡ (k == line || on word k) }
{
    with(word, line)
}

// The word of the line and of the lines joined with it.
fn near_word<S: RuleSource>(source: &S, centre: usize) -> u128
    requires { centre < 128 }
    ensures { (k : ℕ) → on result k ≡ near (S.meaning source.now) centre k }
{
    with_line(source.joined_lines(centre), centre)
}

// The set bits of a word in rising order.
fn listed(word: u128) -> ArrayVec<usize, 128>
    ensures { Lists (on word) result.items }
{
    let mut lines = ArrayVec::new();
    let mut rest = word;
    while let Some(k) = pop(&mut rest) {
        lines.push(k);
    }
    lines
}

// The line and the lines joined with it in rising order.
fn looked<S: RuleSource>(source: &S, centre: usize) -> ArrayVec<usize, 128>
    requires { centre < 128 }
    ensures { Lists (near (S.meaning source.now) centre) result.items }
{
    listed(near_word(source, centre))
}

// The word of a line in the set, where the centre line is held to the option.
fn held_word(set: &[u64], line: usize, centre: usize, option: usize) -> u64
    ensures { (b : ℕ) → on result b ≡ (on (slice_index set.now line) b && stays centre option line b) }
{
    if line == centre {
        only(word(set, line), option)
    } else {
        word(set, line)
    }
}

// The words of the lines that are looked at.
fn held_words(
    set: &[u64],
    looked: &ArrayVec<usize, 128>,
    centre: usize,
    option: usize,
) -> ArrayVec<u64, 128>
    ensures { (p b : ℕ) → p < array_vec_len looked.now → on (slice_index result.items p) b ≡ (on (slice_index set.now (slice_index looked.now.items p)) b && stays centre option (slice_index looked.now.items p) b) }
{
    let mut words = ArrayVec::new();
    for line in looked.as_slice() {
        words.push(held_word(set, *line, centre, option));
    }
    words
}

// Whether a run by rounds leaves an option of each line.
fn settles<L: Level>(level: &L, words: &mut [u64]) -> bool
    ensures largest { Largest (L.meaning level.now) (L.passing level.now) words.old words.new }
    ensures ended { MatchBool result (Full (L.meaning level.now) (L.passing level.now) words.new) (Empty (L.meaning level.now) words.new) }
{
    matches!(by_rounds(level, words), Outcome::Settled)
}

// The trial of an option of the set: a run at arc over a view of the looked-at lines alone.
fn near_passes<S: RuleSource>(source: &S, set: &[u64], line: usize, option: usize) -> bool
    ensures { Decides result (NearPasses (S.meaning source.now) set.now line option) }
{
    if option >= source.count(line) || !has(word(set, line), option) {
        return false;
    }
    let lines = looked(source, line);
    let mut words = held_words(set, &lines, line, option);
    let Some(view) = View::new(source, lines.as_slice()) else {
        return false;
    };
    settles(&Arc { source: view }, words.as_mut_slice())
}

impl<S: RuleSource> Level for Neighbourhood<S> {
    ghost meaning = { λ x. S.RuleSource.meaning x.source };

    ghost passing = { λ x s i a. NearPasses (S.RuleSource.meaning x.source) s i a };

    // A line touches the lines that are joined with it.
    ghost touching = { λ x i j. (S.RuleSource.meaning x.source).joined i j };

    ghost lawful = { λ x. S.RuleSource.lawful x.source };

    ghost within = { λ x s i a p. p.here };

    ghost monotone = { λ x. near_monotone (S.RuleSource.meaning x.source) };

    ghost plans = { λ x. near_plan (S.RuleSource.meaning x.source) (S.RuleSource.lawful x.source).proper };

    ghost touch = { λ x. near_touch (S.RuleSource.meaning x.source) (S.RuleSource.lawful x.source).mirrored };

    ghost real = { λ x i j e. let w = (S.RuleSource.lawful x.source).proper.joined i j e in (w.0, w.1) };

    // Kept: these three are arc's once more, one line each.
    fn lines(&self) -> usize {
        self.source.lines()
    }

    fn count(&self, line: usize) -> usize {
        self.source.count(line)
    }

    fn touches(&self, i: usize, j: usize) -> bool {
        self.source.joined(i, j)
    }

    fn passes(&self, set: &[u64], line: usize, option: usize) -> bool {
        near_passes(&self.source, set, line, option)
    }
}
