// Some lines of a source, in the order of a list and numbered by their places in it. A listed line that
// the source lacks has one option and is joined with none.
ghost use Rattle.std.specs.Prelude.{◌≡◌, ℕ, ◌<◌, ◌≤◌, ◌&&◌, ◌⊎◌, length, MatchOption, nat_lt, slice_index};
ghost use Rattle.bits.specs.Bits.{on};
ghost use Rattle.bits.specs.Least.{Least};
ghost use Rattle.model.proofs.Views.{view_lawful};
ghost use Rattle.model.specs.Views.{view_joined, view_meaning};

use arrayvec::ArrayVec;
use bits::{has, next_one, with};
use rules::parts::item_or;
use rules::source::RuleSource;

// The lines that a view shows, in its order.
#[derive(Clone, Copy)]
struct Shown<'a> {
    lines: &'a [usize],
    ghost some: { 0 < length lines.now },
    ghost few: { length lines.now ≤ 128 },
}

impl<'a> Shown<'a> {
    // The listed lines, or none where the list is empty or over 128 long.
    fn new(lines: &'a [usize]) -> Option<Shown<'a>>
        ensures { MatchOption result ((length lines.now ≡ 0) ⊎ (128 < length lines.now)) (λ s. (s.lines.now ≡ lines.now) × (0 < length lines.now) × (length lines.now ≤ 128)) }
    {
        if lines.is_empty() || lines.len() > 128 {
            return None;
        }
        Some(Shown { lines })
    }

    // The line at a place, and line 0 where there is none.
    fn line(&self, place: usize) -> usize
        ensures { result ≡ slice_index self.now.lines.now place }
    {
        item_or(self.lines, place, 0)
    }

    // The places whose lines are in the word.
    // Kept: a source finds its joined lines so too; one function over a closure would need a `requires`.
    fn places(&self, word: u128) -> u128
        ensures { (p : ℕ) → on result p ≡ (nat_lt p (length self.now.lines.now) && on word (slice_index self.now.lines.now p)) }
    {
        let mut found = 0;
        for (p, line) in self.lines.iter().enumerate() {
            if has(word, *line) {
                found = with(found, p);
            }
        }
        found
    }

    // For each place the places whose lines are joined with its line.
    fn joins<S: RuleSource>(&self, source: &S) -> ArrayVec<u128, 128>
        ensures { (k j : ℕ) → on (slice_index result.items k) j ≡ view_joined (S.meaning source.now) self.now.lines.now k j }
    {
        let mut joins = ArrayVec::new();
        for line in self.lines {
            joins.push(self.places(source.joined_lines(*line)));
        }
        joins
    }
}

// A view of the lines that a list names.
#[derive(Drop)]
pub struct View<'a, S: RuleSource> {
    source: S,
    shown: Shown<'a>,
    // for each place of the list the word of the places that it is joined with, so that the source is
    // asked once for each line and not in every question
    // Kept: beside the list, which is lent, so no vector can hold both.
    joins: ArrayVec<u128, 128>,
    ghost told: { (k j : ℕ) → on (slice_index joins.items k) j ≡ view_joined (S.RuleSource.meaning source) shown.lines.now k j },
}

// The least set bit of the word, at or above from and below the limit.
fn next_below(word: u64, from: usize, limit: usize) -> Option<usize>
    ensures { Least (λ b. nat_lt b limit && on word b) from result }
{
    next_one(word, from).filter(|b| *b < limit)
}

impl<'a, S: RuleSource> View<'a, S> {
    // The places that are joined with a place, as a word.
    fn joins_at(&self, place: usize) -> u128
        ensures { (j : ℕ) → on result j ≡ view_joined (S.meaning self.now.source) self.now.shown.lines.now place j }
    {
        item_or(self.joins.as_slice(), place, 0)
    }
}

impl<'a, S: RuleSource + Drop> View<'a, S> {
    // The view of the listed lines of the source, or none where the list is empty or over 128 long.
    pub fn new(source: S, shown: &'a [usize]) -> Option<View<'a, S>>
        ensures { MatchOption result ((length shown.now ≡ 0) ⊎ (128 < length shown.now)) (λ v. (v.source ≡ source) × (v.shown.lines.now ≡ shown.now) × (0 < length shown.now) × (length shown.now ≤ 128)) }
    {
        let shown = Shown::new(shown)?;
        let joins = shown.joins(&source);
        Some(View {
            source,
            shown,
            joins,
        })
    }
}

impl<'a, S: RuleSource> RuleSource for View<'a, S> {
    ghost meaning = { λ x. view_meaning (S.RuleSource.meaning x.source) x.shown.lines.now };

    ghost lawful = { λ x. view_lawful (S.RuleSource.meaning x.source) (S.RuleSource.lawful x.source) x.shown.lines.now x.shown.some x.shown.few };

    const LINES_AT_HAND: bool = true;

    fn lines(&self) -> usize {
        self.shown.lines.len()
    }

    fn count(&self, line: usize) -> usize {
        // Kept: a match, since the answer of a source inside a closure of `map_or` is not found by the proof.
        match self.shown.lines.get(line) {
            Some(shown) => self.source.count(*shown).max(1),
            None => 0,
        }
    }

    fn joined(&self, i: usize, j: usize) -> bool {
        has(self.joins_at(i), j)
    }

    fn together(&self, i: usize, a: usize, j: usize, b: usize) -> bool {
        i != j
            && a < self.count(i)
            && b < self.count(j)
            && (!self.joined(i, j)
                || self
                    .source
                    .together(self.shown.line(i), a, self.shown.line(j), b))
    }

    // Of lines that are not joined, every option that exists goes with every other.
    fn next_support(&self, i: usize, a: usize, j: usize, from: usize) -> Option<usize> {
        if self.joined(i, j) {
            return self
                .source
                .next_support(self.shown.line(i), a, self.shown.line(j), from);
        }
        (i != j && a < self.count(i) && from < self.count(j)).then_some(from)
    }

    fn next_joined(&self, i: usize, from: usize) -> Option<usize> {
        next_one(self.joins_at(i), from)
    }

    fn next_standing(
        &self,
        i: usize,
        a: usize,
        j: usize,
        from: usize,
        standing: u64,
    ) -> Option<usize> {
        if self.joined(i, j) {
            return self
                .source
                .next_standing(self.shown.line(i), a, self.shown.line(j), from, standing);
        }
        if i == j || a >= self.count(i) {
            return None;
        }
        next_below(standing, from, self.count(j))
    }

    fn joined_lines(&self, i: usize) -> u128 {
        self.joins_at(i)
    }
}
