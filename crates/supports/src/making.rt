// Making compiled words: from no rules, one rule at a time.
ghost use Rattle.std.specs.Prelude.{◌≡◌, ℕ, ◌*◌, ◌<◌, ◌≤◌, Bool, true, ◌&&◌, length, replicate, IfOk, vec_len, ◌==◌, ◌≢◌, nat_lt, slice_index};
ghost use Rattle.bits.specs.Bits.{on};
ghost use Rattle.model.specs.Making.{bare, counts_ok, no_rules, two_options, with_ban, with_join, with_part, with_rule};
ghost use Rattle.model.specs.Words.{Unruled, clear_at, mark_at};
ghost use Rattle.supports.specs.Adding.{fit, ruled, unruled};
ghost use Rattle.supports.specs.Held.{supports_meaning};
ghost use Rattle.supports.specs.Lines.{counts_of, joins_of};

use crate::supports::{Line, Supports};
use bits::{ones, with, without};
use rules::parts::names_two;
use rules::source::RuleSource;
use std::alloc::{AllocError, Global};

// A rule between two lines.
// Kept: a closure in its place needs a `requires` that it may be called and answers alike each time, and no
// public function has one.
pub trait PairRule {
    // Whether it allows an option of the first line with one of the second.
    ghost permits: { Self → ℕ → ℕ → Bool };

    // The same as a question.
    fn allows(&self, a: usize, b: usize) -> bool
        ensures { result ≡ permits self.now a b };
}

// Clears a bit of one word.
fn clear(words: &mut Vec<u64>, at: usize, b: usize)
    requires { at < vec_len words.old }
    ensures { words.new.items ≡ clear_at words.old.items at b }
{
    words[at] = without(words[at], b);
}

// Marks line b as joined with the line at a place.
fn mark(lines: &mut Vec<Line>, at: usize, b: usize)
    requires inside { at < vec_len lines.old }
    requires low { b < 128 }
    ensures joins { joins_of lines.new.items ≡ mark_at (joins_of lines.old.items) at b }
    ensures counts { counts_of lines.new.items ≡ counts_of lines.old.items }
{
    let line = &mut lines[at];
    line.joins = with(line.joins, b);
}

// Whether each count is 1 to 64.
fn counts_fit(counts: &[usize]) -> bool
    ensures { result ≡ counts_ok counts.now }
{
    counts.iter().all(|c| 0 < *c && *c <= 64)
}

// The largest option count.
fn widest(counts: &[usize]) -> usize
    requires { counts_ok counts.now ≡ true }
    ensures covers { (i : ℕ) → slice_index counts.now i ≤ result }
    ensures small { result ≤ 64 }
{
    counts.iter().copied().max().unwrap_or(0)
}

// The options of line j that go with option a of line i where there are no rules, as a word.
// Kept: `counts_ok` in three private contracts; a struct of checked counts would be longer than the clauses.
fn free_word(counts: &[usize], i: usize, a: usize, j: usize) -> u64
    requires { counts_ok counts.now ≡ true }
    ensures { on result ≡ two_options counts.now i a j }
{
    if names_two(counts.len(), i, j) && a < counts[i] {
        ones(counts[j])
    } else {
        0
    }
}

// All words where there are no rules.
fn free_words(heap: Global, counts: &[usize], width: usize) -> Result<Vec<u64>, AllocError>
    requires few { length counts.now ≤ 128 }
    requires small { width ≤ 64 }
    requires right { counts_ok counts.now ≡ true }
    ensures sized { IfOk result (λ v. vec_len v ≡ length counts.now * width * length counts.now) }
    ensures words { IfOk result (λ v. Unruled counts.now width v.items) }
{
    let lines = counts.len();
    let places = lines * width * lines;
    (0..places)
        .map(|p| free_word(counts, p / lines / width, p / lines % width, p % lines))
        .collect(heap)
}

// Lines of these option counts, none joined with another.
fn free_lines(heap: Global, counts: &[usize]) -> Result<Vec<Line>, AllocError>
    ensures counts { IfOk result (λ v. counts_of v.items ≡ counts.now) }
    ensures joins { IfOk result (λ v. joins_of v.items ≡ replicate (length counts.now) 0) }
{
    counts
        .iter()
        .map(|c| Line {
            count: *c,
            joins: 0,
        })
        .collect(heap)
}

impl Supports {
    // No rules between lines whose option counts keep the limits.
    fn open(heap: Global, counts: &[usize]) -> Result<Supports, AllocError>
        requires { fit counts.now ≡ true }
        ensures { IfOk result (λ s. supports_meaning s ≡ no_rules counts.now) }
    {
        let width = widest(counts);
        let lines = free_lines(heap, counts)?;
        let words = free_words(heap, counts, width)?;
        Ok(Supports {
            lines,
            width,
            words,
        })
    }

    // One line of one option.
    fn open_bare(heap: Global) -> Result<Supports, AllocError>
        ensures { IfOk result (λ s. supports_meaning s ≡ bare) }
    {
        Supports::open(heap, &[1])
    }

    // No rules between lines of these option counts, or the bare source where they break the limits.
    pub fn free(heap: Global, counts: &[usize]) -> Result<Supports, AllocError>
        ensures { IfOk result (λ s. supports_meaning s ≡ unruled counts.now) }
    {
        if counts.is_empty() || counts.len() > 128 || !counts_fit(counts) {
            return Supports::open_bare(heap);
        }
        Supports::open(heap, counts)
    }

    // The bare source: no lines at all break the limits.
    pub fn bare(heap: Global) -> Result<Supports, AllocError>
        ensures { IfOk result (λ s. supports_meaning s ≡ bare) }
    {
        Supports::free(heap, &[])
    }

    // Joins two lines.
    fn join(&mut self, i: usize, j: usize)
        requires first { i < (supports_meaning self.old).lines }
        requires second { j < (supports_meaning self.old).lines }
        requires differ { i ≢ j }
        ensures { supports_meaning self.new ≡ with_join i j (supports_meaning self.old) }
    {
        mark(&mut self.lines, i, j);
        mark(&mut self.lines, j, i);
    }

    // Forbids option a of line i with option b of the joined line j.
    fn forbid(&mut self, i: usize, a: usize, j: usize, b: usize)
        requires joined { (supports_meaning self.old).joined i j ≡ true }
        requires first { a < (supports_meaning self.old).count i }
        requires second { b < (supports_meaning self.old).count j }
        ensures { supports_meaning self.new ≡ with_ban i a j b (supports_meaning self.old) }
    {
        let there = self.place_of(i, a, j);
        let back = self.place_of(j, b, i);
        clear(&mut self.words, there, b);
        clear(&mut self.words, back, a);
    }

    // Adds what a rule says of option a of line i and the options of line j, which are `options`.
    fn add_row<R: PairRule>(&mut self, i: usize, j: usize, a: usize, options: usize, rule: &R)
        requires joined { (supports_meaning self.old).joined i j ≡ true }
        requires option { a < (supports_meaning self.old).count i }
        requires options { options ≡ (supports_meaning self.old).count j }
        ensures { supports_meaning self.new ≡ with_part i j (R.permits rule.now) (λ x y. (x == a) && nat_lt y options) (supports_meaning self.old) }
    {
        for b in 0..options {
            if !rule.allows(a, b) {
                self.forbid(i, a, j, b);
            }
        }
    }

    // Adds a rule between two lines that exist and differ.
    fn add_between<R: PairRule>(&mut self, i: usize, j: usize, rule: &R)
        requires first { i < (supports_meaning self.old).lines }
        requires second { j < (supports_meaning self.old).lines }
        requires differ { i ≢ j }
        ensures { supports_meaning self.new ≡ with_rule i j (R.permits rule.now) (supports_meaning self.old) }
    {
        let rows = self.lines[i].count;
        let options = self.lines[j].count;
        self.join(i, j);
        for a in 0..rows {
            self.add_row(i, j, a, options, rule);
        }
    }

    // Adds a rule between the lines i and j, if they exist and differ.
    pub fn add<R: PairRule>(&mut self, i: usize, j: usize, rule: &R)
        ensures { supports_meaning self.new ≡ ruled i j (R.permits rule.now) (supports_meaning self.old) }
    {
        if names_two(self.lines(), i, j) {
            self.add_between(i, j, rule);
        }
    }
}
