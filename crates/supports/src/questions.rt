// The questions of a source, answered from the words.
ghost use Rattle.std.specs.Prelude.{◌≡◌, ℕ, ◌<◌, length, slice_index_or, vec_len};
ghost use Rattle.bits.specs.Bits.{on};
ghost use Rattle.model.specs.Words.{place};
ghost use Rattle.rules.specs.Standing.{standing_with};
ghost use Rattle.supports.specs.Held.{counts, held, supports_meaning};
ghost use Rattle.supports.specs.Lines.{no_line};

use crate::supports::{Line, Supports};
use bits::{has, next_one, shared};
use rules::parts::item_or;
use rules::source::RuleSource;

impl Supports {
    // Where the word of option a of line i and the line j stands.
    pub(crate) fn place_of(&self, i: usize, a: usize, j: usize) -> usize
        requires first { i < length (counts self.now) }
        requires second { j < length (counts self.now) }
        requires option { a < self.now.width }
        ensures value { result ≡ place (length (counts self.now)) self.now.width i a j }
        ensures inside { result < vec_len self.now.words }
    {
        (i * self.width + a) * self.lines.len() + j
    }

    // The options of line j that go with option a of line i, as a word.
    fn support(&self, i: usize, a: usize, j: usize) -> u64
        ensures { (b : ℕ) → on result b ≡ (supports_meaning self.now).together i a j b }
    {
        let lines = self.lines.len();
        if i >= lines || j >= lines || a >= self.width {
            return 0;
        }
        self.words[self.place_of(i, a, j)]
    }

    // Those of them that stand in the word of line j.
    fn standing_support(&self, i: usize, a: usize, j: usize, standing: u64) -> u64
        ensures { (b : ℕ) → on result b ≡ standing_with (supports_meaning self.now) i a j standing b }
    {
        shared(self.support(i, a, j), standing)
    }

    // The line i, or one with no options and no joined lines where it is missing.
    fn line(&self, i: usize) -> Line
        ensures { result ≡ slice_index_or self.now.lines.items i no_line }
    {
        item_or(&self.lines, i, Line { count: 0, joins: 0 })
    }

    // The lines that are joined with line i, as a word.
    fn joins(&self, i: usize) -> u128
        ensures { (j : ℕ) → on result j ≡ (supports_meaning self.now).joined i j }
    {
        self.line(i).joins
    }
}

impl RuleSource for Supports {
    ghost meaning = { supports_meaning };

    ghost lawful = { λ s. (held s).lawful };

    const LINES_AT_HAND: bool = true;

    fn lines(&self) -> usize {
        self.lines.len()
    }

    fn count(&self, line: usize) -> usize {
        self.line(line).count
    }

    fn joined(&self, i: usize, j: usize) -> bool {
        has(self.joins(i), j)
    }

    fn together(&self, i: usize, a: usize, j: usize, b: usize) -> bool {
        has(self.support(i, a, j), b)
    }

    fn next_support(&self, i: usize, a: usize, j: usize, from: usize) -> Option<usize> {
        next_one(self.support(i, a, j), from)
    }

    fn next_joined(&self, i: usize, from: usize) -> Option<usize> {
        next_one(self.joins(i), from)
    }

    fn next_standing(
        &self,
        i: usize,
        a: usize,
        j: usize,
        from: usize,
        standing: u64,
    ) -> Option<usize> {
        next_one(self.standing_support(i, a, j, standing), from)
    }

    fn joined_lines(&self, i: usize) -> u128 {
        self.joins(i)
    }
}
