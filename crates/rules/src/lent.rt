// A reference to a source is a source, so that several levels can stand over one.
// Kept: nothing shorter hands on the questions of a trait, in Rust neither.
use crate::source::RuleSource;

impl<'a, S: RuleSource> RuleSource for &'a S {
    ghost meaning = { λ x. S.RuleSource.meaning x.now };

    ghost lawful = { λ x. S.RuleSource.lawful x.now };

    const LINES_AT_HAND: bool = S::LINES_AT_HAND;

    fn lines(&self) -> usize {
        (*self).lines()
    }

    fn count(&self, line: usize) -> usize {
        (*self).count(line)
    }

    fn joined(&self, i: usize, j: usize) -> bool {
        (*self).joined(i, j)
    }

    fn together(&self, i: usize, a: usize, j: usize, b: usize) -> bool {
        (*self).together(i, a, j, b)
    }

    fn next_support(&self, i: usize, a: usize, j: usize, from: usize) -> Option<usize> {
        (*self).next_support(i, a, j, from)
    }

    fn next_joined(&self, i: usize, from: usize) -> Option<usize> {
        (*self).next_joined(i, from)
    }

    fn next_standing(
        &self,
        i: usize,
        a: usize,
        j: usize,
        from: usize,
        standing: u64,
    ) -> Option<usize> {
        (*self).next_standing(i, a, j, from, standing)
    }

    fn joined_lines(&self, i: usize) -> u128 {
        (*self).joined_lines(i)
    }
}
