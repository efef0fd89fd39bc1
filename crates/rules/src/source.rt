// What every rule source means, shows and answers.
ghost use Rattle.std.specs.Prelude.{◌≡◌, ℕ};
ghost use Rattle.bits.specs.Bits.{on};
ghost use Rattle.bits.specs.Least.{Least};
ghost use Rattle.model.specs.Meaning.{Lawful, Meaning};
ghost use Rattle.rules.specs.Standing.{standing_with};

use bits::{next_one, with};

pub trait RuleSource {
    // Its lines, their option counts, which lines are joined and which options go together. All that is
    // missing has count 0, is not joined and goes with nothing, so a question that names a missing line
    // or option, or one line twice, is answered by 0, no or none.
    ghost meaning: { Self → Meaning };

    // The facts that every source owes: its numbers keep the limits, joined and going together are the
    // same from either side, and options of lines that are not joined all go together.
    ghost lawful: { (x : Self) → Lawful (meaning x) };

    // Whether the joined lines of a line are at hand as a word, so that to ask for all of them costs no more
    // than to ask for the next one. A walk over them then begins with the word; else it asks for one after
    // the other, and stops at the line that decides.
    const LINES_AT_HAND: bool = false;

    // The number of lines.
    fn lines(&self) -> usize
        ensures { result ≡ (meaning self.now).lines };

    // The option count of a line.
    fn count(&self, line: usize) -> usize
        ensures { result ≡ (meaning self.now).count line };

    // Whether some rule joins the lines i and j.
    fn joined(&self, i: usize, j: usize) -> bool
        ensures { result ≡ (meaning self.now).joined i j };

    // Whether option a of line i goes with option b of line j.
    // Kept: a struct for a line with its option would make every question longer to ask.
    fn together(&self, i: usize, a: usize, j: usize, b: usize) -> bool
        ensures { result ≡ (meaning self.now).together i a j b };

    // The least option of line j, at or above from, that goes with option a of line i.
    fn next_support(&self, i: usize, a: usize, j: usize, from: usize) -> Option<usize>
        ensures { Least ((meaning self.now).together i a j) from result };

    // The least line, at or above from, that is joined with line i.
    fn next_joined(&self, i: usize, from: usize) -> Option<usize>
        ensures { Least ((meaning self.now).joined i) from result }
    {
        for j in from..self.lines() {
            if self.joined(i, j) {
                return Some(j);
            }
        }
        None
    }

    // The least option of line j, at or above from, that goes with option a of line i and stands in the
    // word of line j.
    fn next_standing(
        &self,
        i: usize,
        a: usize,
        j: usize,
        from: usize,
        standing: u64,
    ) -> Option<usize>
        ensures { Least (standing_with (meaning self.now) i a j standing) from result }
    {
        let mut at = from;
        while let Some(b) = self.next_support(i, a, j, at) {
            let next = next_one(standing, b)?;
            if next == b {
                return Some(b);
            }
            at = next;
        }
        None
    }

    // The lines that are joined with line i, as a word: bit j stands for line j.
    // Kept: a view finds its places so too; one function over a closure would need a `requires`.
    fn joined_lines(&self, i: usize) -> u128
        ensures { (j : ℕ) → on result j ≡ (meaning self.now).joined i j }
    {
        let mut found = 0;
        for j in 0..self.lines() {
            if self.joined(i, j) {
                found = with(found, j);
            }
        }
        found
    }
}
