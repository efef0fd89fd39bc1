// Two sources as one: lines are joined if either joins them, and options go together if both say so.
ghost use Rattle.std.specs.Prelude.{◌≡◌, ◌||◌, not};
ghost use Rattle.joint.specs.Faults.{FoundAlike, joint_fault};
ghost use Rattle.joint.specs.Nearer.{below, nearer};
ghost use Rattle.model.proofs.Joining.{joint_lawful};
ghost use Rattle.model.specs.Joints.{both, joint};
ghost use Rattle.rules.specs.Faults.{Makes};

use crate::check::check_joint;
use bits::either;
use rules::source::RuleSource;

// Whether the check passes.
fn are_alike<A: RuleSource, B: RuleSource>(first: &A, second: &B) -> bool
    ensures { FoundAlike result (A.RuleSource.meaning first.now) (B.RuleSource.meaning second.now) }
{
    check_joint(first, second).is_ok()
}

// The smaller of two numbers that may be missing.
fn nearer(x: Option<usize>, y: Option<usize>) -> Option<usize>
    ensures { result ≡ nearer x y }
{
    x.zip(y).map(|(j, k)| j.min(k)).or(x).or(y)
}

// The number, if it is there and below the limit.
fn below(x: Option<usize>, limit: usize) -> Option<usize>
    ensures { result ≡ below x limit }
{
    x.filter(|&j| j < limit)
}

// Nothing but the flag ties the two sources, so the answers are lawful for any two: the second is read
// only of lines of the first that it joins. Where the counts are equal this leaves nothing out.
// Kept: a ghost field that says so would keep a generic struct from having a field of this type over a
// reference or another joint source.
#[derive(Drop)]
pub struct Joint<A: RuleSource, B: RuleSource> {
    first: A,
    second: B,
    // whether the check passed; the source is the bare one where it did not
    // Kept: an enum of the two cases would have to drop the sources in one, which asks more of callers.
    alike: bool,
}

impl<A: RuleSource, B: RuleSource> Joint<A, B> {
    // The two sources as one, or the bare source where their option counts differ.
    pub fn new(first: A, second: B) -> Joint<A, B>
        ensures { Makes (joint_fault (A.RuleSource.meaning first) (B.RuleSource.meaning second)) (both (A.RuleSource.meaning first) (B.RuleSource.meaning second)) (joint result.alike (A.RuleSource.meaning result.first) (B.RuleSource.meaning result.second)) }
    {
        let alike = are_alike(&first, &second);
        Joint {
            first,
            second,
            alike,
        }
    }

    // Whether the second source lets the options go together, as it does where it does not join their lines.
    fn second_lets(&self, i: usize, a: usize, j: usize, b: usize) -> bool
        ensures { result ≡ (not ((B.RuleSource.meaning self.now.second).joined i j) || (B.RuleSource.meaning self.now.second).together i a j b) }
    {
        !self.second.joined(i, j) || self.second.together(i, a, j, b)
    }
}

impl<A: RuleSource, B: RuleSource> RuleSource for Joint<A, B> {
    ghost meaning = { λ x. joint x.alike (A.RuleSource.meaning x.first) (B.RuleSource.meaning x.second) };

    ghost lawful = { λ x. joint_lawful x.alike (A.RuleSource.meaning x.first) (B.RuleSource.meaning x.second) (A.RuleSource.lawful x.first) (B.RuleSource.lawful x.second) };

    const LINES_AT_HAND: bool = A::LINES_AT_HAND && B::LINES_AT_HAND;

    fn lines(&self) -> usize {
        if self.alike { self.first.lines() } else { 1 }
    }

    fn count(&self, line: usize) -> usize {
        if self.alike {
            self.first.count(line)
        } else {
            usize::from(line == 0)
        }
    }

    fn joined(&self, i: usize, j: usize) -> bool {
        let lines = self.first.lines();
        self.alike
            && (self.first.joined(i, j) || self.second.joined(i, j) && i < lines && j < lines)
    }

    fn together(&self, i: usize, a: usize, j: usize, b: usize) -> bool {
        self.alike && self.first.together(i, a, j, b) && self.second_lets(i, a, j, b)
    }

    // The next option that goes by the first source, until one goes by both.
    // Kept: a walk that takes each answer of the first source apart, the form that the project asks for.
    #[tactic(auto, using(model::proofs::Facts::support_few))]
    fn next_support(&self, i: usize, a: usize, j: usize, from: usize) -> Option<usize> {
        let mut at = from;
        while let Some(b) = self.first.next_support(i, a, j, at) {
            if self.together(i, a, j, b) {
                return Some(b);
            }
            at = b + 1;
        }
        None
    }

    // The next option that stands and goes by the first source, until one goes by both.
    // Kept: the walk above once more; to ask there for the next one of a word of all ones was tried, and the
    // check does not find that proof alone.
    #[tactic(auto, using(model::proofs::Facts::support_few))]
    fn next_standing(
        &self,
        i: usize,
        a: usize,
        j: usize,
        from: usize,
        standing: u64,
    ) -> Option<usize> {
        let mut at = from;
        while let Some(c) = self.first.next_standing(i, a, j, at, standing) {
            if self.alike && self.second_lets(i, a, j, c) {
                return Some(c);
            }
            at = c + 1;
        }
        None
    }

    // The nearer of the lines that the two sources name.
    fn next_joined(&self, i: usize, from: usize) -> Option<usize> {
        let lines = self.first.lines();
        if !self.alike || i >= lines {
            return None;
        }
        nearer(
            self.first.next_joined(i, from),
            below(self.second.next_joined(i, from), lines),
        )
    }

    // The lines that either source names.
    fn joined_lines(&self, i: usize) -> u128 {
        let lines = self.first.lines();
        if !self.alike || i >= lines {
            return 0;
        }
        either(
            self.first.joined_lines(i),
            bits::below(self.second.joined_lines(i), lines),
        )
    }
}
