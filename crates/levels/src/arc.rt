// Arc consistency: an option passes if every joined line has an option in the set that goes with it.
ghost use Rattle.model.specs.Passing.{AllSupported, ArcPasses, Supported};
ghost use Rattle.std.specs.Prelude.{Decides};
ghost use Rattle.model.proofs.Arcs.{arc_monotone, arc_plan, arc_touch};

use crate::at_hand::all_of_word;
use crate::level::Level;
use crate::words::word;
use bits::has;
use rules::source::RuleSource;

// Arc consistency over a source.
#[derive(Drop)]
pub struct Arc<S: RuleSource> {
    pub source: S,
}

// Whether line j has an option in the set that goes with option a of line i.
pub(crate) fn supported<S: RuleSource>(
    source: &S,
    set: &[u64],
    i: usize,
    a: usize,
    j: usize,
) -> bool
    ensures { Decides result (Supported (S.meaning source.now) set.now i a j) }
{
    // Kept: a match and no `is_some`; the project asks that the arc test takes the answer apart.
    match source.next_standing(i, a, j, 0, word(set, j)) {
        Some(_) => true,
        None => false,
    }
}

// Whether every joined line has one: the next joined line, until one has none.
#[tactic(auto, using(model::proofs::Facts::joined_few))]
fn all_in_turn<S: RuleSource>(source: &S, set: &[u64], i: usize, a: usize) -> bool
    ensures { Decides result (AllSupported (S.meaning source.now) set.now i a) }
{
    let mut from = 0;
    while let Some(j) = source.next_joined(i, from) {
        if !supported(source, set, i, a, j) {
            return false;
        }
        from = j + 1;
    }
    true
}

// Whether every joined line has one. The joined lines are taken out of one word where the source has it at
// hand, which takes two thirds of the time; a source that has not is asked for no line after the first
// without one.
fn all_supported<S: RuleSource>(source: &S, set: &[u64], i: usize, a: usize) -> bool
    ensures { Decides result (AllSupported (S.meaning source.now) set.now i a) }
{
    if S::LINES_AT_HAND {
        all_of_word(source, set, i, a)
    } else {
        all_in_turn(source, set, i, a)
    }
}

impl<S: RuleSource> Level for Arc<S> {
    ghost meaning = { λ x. S.RuleSource.meaning x.source };

    ghost passing = { λ x s i a. ArcPasses (S.RuleSource.meaning x.source) s i a };

    // A line touches the lines that are joined with it.
    ghost touching = { λ x i j. (S.RuleSource.meaning x.source).joined i j };

    ghost lawful = { λ x. S.RuleSource.lawful x.source };

    ghost within = { λ x s i a p. p.here };

    ghost monotone = { λ x. arc_monotone (S.RuleSource.meaning x.source) };

    ghost plans = { λ x. arc_plan (S.RuleSource.meaning x.source) (S.RuleSource.lawful x.source).proper };

    ghost touch = { λ x. arc_touch (S.RuleSource.meaning x.source) (S.RuleSource.lawful x.source).mirrored };

    ghost real = { λ x i j e. let w = (S.RuleSource.lawful x.source).proper.joined i j e in (w.0, w.1) };

    fn lines(&self) -> usize {
        self.source.lines()
    }

    fn count(&self, line: usize) -> usize {
        self.source.count(line)
    }

    fn touches(&self, i: usize, j: usize) -> bool {
        self.source.joined(i, j)
    }

    fn passes(&self, set: &[u64], line: usize, option: usize) -> bool {
        option < self.source.count(line)
            && has(word(set, line), option)
            && all_supported(&self.source, set, line, option)
    }
}
