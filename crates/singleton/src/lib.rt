// Singleton consistency over any level below: an option passes if the set with its line held to it has
// a largest good subset at the level below that is not empty.
#![tactic(auto)]

ghost use Rattle.std.specs.Prelude.{◌≡◌, ℕ, ◌<◌, ◌&&◌, slice_index};
ghost use Rattle.bits.specs.Bits.{on};
ghost use Rattle.model.specs.Passing.{SinglePasses, single_touching, stays};
ghost use Rattle.singleton.specs.Trials.{Tried};
ghost use Rattle.model.proofs.Singles.{single_monotone, single_plan, single_touch, single_real};

use bits::{has, only};
use filters::outcome::Outcome;
use filters::rounds::by_rounds;
use filters::theorems::{OptionSet, copied};
use levels::level::Level;
use levels::words::word;
use rules::parts::names_two;

// Singleton consistency over a level.
#[derive(Drop)]
pub struct Singleton<L: Level> {
    pub below: L,
}

// A copy of the set with the line held to the option.
fn hold(set: &[u64], line: usize, option: usize) -> OptionSet
    requires { line < 128 }
    ensures { (k b : ℕ) → k < 128 → on (slice_index result k) b ≡ (on (slice_index set.now k) b && stays line option k b) }
{
    let mut held = copied(set);
    held[line] = only(held[line], option);
    held
}

// The trial of an option of the set: a run at the level below on the set with its line held to it.
fn tried<L: Level>(below: &L, set: &[u64], line: usize, option: usize) -> Option<OptionSet>
    ensures { Tried (L.meaning below.now) (L.passing below.now) set.now line option result }
{
    if option >= below.count(line) || !has(word(set, line), option) {
        return None;
    }
    let mut held = hold(set, line, option);
    // Kept: `then_some` would copy the set in each trial.
    match by_rounds(below, &mut held) {
        Outcome::Settled => Some(held),
        Outcome::NoPlan => None,
    }
}

impl<L: Level> Singleton<L> {
    // The singleton test of an option: the largest good subset, at the level below, of the set with the
    // line held to the option, or none where that is empty or the set has no such option.
    pub fn trial(&self, set: &[u64], line: usize, option: usize) -> Option<OptionSet>
        ensures { Tried (L.meaning self.now.below) (L.passing self.now.below) set.now line option result }
    {
        tried(&self.below, set, line, option)
    }
}

impl<L: Level> Level for Singleton<L> {
    ghost meaning = { λ x. L.Level.meaning x.below };

    ghost passing = { λ x s i a. SinglePasses (L.Level.meaning x.below) (L.Level.passing x.below) s i a };

    // A line touches every other line.
    ghost touching = { λ x i j. single_touching (L.Level.meaning x.below) i j };

    ghost lawful = { λ x. L.Level.lawful x.below };

    ghost within = { λ x s i a p. p.here };

    ghost monotone = { λ x. single_monotone (L.Level.meaning x.below) (L.Level.passing x.below) };

    ghost plans = { λ x. single_plan (L.Level.meaning x.below) (L.Level.passing x.below) (L.Level.plans x.below) };

    ghost touch = { λ x. single_touch (L.Level.meaning x.below) (L.Level.passing x.below) };

    ghost real = { λ x. single_real (L.Level.meaning x.below) };

    fn lines(&self) -> usize {
        self.below.lines()
    }

    fn count(&self, line: usize) -> usize {
        self.below.count(line)
    }

    fn touches(&self, i: usize, j: usize) -> bool {
        names_two(self.below.lines(), i, j)
    }

    fn passes(&self, set: &[u64], line: usize, option: usize) -> bool {
        self.trial(set, line, option).is_some()
    }
}
