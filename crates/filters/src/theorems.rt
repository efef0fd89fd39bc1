// What holds of the largest good subset at every level.
ghost use Rattle.std.specs.Prelude.{◌≡◌, ℕ, List, slice_index};
ghost use Rattle.filters.specs.Copies.{CopyOf, Leaves};
ghost use Rattle.filters.specs.Filtering.{Ended};

use crate::outcome::Outcome;
use crate::queue::by_queue;
use crate::rounds::by_rounds;
use levels::level::Level;
use levels::words::word;

// An option set with a word for each line that there can be.
// Kept: an array and no vector, since a filter and a trial ask for no memory.
pub type OptionSet = [u64; 128];

// The first 128 words of a set.
pub fn copied(set: &[u64]) -> OptionSet
    ensures { CopyOf set.now result }
{
    let mut copy = [0; 128];
    for (k, place) in copy.iter_mut().enumerate() {
        *place = word(set, k);
    }
    copy
}

// What filtering leaves of a set. It is the largest good subset of every set that this one is a copy of.
fn left_of<L: Level>(level: &L, mut set: OptionSet) -> OptionSet
    ensures { (s : List ℕ) → CopyOf s set → Leaves (L.meaning level.now) (L.passing level.now) s result }
{
    let _ = by_rounds(level, &mut set);
    set
}

// Every set has a largest good subset, which holds every other one: this one. Its other bits are those
// of the set.
pub fn largest_good_subset<L: Level>(level: &L, set: &[u64]) -> OptionSet
    ensures { Leaves (L.meaning level.now) (L.passing level.now) set.now result }
{
    left_of(level, copied(set))
}

// What a filter left of a set, and how it ended.
// Kept: what is left is there in either case, so the outcome says nothing of whether it is.
#[derive(Clone, Copy)]
pub struct Run {
    pub outcome: Outcome,
    pub left: OptionSet,
}

// One set filtered both ways.
#[derive(Clone, Copy)]
pub struct BothWays {
    pub rounds: Run,
    pub queue: Run,
}

// Filters a set both ways. What is left is the largest good subset of every set that it is a copy of.
fn filter_both<L: Level>(level: &L, set: OptionSet) -> BothWays
    ensures agree { result.rounds.outcome ≡ result.queue.outcome }
    ensures same { (i : ℕ) → slice_index result.rounds.left i ≡ slice_index result.queue.left i }
    ensures ended { Ended (L.meaning level.now) (L.passing level.now) result.rounds.left result.rounds.outcome }
    ensures leaves { (s : List ℕ) → CopyOf s set → Leaves (L.meaning level.now) (L.passing level.now) s result.rounds.left }
{
    let mut rounds = set;
    let mut queue = set;
    BothWays {
        rounds: Run {
            outcome: by_rounds(level, &mut rounds),
            left: rounds,
        },
        queue: Run {
            outcome: by_queue(level, &mut queue),
            left: queue,
        },
    }
}

// Filtering by rounds and by queue agree, for every level and every set: they end alike and leave the
// same words, which are the largest good subset; it is full where they settle, and empty where there is
// no plan. Their other bits are those of the set.
pub fn both_ways<L: Level>(level: &L, set: &[u64]) -> BothWays
    ensures agree { result.rounds.outcome ≡ result.queue.outcome }
    ensures same { (i : ℕ) → slice_index result.rounds.left i ≡ slice_index result.queue.left i }
    ensures ended { Ended (L.meaning level.now) (L.passing level.now) result.rounds.left result.rounds.outcome }
    ensures leaves { Leaves (L.meaning level.now) (L.passing level.now) set.now result.rounds.left }
{
    filter_both(level, copied(set))
}
