// What is stronger leaves a subset.
ghost use Rattle.std.specs.Prelude.{◌≡◌};
ghost use Rattle.filters.specs.Copies.{Leaves};
ghost use Rattle.model.specs.Passing.{ArcPasses, AtLeast, NearPasses, SinglePasses};
ghost use Rattle.model.specs.Sets.{Sub};

use filters::theorems::{OptionSet, largest_good_subset};
use levels::arc::Arc;
use levels::level::Level;
use neighbourhood::Neighbourhood;
use rules::source::RuleSource;
use singleton::Singleton;

// What two levels leave of one set.
#[derive(Clone, Copy)]
pub struct Compared {
    pub strong: OptionSet,
    pub weak: OptionSet,
}

// Where these are what two levels over the same rules leave of the set, and the first level is at least as
// strong as the second, what the first leaves is a subset.
fn within<A: Level, B: Level>(strong: &A, weak: &B, set: &[u64], left: &Compared)
    ensures { A.Level.meaning strong.now ≡ B.Level.meaning weak.now → AtLeast (A.Level.passing strong.now) (B.Level.passing weak.now) → Leaves (A.Level.meaning strong.now) (A.Level.passing strong.now) set.now left.now.strong → Leaves (B.Level.meaning weak.now) (B.Level.passing weak.now) set.now left.now.weak → Sub (B.Level.meaning weak.now) left.now.strong left.now.weak }
{}

// What two levels over the same rules leave of a set: the largest good subset at each, and if the first
// level is at least as strong as the second, a subset of what the second leaves. Their other bits are those of
// the set.
pub fn compare<A: Level, B: Level>(strong: &A, weak: &B, set: &[u64]) -> Compared
    ensures strong { Leaves (A.Level.meaning strong.now) (A.Level.passing strong.now) set.now result.strong }
    ensures weak { Leaves (B.Level.meaning weak.now) (B.Level.passing weak.now) set.now result.weak }
    ensures subset { A.Level.meaning strong.now ≡ B.Level.meaning weak.now → AtLeast (A.Level.passing strong.now) (B.Level.passing weak.now) → Sub (B.Level.meaning weak.now) result.strong result.weak }
{
    let left = Compared {
        strong: largest_good_subset(strong, set),
        weak: largest_good_subset(weak, set),
    };
    within(strong, weak, set, &left);
    left
}

// What each level leaves of one set.
#[derive(Clone, Copy)]
pub struct ByLevel {
    pub arc: OptionSet,
    pub neighbourhood: OptionSet,
    pub singleton: OptionSet,
}

// Where these are what each level over the source leaves of the set, neighbourhood's is a subset of arc's,
// and singleton's of neighbourhood's.
fn nested<S: RuleSource>(source: &S, set: &[u64], left: &ByLevel)
    ensures neighbourhood { Leaves (S.meaning source.now) (NearPasses (S.meaning source.now)) set.now left.now.neighbourhood → Leaves (S.meaning source.now) (ArcPasses (S.meaning source.now)) set.now left.now.arc → Sub (S.meaning source.now) left.now.neighbourhood left.now.arc }
    ensures singleton { Leaves (S.meaning source.now) (SinglePasses (S.meaning source.now) (ArcPasses (S.meaning source.now))) set.now left.now.singleton → Leaves (S.meaning source.now) (NearPasses (S.meaning source.now)) set.now left.now.neighbourhood → Sub (S.meaning source.now) left.now.singleton left.now.neighbourhood }
{}

// What arc, neighbourhood and singleton over arc leave of a set: the largest good subset at each, singleton
// within neighbourhood and neighbourhood within arc. Their other bits are those of the set.
pub fn by_level<S: RuleSource>(source: &S, set: &[u64]) -> ByLevel
    ensures arc { Leaves (S.meaning source.now) (ArcPasses (S.meaning source.now)) set.now result.arc }
    ensures neighbourhood { Leaves (S.meaning source.now) (NearPasses (S.meaning source.now)) set.now result.neighbourhood }
    ensures singleton { Leaves (S.meaning source.now) (SinglePasses (S.meaning source.now) (ArcPasses (S.meaning source.now))) set.now result.singleton }
    ensures within_arc { Sub (S.meaning source.now) result.neighbourhood result.arc }
    ensures within_neighbourhood { Sub (S.meaning source.now) result.singleton result.neighbourhood }
{
    let singleton = Singleton {
        below: Arc { source },
    };
    let left = ByLevel {
        arc: largest_good_subset(&Arc { source }, set),
        neighbourhood: largest_good_subset(&Neighbourhood { source }, set),
        singleton: largest_good_subset(&singleton, set),
    };
    nested(source, set, &left);
    left
}
