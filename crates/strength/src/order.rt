// At least as strong is an order, and how the levels stand in it.
ghost use Rattle.std.specs.Prelude.{◌≡◌};
ghost use Rattle.model.specs.Passing.{ArcPasses, AtLeast, NearPasses, SinglePasses};

use levels::arc::Arc;
use levels::level::Level;
use neighbourhood::Neighbourhood;
use rules::source::RuleSource;
use singleton::Singleton;

// Every level is at least as strong as itself.
pub fn reflexive<L: Level>(level: &L)
    ensures { AtLeast (L.passing level.now) (L.passing level.now) }
{}

// A level that is at least as strong as a second one is so as a third one that the second is at least
// as strong as.
pub fn transitive<A: Level, B: Level, C: Level>(first: &A, second: &B, third: &C)
    ensures { AtLeast (A.Level.passing first.now) (B.Level.passing second.now) → AtLeast (B.Level.passing second.now) (C.Level.passing third.now) → AtLeast (A.Level.passing first.now) (C.Level.passing third.now) }
{}

// Neighbourhood is at least as strong as arc over the same rules.
pub fn neighbourhood_over_arc<S: RuleSource, T: RuleSource>(
    neighbourhood: &Neighbourhood<S>,
    arc: &Arc<T>,
)
    ensures { S.RuleSource.meaning neighbourhood.now.source ≡ T.RuleSource.meaning arc.now.source → AtLeast (NearPasses (S.RuleSource.meaning neighbourhood.now.source)) (ArcPasses (T.RuleSource.meaning arc.now.source)) }
{}

// Singleton over any level is at least as strong as that level.
pub fn singleton_over_below<L: Level>(singleton: &Singleton<L>)
    ensures { AtLeast (SinglePasses (L.meaning singleton.now.below) (L.passing singleton.now.below)) (L.passing singleton.now.below) }
{}

// Singleton over arc is at least as strong as neighbourhood over the same rules.
pub fn singleton_over_neighbourhood<S: RuleSource, T: RuleSource>(
    singleton: &Singleton<Arc<S>>,
    neighbourhood: &Neighbourhood<T>,
)
    ensures { S.RuleSource.meaning singleton.now.below.source ≡ T.RuleSource.meaning neighbourhood.now.source → AtLeast (SinglePasses (S.RuleSource.meaning singleton.now.below.source) (ArcPasses (S.RuleSource.meaning singleton.now.below.source))) (NearPasses (T.RuleSource.meaning neighbourhood.now.source)) }
{}
