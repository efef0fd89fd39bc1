// How both ways of filtering end.
ghost use Rattle.std.specs.Prelude.{ℕ, List};
ghost use Rattle.filters.specs.Filtering.{Filtered, Ran};

use crate::outcome::Outcome;
use crate::sweep::{Emptied, strike_all};
use levels::level::Level;

// The answer of a filter whose run ended so. Once a line has no option left there is no plan, and every
// option is struck.
pub(crate) fn ended<L: Level>(run: Result<(), Emptied>, level: &L, set: &mut [u64]) -> Outcome
    ensures { (s : List ℕ) → Ran (L.meaning level.now) (L.passing level.now) s set.old run → Filtered (L.meaning level.now) (L.passing level.now) s set.new result }
{
    match run {
        Ok(()) => Outcome::Settled,
        Err(Emptied) => {
            strike_all(level, set);
            Outcome::NoPlan
        }
    }
}
