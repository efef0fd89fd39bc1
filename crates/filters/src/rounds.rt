// Filtering by rounds: all lines are swept in order, until a whole round strikes nothing.
ghost use Rattle.filters.specs.Filtering.{Filtered, Ran};
ghost use Rattle.filters.specs.Sweeps.{RoundSwept};
ghost use Rattle.model.specs.Sets.{EachLine};

use crate::ending::ended;
use crate::outcome::Outcome;
use crate::sweep::{Emptied, each_line_stands, sweep_line};
use levels::level::Level;

// One round. Says whether it struck anything.
fn sweep_all<L: Level>(level: &L, set: &mut [u64]) -> Result<bool, Emptied>
    requires { EachLine (L.meaning level.now) set.old }
    ensures { RoundSwept (L.meaning level.now) (L.passing level.now) set.old set.new result }
{
    let mut struck = false;
    for i in 0..level.lines() {
        struck |= sweep_line(level, set, i)?;
    }
    Ok(struck)
}

// Rounds, until one strikes nothing or a line has no option left.
fn settle<L: Level>(level: &L, set: &mut [u64]) -> Result<(), Emptied>
    ensures { Ran (L.meaning level.now) (L.passing level.now) set.old set.new result }
{
    each_line_stands(level, set)?;
    while sweep_all(level, set)? {}
    Ok(())
}

// Leaves the largest good subset of the set, and says whether an option of each line is left. Once a
// line has none left there is no plan, and every option is struck.
pub fn by_rounds<L: Level>(level: &L, set: &mut [u64]) -> Outcome
    ensures { Filtered (L.meaning level.now) (L.passing level.now) set.old set.new result }
{
    ended(settle(level, set), level, set)
}
