// The check of two sources that are to be joined.
ghost use Rattle.std.specs.Prelude.{◌≤◌};
ghost use Rattle.bits.specs.Least.{Least};
ghost use Rattle.joint.specs.Faults.{joint_fault, unequal};
ghost use Rattle.rules.specs.Faults.{FirstFault};

use rules::fault::SourceFault;
use rules::source::RuleSource;

// The first of so many lines on which the option counts differ.
fn first_unequal<A: RuleSource, B: RuleSource>(first: &A, second: &B, lines: usize) -> Option<usize>
    requires first { (A.RuleSource.meaning first.now).lines ≤ lines }
    requires second { (B.RuleSource.meaning second.now).lines ≤ lines }
    ensures { Least (unequal (A.RuleSource.meaning first.now) (B.RuleSource.meaning second.now)) 0 result }
{
    (0..lines).find(|&line| first.count(line) != second.count(line))
}

// The first line on which their option counts differ. A missing line has none, so this finds different
// numbers of lines too.
pub fn check_joint<A: RuleSource, B: RuleSource>(first: &A, second: &B) -> Result<(), SourceFault>
    ensures { FirstFault (joint_fault (A.RuleSource.meaning first.now) (B.RuleSource.meaning second.now)) result }
{
    let lines = first.lines().max(second.lines());
    // Kept: `map_or(Ok(()), ..)` says the same with the cases turned round, which reads less plainly.
    match first_unequal(first, second, lines) {
        Some(line) => Err(SourceFault::Counts(line)),
        None => Ok(()),
    }
}
