// The joined lines of a source that has them at hand as a word.
ghost use Rattle.model.specs.Passing.{AllSupported};
ghost use Rattle.std.specs.Prelude.{Decides};

use crate::arc::supported;
use bits::pop;
use rules::source::RuleSource;

// Whether every joined line has an option in the set that goes with option a of line i.
pub(crate) fn all_of_word<S: RuleSource>(source: &S, set: &[u64], i: usize, a: usize) -> bool
    ensures { Decides result (AllSupported (S.meaning source.now) set.now i a) }
{
    let mut rest = source.joined_lines(i);
    while let Some(j) = pop(&mut rest) {
        if !supported(source, set, i, a, j) {
            return false;
        }
    }
    true
}
