// A source of a user's own: it answers the five questions that are asked for and leaves the others to the trait.
use filters::outcome::Outcome;
use filters::queue::by_queue;
use filters::rounds::by_rounds;
use formula::records::{Formula, LineRecord, RuleRecord};
use formula::source::FormulaSource;
use levels::arc::Arc;
use rules::source::RuleSource;
use std::test::Fail;
use supports::parts::Parts;

#[derive(Drop)]
struct Own<S: RuleSource> {
    inner: S,
}

impl<S: RuleSource> RuleSource for Own<S> {
    ghost meaning = { λ x. S.RuleSource.meaning x.inner };

    ghost lawful = { λ x. S.RuleSource.lawful x.inner };

    fn lines(&self) -> usize {
        self.inner.lines()
    }

    fn count(&self, line: usize) -> usize {
        self.inner.count(line)
    }

    fn joined(&self, i: usize, j: usize) -> bool {
        self.inner.joined(i, j)
    }

    fn together(&self, i: usize, a: usize, j: usize, b: usize) -> bool {
        self.inner.together(i, a, j, b)
    }

    fn next_support(&self, i: usize, a: usize, j: usize, from: usize) -> Option<usize> {
        self.inner.next_support(i, a, j, from)
    }
}

// Lines with the values 0 to 2, which rise by these rules.
fn rising(
    rt: &HostRuntime,
    lines: &[LineRecord],
    rules: &[RuleRecord],
) -> Result<FormulaSource, Fail> {
    let parts = Formula {
        lines,
        values: &[0, 1, 2],
        rules,
    };
    Ok(parts.source(rt.alloc())?)
}

const LINE: LineRecord = LineRecord { start: 0, count: 3 };

// A value of the first line is less than one of the second.
fn below(first: usize, second: usize) -> RuleRecord {
    RuleRecord {
        kind: 3,
        first,
        second,
        k: 1,
        m: 0,
    }
}

#[test]
fn questions_left_to_the_trait(rt: HostRuntime) -> Result<(), Fail> {
    let source = rising(&rt, &[LINE; 3], &[below(0, 1), below(1, 2)])?;
    let own = Own { inner: &source };
    assert_eq!(rt; own.next_joined(0, 0), Some(1));
    assert_eq!(rt; own.next_joined(0, 2), None);
    assert_eq!(rt; own.joined_lines(1), 5);
    assert_eq!(rt; own.next_standing(0, 0, 1, 0, 7), Some(1));
    assert_eq!(rt; own.next_standing(0, 0, 1, 0, 5), Some(2));
    assert_eq!(rt; own.next_standing(0, 0, 1, 2, 3), None);
    assert_eq!(rt; own.next_standing(0, 2, 1, 0, 7), None);
    assert_eq!(rt; own.next_standing(0, 0, 2, 1, u64::MAX), Some(1));
    Ok(())
}

// Arc asks for one joined line after the other.
#[test]
fn arc_over_it(rt: HostRuntime) -> Result<(), Fail> {
    let source = rising(&rt, &[LINE; 3], &[below(0, 1), below(1, 2)])?;
    let own = Own { inner: &source };
    let mut set = [7, 7 + 32, 7, 9];
    assert_eq!(rt;
        by_rounds(&Arc { source: &own }, &mut set),
        Outcome::Settled
    );
    assert_eq!(rt; set, [1, 2 + 32, 4, 9]);
    let four = rising(&rt, &[LINE; 4], &[below(0, 1), below(1, 2), below(2, 3)])?;
    let mut none = [7, 7, 7, 7 + 32];
    assert_eq!(rt;
        by_queue(
            &Arc {
                source: &Own { inner: &four }
            },
            &mut none
        ),
        Outcome::NoPlan
    );
    assert_eq!(rt; none, [0, 0, 0, 32]);
    Ok(())
}
