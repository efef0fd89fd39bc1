// The levels above arc and filtering by queue, on small walls whose lines differ by rule.
use filters::outcome::Outcome;
use filters::queue::by_queue;
use filters::rounds::by_rounds;
use formula::records::{Formula, LineRecord, RuleRecord};
use formula::source::FormulaSource;
use kinds::kind::Kind;
use levels::arc::Arc;
use levels::level::Level;
use neighbourhood::Neighbourhood;
use singleton::Singleton;
use std::array;
use std::process::Abort;
use std::test::Fail;
use supports::parts::Parts;

// So many lines in a ring, each with the values 0, 1 and so on. Two lines differ if they are at most
// `reach` steps apart.
fn ring(
    rt: &HostRuntime,
    lines: usize,
    options: usize,
    reach: usize,
) -> Result<FormulaSource, Fail> {
    let mut rules = Vec::new(rt.alloc());
    for second in 0..lines {
        for first in 0..second {
            let steps = second - first;
            if steps <= reach || lines - steps <= reach {
                rules.push(RuleRecord {
                    kind: u8::from(Kind::Apart),
                    first,
                    second,
                    k: 0,
                    m: 0,
                })?;
            }
        }
    }
    let all = vec![in rt.alloc(); LineRecord {
        start: 0,
        count: options
    }; lines]?;
    let parts = Formula {
        lines: &all,
        values: &[0, 1, 2, 3],
        rules: &rules,
    };
    Ok(parts.source(rt.alloc())?)
}

// How many options of a set are left.
// Kept: two lines of std, once in each program; `sum` would leave the bound of the count open.
fn standing(set: &[u64]) -> u32 {
    set.iter()
        .fold(0, |n, word| n.saturating_add(word.count_ones()))
}

// So many words of five are the given one.
fn opened(lines: usize, word: u64) -> [u64; 5] {
    array::from_fn(|line| if line < lines { word } else { 0 })
}

// Both ways leave so many options of a set with the given word for each line.
fn leaves<L: Level>(rt: &impl Abort, level: &L, word: u64, count: u32) {
    let mut rounds = opened(level.lines(), word);
    let mut queue = rounds;
    assert_eq!(rt; by_rounds(level, &mut rounds), by_queue(level, &mut queue));
    assert_eq!(rt; rounds, queue);
    assert_eq!(rt; standing(&rounds), count);
}

// Three lines that all differ, with two options: arc strikes nothing, the others find that there is no
// plan.
#[test]
fn three_lines(rt: HostRuntime) -> Result<(), Fail> {
    let source = ring(&rt, 3, 2, 1)?;
    leaves(&rt, &Arc { source: &source }, 3, 6);
    leaves(&rt, &Neighbourhood { source: &source }, 3, 0);
    leaves(
        &rt,
        &Singleton {
            below: Arc { source: &source },
        },
        3,
        0,
    );
    Ok(())
}

// A ring of five with two options: no two neighbours of a line are joined, so neighbourhood strikes
// nothing, and singleton goes round.
#[test]
fn ring_of_five(rt: HostRuntime) -> Result<(), Fail> {
    let source = ring(&rt, 5, 2, 1)?;
    leaves(&rt, &Neighbourhood { source: &source }, 3, 10);
    leaves(
        &rt,
        &Singleton {
            below: Arc { source: &source },
        },
        3,
        0,
    );
    Ok(())
}

// Four lines that all differ, with three options: neighbourhood and singleton over arc strike nothing,
// singleton over either finds that there is no plan.
#[test]
fn four_lines(rt: HostRuntime) -> Result<(), Fail> {
    let source = ring(&rt, 4, 3, 2)?;
    leaves(&rt, &Neighbourhood { source: &source }, 7, 12);
    leaves(
        &rt,
        &Singleton {
            below: Neighbourhood { source: &source },
        },
        7,
        0,
    );
    leaves(
        &rt,
        &Singleton {
            below: Arc { source: &source },
        },
        7,
        12,
    );
    leaves(
        &rt,
        &Singleton {
            below: Singleton {
                below: Arc { source: &source },
            },
        },
        7,
        0,
    );
    Ok(())
}

// Of five lines in a ring the third is empty. It is no neighbour of the first, so only singleton minds.
#[test]
fn empty_elsewhere(rt: HostRuntime) -> Result<(), Fail> {
    let source = ring(&rt, 5, 3, 1)?;
    let set = [7, 7, 0, 7, 7];
    let singleton = Singleton {
        below: Arc { source: &source },
    };
    assert!(rt; Neighbourhood { source: &source }.passes(&set, 0, 0));
    assert!(rt; !Neighbourhood { source: &source }.passes(&set, 1, 0));
    assert!(rt; !singleton.passes(&set, 0, 0));
    assert!(rt; !singleton.passes(&set, 5, 0));
    Ok(())
}

// A trial strikes on its own copy: an option of line 1 that line 0 makes impossible fails, and all others
// stay. A line touches every other one.
#[test]
fn trials(rt: HostRuntime) -> Result<(), Fail> {
    let source = ring(&rt, 3, 3, 1)?;
    let singleton = Singleton {
        below: Arc { source: &source },
    };
    let mut set = [1, 7, 7];
    assert_eq!(rt; by_queue(&singleton, &mut set), Outcome::Settled);
    assert_eq!(rt; set, [1, 6, 6]);
    assert!(rt; singleton.trial(&set, 1, 0).is_none());
    let left = singleton
        .trial(&set, 1, 1)
        .ok_or("the trial leaves nothing")?;
    assert!(rt; left[0] == 1 && left[1] == 2 && left[2] == 4);
    assert!(rt; singleton.touches(0, 2) && !singleton.touches(1, 1) && !singleton.touches(0, 3));
    Ok(())
}

// A missing word is zero, so its line is empty; bits past the count stay as found.
#[test]
fn queue_ends(rt: HostRuntime) -> Result<(), Fail> {
    let source = ring(&rt, 3, 3, 1)?;
    let arc = Arc { source: &source };
    let mut short = [7, 7 + 32];
    assert_eq!(rt; by_queue(&arc, &mut short), Outcome::NoPlan);
    assert_eq!(rt; short, [0, 32]);
    let mut set = [1, 3 + 32, 7, 9];
    assert_eq!(rt; by_queue(&arc, &mut set), Outcome::Settled);
    assert_eq!(rt; set, [1, 2 + 32, 4, 9]);
    Ok(())
}
