// Filtering by rounds at arc.
use filters::outcome::Outcome;
use filters::rounds::by_rounds;
use formula::records::{Formula, LineRecord, RuleRecord};
use formula::source::FormulaSource;
use kinds::kind::Kind;
use levels::arc::Arc;
use std::test::Fail;
use supports::parts::Parts;

// So many lines with the values 0 to 2, each with a rule of the kind to the next.
fn chain(rt: &HostRuntime, n: usize, kind: Kind, k: i32) -> Result<FormulaSource, Fail> {
    let rules: Vec<RuleRecord> = (0..n)
        .zip(1..n)
        .map(|(first, second)| RuleRecord {
            kind: u8::from(kind),
            first,
            second,
            k,
            m: 0,
        })
        .collect(rt.alloc())?;
    let lines = vec![in rt.alloc(); LineRecord { start: 0, count: 3 }; n]?;
    let parts = Formula {
        lines: &lines,
        values: &[0, 1, 2],
        rules: &rules,
    };
    Ok(parts.source(rt.alloc())?)
}

// Three rising lines leave one option each; bits past the count stay as found, and so do words past
// the last line.
#[test]
fn rising(rt: HostRuntime) -> Result<(), Fail> {
    let source = chain(&rt, 3, Kind::After, 1)?;
    let mut set = [7, 7 + 32, 7, 9];
    assert_eq!(rt;
        by_rounds(&Arc { source: &source }, &mut set),
        Outcome::Settled
    );
    assert_eq!(rt; set, [1, 2 + 32, 4, 9]);
    Ok(())
}

// Four rising lines of three options have no plan.
#[test]
fn no_plan(rt: HostRuntime) -> Result<(), Fail> {
    let source = chain(&rt, 4, Kind::After, 1)?;
    let mut set = [7, 7, 7, 7 + 32];
    assert_eq!(rt;
        by_rounds(&Arc { source: &source }, &mut set),
        Outcome::NoPlan
    );
    assert_eq!(rt; set, [0, 0, 0, 32]);
    Ok(())
}

// A missing word is zero, so its line is empty.
#[test]
fn missing_word(rt: HostRuntime) -> Result<(), Fail> {
    let source = chain(&rt, 3, Kind::Apart, 0)?;
    let mut set = [7, 7];
    assert_eq!(rt;
        by_rounds(&Arc { source: &source }, &mut set),
        Outcome::NoPlan
    );
    assert_eq!(rt; set, [0, 0]);
    Ok(())
}

// Lines that differ from their neighbours keep all their options at arc.
#[test]
fn apart(rt: HostRuntime) -> Result<(), Fail> {
    let source = chain(&rt, 3, Kind::Apart, 0)?;
    let mut set = [3, 3, 3];
    assert_eq!(rt;
        by_rounds(&Arc { source: &source }, &mut set),
        Outcome::Settled
    );
    assert_eq!(rt; set, [3, 3, 3]);
    Ok(())
}
