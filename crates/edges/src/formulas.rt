// Parts of a formula source at the edges of each number.
use formula::records::{Formula, LineRecord, RuleRecord};
use rules::fault::SourceFault;
use std::alloc::{AllocError, Global};
use std::test::Fail;
use supports::parts::Parts;

// The check of the parts.
fn check(lines: &[LineRecord], values: &[i32], rules: &[RuleRecord]) -> Result<(), SourceFault> {
    let parts = Formula {
        lines,
        values,
        rules,
    };
    parts.check()
}

// The number of a check's answer, and 0 where it passes.
// Kept: the numbers are what is tested.
fn number(r: Result<(), SourceFault>) -> u8 {
    r.err().map_or(0, |fault| fault.number())
}

// So many values from 0 on.
fn values(heap: Global, n: i32) -> Result<Vec<i32>, AllocError> {
    (0..n).collect(heap)
}

// Kept: the number of the kind is what is tested.
fn rule(kind: u8, k: i32, m: i32) -> RuleRecord {
    RuleRecord {
        kind,
        first: 0,
        second: 1,
        k,
        m,
    }
}

// The number for two lines of two values and one rule.
fn of_rule(r: RuleRecord) -> u8 {
    let line = LineRecord { start: 0, count: 2 };
    number(check(&[line, line], &[0, 4], &[r]))
}

#[test]
fn line_counts(rt: HostRuntime) -> Result<(), Fail> {
    for (n, expected) in [(0usize, 1u8), (1, 0), (128, 0), (129, 1)] {
        let lines = vec![in rt.alloc(); LineRecord { start: 0, count: 1 }; n]?;
        assert_eq!(rt; number(check(&lines, &[0], &[])), expected);
    }
    Ok(())
}

#[test]
fn option_counts(rt: HostRuntime) -> Result<(), Fail> {
    let run = values(rt.alloc(), 65)?;
    for (start, count, expected) in [
        (0usize, 0usize, 2u8),
        (0, 1, 0),
        (0, 64, 0),
        (0, 65, 2),
        (1, 64, 0),
        (2, 64, 2),
        (65, 0, 2),
        (usize::MAX, 1, 2),
        (usize::MAX, 64, 2),
    ] {
        assert_eq!(rt;
            number(check(&[LineRecord { start, count }], &run, &[])),
            expected
        );
    }
    Ok(())
}

#[test]
fn value_ranges(rt: HostRuntime) {
    let line = LineRecord { start: 0, count: 2 };
    assert_eq!(rt; number(check(&[line], &[-1_000_000, 1_000_000], &[])), 0);
    assert_eq!(rt; number(check(&[line], &[-1_000_001, 0], &[])), 3);
    assert_eq!(rt; number(check(&[line], &[0, 1_000_001], &[])), 3);
    assert_eq!(rt; number(check(&[line], &[5, 5], &[])), 3);
    assert_eq!(rt; number(check(&[line], &[5, 4], &[])), 3);
}

#[test]
fn record_counts(rt: HostRuntime) -> Result<(), Fail> {
    let line = LineRecord { start: 0, count: 1 };
    for (n, expected) in [(2048usize, 0u8), (2049, 4)] {
        let rules = vec![in rt.alloc(); rule(1, 0, 0); n]?;
        assert_eq!(rt; number(check(&[line, line], &[0], &rules)), expected);
    }
    Ok(())
}

#[test]
fn names(rt: HostRuntime) {
    let line = LineRecord { start: 0, count: 1 };
    for (first, second, expected) in [
        (0usize, 1usize, 0u8),
        (1, 0, 0),
        (0, 2, 5),
        (2, 0, 5),
        (1, 1, 5),
        (usize::MAX, 0, 5),
    ] {
        let r = RuleRecord {
            kind: 1,
            first,
            second,
            k: 0,
            m: 0,
        };
        assert_eq!(rt; number(check(&[line, line], &[0], &[r])), expected);
    }
}

#[test]
fn kinds(rt: HostRuntime) {
    for (kind, expected) in [
        (0u8, 6u8),
        (1, 0),
        (2, 0),
        (3, 0),
        (4, 0),
        (5, 0),
        (6, 6),
        (255, 6),
    ] {
        assert_eq!(rt; of_rule(rule(kind, 0, 1)), expected);
    }
}

#[test]
fn ranges_of_k(rt: HostRuntime) {
    for kind in 1..=5u8 {
        let low = if kind <= 2 { 0 } else { -2_000_000 };
        assert_eq!(rt; of_rule(rule(kind, low, 1)), 0);
        assert_eq!(rt; of_rule(rule(kind, low - 1, 1)), 7);
        assert_eq!(rt; of_rule(rule(kind, 2_000_000, 1)), 0);
        assert_eq!(rt; of_rule(rule(kind, 2_000_001, 1)), 7);
    }
}

#[test]
fn ranges_of_m(rt: HostRuntime) {
    for kind in 1..=3u8 {
        assert_eq!(rt; of_rule(rule(kind, 0, i32::MAX)), 0);
        assert_eq!(rt; of_rule(rule(kind, 0, i32::MIN)), 0);
    }
    for (kind, m, expected) in [
        (4u8, -2_000_000, 0u8),
        (4, -2_000_001, 7),
        (4, 2_000_000, 0),
        (4, 2_000_001, 7),
        (5, 1, 0),
        (5, 0, 7),
        (5, 1_000, 0),
        (5, 1_001, 7),
    ] {
        assert_eq!(rt; of_rule(rule(kind, 0, m)), expected);
    }
}

// A smaller number anywhere comes before a larger one, and of one number the first line or record.
#[test]
fn order_of_faults(rt: HostRuntime) {
    let good = LineRecord { start: 0, count: 2 };
    let falling = LineRecord { start: 1, count: 2 };
    let outside = LineRecord { start: 2, count: 2 };
    let lines = [good, falling, outside, outside];
    assert_eq!(rt;
        check(&lines, &[0, 4, 3], &[rule(9, -1, 0)]),
        Err(SourceFault::Span(2))
    );
    assert_eq!(rt;
        check(&[good, falling, falling], &[0, 4, 3], &[rule(9, -1, 0)]),
        Err(SourceFault::Values(1))
    );
    assert_eq!(rt;
        check(&[good, good], &[0, 4], &[rule(1, -1, 0), rule(9, 0, 0)]),
        Err(SourceFault::Kind(1))
    );
}
