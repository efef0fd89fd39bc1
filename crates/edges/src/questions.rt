// The questions of the three sources and of a view.
use formula::records::{Formula, LineRecord, RuleRecord};
use formula::source::FormulaSource;
use joint::source::Joint;
use rules::source::RuleSource;
use std::test::Fail;
use supports::parts::Parts;
use tables::records::{Table, TableRecord};
use views::view::View;

// Two lines with the values -5 to 5, and one rule between them.
// Kept: the number of the kind is what is tested.
fn two_lines(rt: &HostRuntime, kind: u8, k: i32, m: i32) -> Result<FormulaSource, Fail> {
    let line = LineRecord {
        start: 0,
        count: 11,
    };
    let rule = RuleRecord {
        kind,
        first: 0,
        second: 1,
        k,
        m,
    };
    let values = [-5, -4, -3, -2, -1, 0, 1, 2, 3, 4, 5];
    let parts = Formula {
        lines: &[line, line],
        values: &values,
        rules: &[rule],
    };
    Ok(parts.source(rt.alloc())?)
}

// Option 5 + v has the value v.
#[test]
fn steps_round_down(rt: HostRuntime) -> Result<(), Fail> {
    let level = two_lines(&rt, 5, 0, 4)?;
    for (x, expected) in [
        (5usize, true),
        (8, true),
        (2, false),
        (4, false),
        (9, false),
    ] {
        assert_eq!(rt; level.together(0, x, 1, 5), expected);
    }
    let down = two_lines(&rt, 5, -1, 4)?;
    for (x, expected) in [(2usize, true), (1, true), (0, false), (5, false)] {
        assert_eq!(rt; down.together(0, x, 1, 5), expected);
    }
    let further = two_lines(&rt, 5, -2, 4)?;
    assert!(rt; further.together(0, 0, 1, 5));
    Ok(())
}

#[test]
fn either_side(rt: HostRuntime) -> Result<(), Fail> {
    let either = two_lines(&rt, 4, 2, 3)?;
    for (x, y, expected) in [
        (5usize, 7usize, true),
        (8, 5, true),
        (5, 6, false),
        (7, 5, false),
    ] {
        assert_eq!(rt; either.together(0, x, 1, y), expected);
    }
    Ok(())
}

// Kinds 2 and 3, by their numbers.
#[test]
fn exact_and_after(rt: HostRuntime) -> Result<(), Fail> {
    let exact = two_lines(&rt, 2, 3, 0)?;
    for (x, y, expected) in [
        (0usize, 3usize, true),
        (3, 0, true),
        (0, 4, false),
        (2, 2, false),
    ] {
        assert_eq!(rt; exact.together(0, x, 1, y), expected);
    }
    let after = two_lines(&rt, 3, 3, 0)?;
    for (x, y, expected) in [
        (0usize, 3usize, true),
        (0, 4, true),
        (3, 0, false),
        (0, 2, false),
    ] {
        assert_eq!(rt; after.together(0, x, 1, y), expected);
    }
    Ok(())
}

// What is missing, and one line twice, gets 0, no or none.
#[test]
fn missing(rt: HostRuntime) -> Result<(), Fail> {
    let apart = two_lines(&rt, 1, 9, 0)?;
    assert_eq!(rt; apart.count(2), 0);
    assert!(rt; !apart.joined(0, 2) && !apart.joined(0, 0) && apart.joined(1, 0));
    assert!(rt; !apart.together(0, 0, 1, 11) && !apart.together(0, 0, 0, 1));
    assert_eq!(rt; apart.next_support(0, 0, 1, 0), Some(10));
    assert_eq!(rt; apart.next_support(0, 0, 1, 11), None);
    assert_eq!(rt; apart.next_support(0, 5, 1, 0), None);
    assert_eq!(rt; apart.next_support(0, 0, 2, 0), None);
    assert_eq!(rt; apart.next_joined(0, 0), Some(1));
    assert_eq!(rt; apart.next_joined(0, 2), None);
    assert_eq!(rt; apart.next_standing(0, 0, 1, 0, 1 << 10), Some(10));
    assert_eq!(rt; apart.next_standing(0, 0, 1, 0, (1 << 10) - 1), None);
    assert_eq!(rt; apart.joined_lines(0), 2);
    assert_eq!(rt; apart.joined_lines(2), 0);
    Ok(())
}

// Parts that the check refuses make the bare source.
#[test]
fn bare(rt: HostRuntime) -> Result<(), Fail> {
    let bare = two_lines(&rt, 6, 0, 0)?;
    assert_eq!(rt; bare.lines(), 1);
    assert_eq!(rt; bare.count(0), 1);
    assert_eq!(rt; bare.count(1), 0);
    Ok(())
}

#[test]
fn joint(rt: HostRuntime) -> Result<(), Fail> {
    let heap = rt.alloc();
    let record = TableRecord {
        first: 0,
        second: 1,
        start: 0,
    };
    let one = Table {
        counts: &[2, 3, 1],
        records: &[record],
        words: &[3, 6],
    };
    let other = Table {
        words: &[5, 7],
        ..one
    };
    let both = Joint::new(one.source(heap)?, other.source(heap)?);
    assert_eq!(rt; both.next_support(0, 0, 1, 0), Some(0));
    assert_eq!(rt; both.next_support(0, 0, 1, 1), None);
    assert_eq!(rt; both.next_support(0, 1, 1, 0), Some(1));
    assert_eq!(rt; both.next_support(0, 0, 2, 0), Some(0));
    assert_eq!(rt; both.next_joined(1, 0), Some(0));
    assert_eq!(rt; both.next_joined(0, 2), None);
    assert_eq!(rt; both.next_standing(0, 1, 1, 0, 4), Some(2));
    assert_eq!(rt; both.joined_lines(1), 1);
    assert_eq!(rt; both.joined_lines(2), 0);
    Ok(())
}

// A view shows the listed lines under the numbers of their places; there is none of no lines, nor of over
// 128.
#[test]
fn view(rt: HostRuntime) -> Result<(), Fail> {
    let heap = rt.alloc();
    let record = TableRecord {
        first: 0,
        second: 2,
        start: 0,
    };
    let parts = Table {
        counts: &[2, 3, 4],
        records: &[record],
        words: &[3, 6],
    };
    let source = parts.source(heap)?;
    assert!(rt; View::new(&source, &[]).is_none());
    assert!(rt; View::new(&source, &[0; 129]).is_none());
    let shown = [2, 0];
    let view = View::new(&source, &shown).ok_or("no view of two lines")?;
    assert_eq!(rt; view.lines(), 2);
    assert!(rt; view.count(0) == 4 && view.count(1) == 2 && view.count(2) == 0);
    assert!(rt; view.joined(0, 1) && !view.joined(0, 2));
    assert!(rt; view.together(1, 0, 0, 1) && !view.together(1, 0, 0, 2));
    assert_eq!(rt; view.next_support(0, 2, 1, 0), Some(1));
    assert_eq!(rt; view.joined_lines(0), 2);
    Ok(())
}
