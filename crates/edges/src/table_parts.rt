// Parts of a table source and of a joint source at the edges of each number.
use joint::check::check_joint;
use rules::fault::SourceFault;
use std::alloc::Global;
use std::test::Fail;
use supports::parts::Parts;
use tables::records::{Table, TableRecord};
use tables::source::TableSource;

// The source of the parts.
fn source(
    heap: Global,
    counts: &[usize],
    records: &[TableRecord],
    words: &[u64],
) -> Result<TableSource, SourceFault> {
    let parts = Table {
        counts,
        records,
        words,
    };
    parts.source(heap)
}

// The check of the parts.
fn check(counts: &[usize], records: &[TableRecord], words: &[u64]) -> Result<(), SourceFault> {
    let parts = Table {
        counts,
        records,
        words,
    };
    parts.check()
}

fn record(first: usize, second: usize, start: usize) -> TableRecord {
    TableRecord {
        first,
        second,
        start,
    }
}

#[test]
fn line_and_option_counts(rt: HostRuntime) -> Result<(), Fail> {
    for (n, expected) in [
        (0usize, Err(SourceFault::Lines)),
        (1, Ok(())),
        (128, Ok(())),
        (129, Err(SourceFault::Lines)),
    ] {
        let counts = vec![in rt.alloc(); 1usize; n]?;
        assert_eq!(rt; check(&counts, &[], &[]), expected);
    }
    assert_eq!(rt; check(&[1, 64], &[], &[]), Ok(()));
    assert_eq!(rt; check(&[1, 65], &[], &[]), Err(SourceFault::Span(1)));
    assert_eq!(rt; check(&[0, 65], &[], &[]), Err(SourceFault::Span(0)));
    Ok(())
}

#[test]
fn records(rt: HostRuntime) -> Result<(), Fail> {
    for (n, expected) in [(2048usize, Ok(())), (2049, Err(SourceFault::Records))] {
        let all = vec![in rt.alloc(); record(0, 1, 0); n]?;
        assert_eq!(rt; check(&[1, 1], &all, &[1]), expected);
    }
    assert_eq!(rt;
        check(&[1, 1], &[record(0, 1, 0), record(0, 2, 0)], &[1]),
        Err(SourceFault::Names(1))
    );
    assert_eq!(rt;
        check(&[1, 1], &[record(1, 1, 9)], &[1]),
        Err(SourceFault::Names(0))
    );
    Ok(())
}

// A record has a word for each option of its first line, and they end inside the table.
#[test]
fn words(rt: HostRuntime) {
    assert_eq!(rt; check(&[2, 3], &[record(0, 1, 1)], &[0, 0, 0]), Ok(()));
    assert_eq!(rt;
        check(&[2, 3], &[record(0, 1, 2)], &[0, 0, 0]),
        Err(SourceFault::Words(0))
    );
    assert_eq!(rt; check(&[2, 3], &[record(1, 0, 0)], &[0, 0, 0]), Ok(()));
    assert_eq!(rt;
        check(&[2, 3], &[record(0, 1, 0), record(1, 0, 1)], &[0, 0, 0]),
        Err(SourceFault::Words(1))
    );
    assert_eq!(rt;
        check(&[2, 3], &[record(0, 1, usize::MAX)], &[0, 0, 0]),
        Err(SourceFault::Words(0))
    );
}

// Two sources fit together if their option counts are equal on every line.
#[test]
fn joint_counts(rt: HostRuntime) -> Result<(), Fail> {
    let heap = rt.alloc();
    let one = source(heap, &[2, 3], &[], &[])?;
    let same = source(heap, &[2, 3], &[record(0, 1, 0)], &[7, 7])?;
    let other = source(heap, &[2, 4], &[], &[])?;
    let longer = source(heap, &[2, 3, 1], &[], &[])?;
    assert_eq!(rt; check_joint(&one, &same), Ok(()));
    assert_eq!(rt; check_joint(&one, &other), Err(SourceFault::Counts(1)));
    assert_eq!(rt; check_joint(&one, &longer), Err(SourceFault::Counts(2)));
    assert_eq!(rt; check_joint(&longer, &one), Err(SourceFault::Counts(2)));
    assert_eq!(rt; SourceFault::Counts(2).number(), 9);
    Ok(())
}
