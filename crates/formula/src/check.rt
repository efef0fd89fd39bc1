// What can be wrong with a line or a rule of a formula source, and where it is first.
ghost use Rattle.std.specs.Prelude.{◌≡◌, length, negsuc, position};
ghost use Rattle.formula.specs.Faults.{bad_kind, bad_names, bad_range, bad_span, bad_values, rising};

use crate::records::{Formula, LineRecord, RuleRecord};
use kinds::kind::Kind;
use rules::parts::{ends_inside, names_two};

// Whether the values rise and lie from -1,000,000 to 1,000,000.
// Kept: one pass; `is_sorted_by` and `all` over a range would be two, and no shorter.
fn rises(values: &[i32]) -> bool
    ensures { result ≡ rising (negsuc 1000000) values.now }
{
    let mut low = -1_000_001;
    for v in values {
        if *v <= low || *v > 1_000_000 {
            return false;
        }
        low = *v;
    }
    true
}

// Whether the line has 0 or over 64 options, or its values end outside a run of len.
fn has_bad_span(len: usize, l: LineRecord) -> bool
    ensures { result ≡ bad_span len l }
{
    !(0 < l.count && l.count <= 64 && ends_inside(l.start, l.count, len))
}

// Whether the values of the line are out of range or do not rise.
fn has_bad_values(values: &[i32], l: LineRecord) -> bool
    ensures { result ≡ bad_values values.now l }
{
    if has_bad_span(values.len(), l) {
        return false;
    }
    !rises(&values[l.start..l.start + l.count])
}

// Whether the kind of the rule is not 1 to 5.
fn has_bad_kind(r: RuleRecord) -> bool
    ensures { result ≡ bad_kind r }
{
    Kind::numbered(r.kind).is_none()
}

// Whether k or m of the rule is out of the range of its kind.
fn has_bad_range(r: RuleRecord) -> bool
    ensures { result ≡ bad_range r }
{
    Kind::numbered(r.kind).is_some_and(|kind| !kind.takes(r.k, r.m))
}

impl<'a> Formula<'a> {
    // The first line whose span is bad.
    pub(crate) fn first_bad_span(&self) -> Option<usize>
        ensures { result ≡ position (bad_span (length self.now.values.now)) self.now.lines.now }
    {
        let len = self.values.len();
        self.lines.iter().position(|l| has_bad_span(len, *l))
    }

    // The first line whose values are out of range or do not rise.
    pub(crate) fn first_bad_values(&self) -> Option<usize>
        ensures { result ≡ position (bad_values self.now.values.now) self.now.lines.now }
    {
        let values = self.values;
        self.lines.iter().position(|l| has_bad_values(values, *l))
    }

    // The first rule that names a missing line, or one line twice.
    // Kept: a table searches its records so too; a bound for what names two lines would be longer than both.
    pub(crate) fn first_bad_names(&self) -> Option<usize>
        ensures { result ≡ position (bad_names (length self.now.lines.now)) self.now.rules.now }
    {
        let lines = self.lines.len();
        self.rules
            .iter()
            .position(|r| !names_two(lines, r.first, r.second))
    }

    // The first rule whose kind is not 1 to 5.
    pub(crate) fn first_bad_kind(&self) -> Option<usize>
        ensures { result ≡ position bad_kind self.now.rules.now }
    {
        self.rules.iter().position(|r| has_bad_kind(*r))
    }

    // The first rule whose k or m is out of the range of its kind.
    pub(crate) fn first_bad_range(&self) -> Option<usize>
        ensures { result ≡ position bad_range self.now.rules.now }
    {
        self.rules.iter().position(|r| has_bad_range(*r))
    }
}
