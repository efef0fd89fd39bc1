// What can be wrong with a line or a record of a table source, and where it is first.
ghost use Rattle.std.specs.Prelude.{◌≡◌, length, position};
ghost use Rattle.tables.specs.Faults.{bad_count, bad_names, bad_words};

use crate::records::{Table, TableRecord};
use rules::parts::{ends_inside, item_or, names_two};

// Whether a line has 0 or over 64 options.
fn is_bad_count(count: usize) -> bool
    ensures { result ≡ bad_count count }
{
    !(0 < count && count <= 64)
}

// Whether the words of a record end outside the table of so many.
fn has_bad_words(counts: &[usize], len: usize, r: TableRecord) -> bool
    ensures { result ≡ bad_words counts.now len r }
{
    !ends_inside(r.start, item_or(counts, r.first, 0), len)
}

impl<'a> Table<'a> {
    // The first line with 0 or over 64 options.
    pub(crate) fn first_bad_count(&self) -> Option<usize>
        ensures { result ≡ position bad_count self.now.counts.now }
    {
        self.counts.iter().position(|c| is_bad_count(*c))
    }

    // The first record that names a missing line, or one line twice.
    // Kept: a formula searches its rules so too; a bound for what names two lines would be longer than both.
    pub(crate) fn first_bad_names(&self) -> Option<usize>
        ensures { result ≡ position (bad_names (length self.now.counts.now)) self.now.records.now }
    {
        let lines = self.counts.len();
        self.records
            .iter()
            .position(|r| !names_two(lines, r.first, r.second))
    }

    // The first record whose words end outside the table.
    pub(crate) fn first_bad_words(&self) -> Option<usize>
        ensures { result ≡ position (bad_words self.now.counts.now (length self.now.words.now)) self.now.records.now }
    {
        let counts = self.counts;
        let len = self.words.len();
        self.records
            .iter()
            .position(|r| has_bad_words(counts, len, *r))
    }
}
