// The parts of a table source, as they are handed in.

// A rule between two lines: its words are those from start on, one for each option of the first line; bit
// b of a word tells whether option b of the second line goes with that option.
#[derive(Clone, Copy, PartialEq, Eq, Debug)]
pub struct TableRecord {
    pub first: usize,
    pub second: usize,
    pub start: usize,
}

// The option count of each line, the records, and the table of words that all records share.
#[derive(Clone, Copy)]
pub struct Table<'a> {
    pub counts: &'a [usize],
    pub records: &'a [TableRecord],
    pub words: &'a [u64],
}
