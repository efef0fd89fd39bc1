// The parts of a formula source, as they are handed in.

// A line: its options have the values from start on, count of them, in one run that all lines share.
#[derive(Clone, Copy, PartialEq, Eq, Debug)]
pub struct LineRecord {
    pub start: usize,
    pub count: usize,
}

// A rule, by the number of its kind, between a value of the first line and one of the second.
#[derive(Clone, Copy, PartialEq, Eq, Debug)]
pub struct RuleRecord {
    // Kept: a type that holds the five kinds alone would ask more of callers, and the check has to tell
    // the fault of any other number.
    pub kind: u8,
    pub first: usize,
    pub second: usize,
    pub k: i32,
    pub m: i32,
}

// The lines, the run of their values, and the rules.
#[derive(Clone, Copy)]
pub struct Formula<'a> {
    pub lines: &'a [LineRecord],
    pub values: &'a [i32],
    pub rules: &'a [RuleRecord],
}
