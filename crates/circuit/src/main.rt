// A league circuit of eight lanes. Each lane has a line for its grade, in quarter steps, and a line for
// its hold colour. Rules of all five kinds tie the lanes; the filter strikes what no plan can have.
#![tactic(auto)]

use filters::outcome::Outcome;
use filters::rounds::by_rounds;
use formula::records::{Formula, LineRecord, RuleRecord};
use formula::source::FormulaSource;
use kinds::kind::Kind;
use levels::arc::Arc;
use levels::words::word;
use rules::fault::SourceFault;
use rules::source::RuleSource;
use std::alloc::Global;
use std::fmt;
use std::ops::Range;
use supports::parts::Parts;

const LANES: usize = 8;

const LINES: usize = 16;

// Grades from 4.00 to 8.00 in quarters, then six colours.
const VALUES: [i32; 23] = [
    16, 17, 18, 19, 20, 21, 22, 23, 24, 25, 26, 27, 28, 29, 30, 31, 32, 0, 1, 2, 3, 4, 5,
];

const GRADE: LineRecord = LineRecord {
    start: 0,
    count: 17,
};

const COLOUR: LineRecord = LineRecord {
    start: 17,
    count: 6,
};

fn rule(kind: Kind, first: usize, second: usize, k: i32, m: i32) -> RuleRecord {
    RuleRecord {
        kind: u8::from(kind),
        first,
        second,
        k,
        m,
    }
}

// Lines 0 to 7 are the grades of lanes 1 to 8, lines 8 to 15 their colours.
fn circuit(heap: Global, rules: &[RuleRecord]) -> Result<FormulaSource, SourceFault> {
    let mut lines = [GRADE; LINES];
    lines[LANES..].fill(COLOUR);
    let parts = Formula {
        lines: &lines,
        values: &VALUES,
        rules,
    };
    parts.source(heap)
}

fn rules() -> [RuleRecord; 19] {
    [
        // lane 2 is at least half a grade harder than lane 1
        rule(Kind::After, 0, 1, 2, 0),
        // lane 3 is one step of a whole grade up from lane 2, and lane 4 one down from lane 3
        rule(Kind::Step, 2, 1, 1, 4),
        rule(Kind::Step, 3, 2, -1, 4),
        // lane 5 is a grade harder than lane 4, or one and a half easier
        rule(Kind::Either, 3, 4, 4, 6),
        // lane 6 is on the step of lane 5, and lane 7 two steps down from lane 6
        rule(Kind::Step, 5, 4, 0, 4),
        rule(Kind::Step, 6, 5, -2, 4),
        // lanes 1 and 8 are three and a half grades apart, and lane 8 is harder than lane 3
        rule(Kind::Exact, 0, 7, 14, 0),
        rule(Kind::After, 2, 7, 2, 0),
        // lanes 2 and 6 are a grade apart or more
        rule(Kind::Apart, 1, 5, 3, 0),
        // neighbours differ in colour
        rule(Kind::Apart, 8, 9, 0, 0),
        rule(Kind::Apart, 9, 10, 0, 0),
        rule(Kind::Apart, 10, 11, 0, 0),
        rule(Kind::Apart, 11, 12, 0, 0),
        rule(Kind::Apart, 12, 13, 0, 0),
        rule(Kind::Apart, 13, 14, 0, 0),
        rule(Kind::Apart, 14, 15, 0, 0),
        // lanes 1 and 5 share a colour, lanes 4 and 8 are three colours apart, lanes 2 and 6 two or more
        rule(Kind::Exact, 8, 12, 0, 0),
        rule(Kind::Exact, 11, 15, 3, 0),
        rule(Kind::Apart, 9, 13, 1, 0),
    ]
}

// What the setters call a line: the grade or the colour of a lane.
#[derive(Clone, Copy)]
struct Name(usize);

impl fmt::Display for Name {
    fn fmt<W: fmt::Write>(&self, f: &mut fmt::Formatter<W>) -> fmt::Result {
        let line = self.0;
        if line < LANES {
            write!(f, "grade {}", line + 1)
        } else {
            write!(f, "colour {}", line - LANES + 1)
        }
    }
}

// A rule in words.
#[derive(Clone, Copy)]
struct Words(RuleRecord);

impl fmt::Display for Words {
    fn fmt<W: fmt::Write>(&self, f: &mut fmt::Formatter<W>) -> fmt::Result {
        let RuleRecord {
            kind,
            first,
            second,
            k,
            m,
        } = self.0;
        let x = Name(first);
        let y = Name(second);
        match Kind::try_from(kind) {
            Ok(Kind::Apart) => write!(f, "{x} and {y} are more than {k} apart"),
            Ok(Kind::Exact) => write!(f, "{x} and {y} are {k} apart"),
            Ok(Kind::After) => write!(f, "{x} + {k} <= {y}"),
            Ok(Kind::Either) => write!(f, "{x} + {k} <= {y}, or {y} + {m} <= {x}"),
            Ok(Kind::Step) => write!(f, "({x} - {y}) / {m}, rounded down, is {k}"),
            Err(_) => write!(f, "no rule"),
        }
    }
}

// All options stand but those that the setters have ruled out: lane 1 is at most 5.00 and red or green,
// and lane 4 is red, orange or yellow.
fn opened() -> [u64; LINES] {
    let all = (1 << 17) - 1;
    [
        31, all, all, all, all, all, all, all, 9, 63, 63, 7, 63, 63, 63, 63,
    ]
}

// How many options stand.
// Kept: two lines of std, once in each program; `sum` would leave the bound of the count open.
fn standing(set: &[u64; LINES]) -> u32 {
    set.iter()
        .fold(0, |n, word| n.saturating_add(word.count_ones()))
}

// The options of a line: a mark for each, which says whether it stands.
#[derive(Clone, Copy)]
struct Marks {
    word: u64,
    count: usize,
}

impl fmt::Display for Marks {
    fn fmt<W: fmt::Write>(&self, f: &mut fmt::Formatter<W>) -> fmt::Result {
        for a in 0..self.count {
            f.write_str(if bits::has(self.word, a) { "#" } else { "." })?;
        }
        Ok(())
    }
}

// The lanes' lines of one sort, before and after.
fn print_lanes(
    rt: &HostRuntime,
    source: &FormulaSource,
    before: &[u64; LINES],
    after: &[u64; LINES],
    lines: Range<usize>,
) -> anyhow::Result<()> {
    for (i, line) in lines.enumerate() {
        let lane = i + 1;
        let count = source.count(line);
        let was = Marks {
            word: word(before, line),
            count,
        };
        let is = Marks {
            word: word(after, line),
            count,
        };
        let struck = was.word.count_ones().saturating_sub(is.word.count_ones());
        println!(rt; "  lane {lane}   {was}   {is}   {struck:>2} struck")?;
    }
    Ok(())
}

// Filters the set by rounds at arc, and prints it before and after.
fn filter(rt: &HostRuntime, source: &FormulaSource, before: &[u64; LINES]) -> anyhow::Result<()> {
    let mut after = *before;
    let outcome = by_rounds(&Arc { source }, &mut after);
    println!(rt; "  grade    4   5   6   7   8   4   5   6   7   8")?;
    print_lanes(rt, source, before, &after, 0..LANES)?;
    println!(rt; "  colour   roygbv   roygbv")?;
    print_lanes(rt, source, before, &after, LANES..LINES)?;
    let stood = standing(before);
    let left = standing(&after);
    let struck = stood.saturating_sub(left);
    match outcome {
        Outcome::Settled => println!(rt;
            "settled: {struck} of {stood} options struck, {left} stand"
        )?,
        Outcome::NoPlan => println!(rt; "no plan: all {stood} options struck")?,
    }
    Ok(())
}

fn run(rt: &HostRuntime) -> anyhow::Result<()> {
    let rules = rules();
    let source = match circuit(rt.alloc(), &rules) {
        Ok(source) => source,
        Err(fault) => {
            println!(rt; "refused {fault}")?;
            return Ok(());
        }
    };
    let lines = source.lines();
    println!(rt;
        "A league circuit of {LANES} lanes, {lines} lines. In quarter grades and colours:"
    )?;
    for r in &rules {
        println!(rt; "  {}", Words(*r))?;
    }
    let mut set = opened();
    println!(rt; "\nFiltered by rounds at arc, before and after:")?;
    filter(rt, &source, &set)?;
    println!(rt; "\nThe same with lane 8 at 7.00 or below:")?;
    set[7] = (1 << 13) - 1;
    filter(rt, &source, &set)
}

fn main(rt: HostRuntime) -> anyhow::Result<()> {
    run(&rt)
}
