// Filters a wall from a file by queue at singleton over arc, and tells what is left. With a second
// argument it runs so many times and tells the least time of a run, in microseconds.
//
// The file has whole numbers: how many lines, how many options each of them has, how many rules; then for
// each rule its first line, its second line and one word for each option of the first line, whose bit b is
// set if it goes with option b of the second.
#![tactic(auto)]

use bits::ones;
use filters::outcome::Outcome;
use filters::queue::by_queue;
use filters::theorems::OptionSet;
use levels::arc::Arc;
use rules::fault::SourceFault;
use rules::source::RuleSource;
use singleton::Singleton;
use std::alloc::{AllocError, Global};
use std::time::Instant;
use std::{array, env, fs, slice};
use supports::parts::Parts;
use tables::records::{Table, TableRecord};
use tables::source::TableSource;

// What the file says of a wall, before it is checked.
#[derive(Drop)]
struct Wall {
    counts: Vec<usize>,
    records: Vec<TableRecord>,
    table: Vec<u64>,
}

// The numbers of the text.
fn numbers(heap: Global, text: &str) -> anyhow::Result<Vec<u64>> {
    text.split_whitespace()
        .map(|word| -> anyhow::Result<u64> { Ok(word.parse::<u64>()?) })
        .try_collect(heap)
}

// The next of the numbers; what is missing is 0.
fn next(left: &mut slice::Iter<'_, u64>) -> u64 {
    left.next().copied().unwrap_or(0)
}

// The wall of the numbers.
fn parts_of(heap: Global, numbers: &[u64]) -> Result<Wall, AllocError> {
    let mut left = numbers.iter();
    // Kept: both types have 64 bits, so `try_from` would add a refusal that never comes.
    let lines = next(&mut left) as usize;
    let options = next(&mut left) as usize;
    let rules = next(&mut left);
    let mut records = Vec::new(heap);
    let mut table = Vec::new(heap);
    for _ in 0..rules {
        records.push(TableRecord {
            first: next(&mut left) as usize,
            second: next(&mut left) as usize,
            start: table.len(),
        })?;
        for _ in 0..options {
            table.push(next(&mut left))?;
        }
    }
    Ok(Wall {
        counts: vec![in heap; options; lines]?,
        records,
        table,
    })
}

// All options of the source.
fn opened<S: RuleSource>(source: &S) -> OptionSet {
    array::from_fn(|line| ones(source.count(line)))
}

// How many options stand.
// Kept: two lines of std, once in each program; `sum` would leave the bound of the count open.
fn standing(set: &OptionSet) -> u32 {
    set.iter()
        .fold(0, |n, word| n.saturating_add(word.count_ones()))
}

// One run, and how long it took.
fn run(
    rt: &HostRuntime,
    source: &TableSource,
    set: &mut OptionSet,
) -> anyhow::Result<(Outcome, u128)> {
    let level = Singleton {
        below: Arc { source },
    };
    let start = Instant::now(rt)?;
    let outcome = by_queue(&level, set);
    Ok((outcome, start.elapsed(rt)?.as_micros()))
}

// Runs so often, and prints what is left and, if there is a time, the least one.
fn filter(rt: &HostRuntime, source: &TableSource, runs: Option<u32>) -> anyhow::Result<()> {
    let mut set = opened(source);
    let (outcome, mut least) = run(rt, source, &mut set)?;
    for _ in 1..runs.unwrap_or(1) {
        let mut again = opened(source);
        let (_, time) = run(rt, source, &mut again)?;
        least = least.min(time);
    }
    // Kept: two words in one place; a `Display` would be a public promise of the library for them alone.
    let how = match outcome {
        Outcome::Settled => "settled",
        Outcome::NoPlan => "no plan",
    };
    let left = standing(&set);
    println!(rt; "{how}, {left} options left")?;
    for word in set.iter().take(source.lines()) {
        print!(rt; "{word:x} ")?;
    }
    println!(rt; "")?;
    if runs.is_some() {
        println!(rt; "{least}")?;
    }
    Ok(())
}

// The file's name and how often to run, from the arguments.
fn arguments(rt: &HostRuntime) -> anyhow::Result<(String, Option<u32>)> {
    let mut words = env::args(rt)?.skip(1);
    // Kept: the default asks for memory; a `map_or_else` with `Ok` and `?` around it reads less plainly.
    let file = match words.next() {
        Some(name) => name,
        None => String::from_str(rt.alloc(), "wall.txt")?,
    };
    let runs = words.next().map(|n| n.as_str().parse::<u32>()).transpose()?;
    Ok((file, runs))
}

fn refused(rt: &HostRuntime, fault: SourceFault) -> anyhow::Result<()> {
    println!(rt; "refused {fault}")?;
    Ok(())
}

fn timed(rt: &HostRuntime) -> anyhow::Result<()> {
    let heap = rt.alloc();
    let (file, runs) = arguments(rt)?;
    let text = fs::read_to_string(rt, file.as_str())?;
    let all = numbers(heap, text.as_str())?;
    let wall = parts_of(heap, &all)?;
    let table = Table {
        counts: &wall.counts,
        records: &wall.records,
        words: &wall.table,
    };
    if let Err(fault) = table.check() {
        return refused(rt, fault);
    }
    match table.source(heap) {
        Ok(source) => filter(rt, &source, runs),
        Err(fault) => refused(rt, fault),
    }
}

fn main(rt: HostRuntime) -> anyhow::Result<()> {
    timed(&rt)
}
