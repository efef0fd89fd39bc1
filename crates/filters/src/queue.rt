// Filtering by queue: all lines wait in order, the first is swept, and if something was struck, every
// line that it touches and that does not wait goes to the end.
ghost use Rattle.std.specs.Prelude.{◌≡◌, ℕ, ◌+◌, ◌^◌, ◌<◌, ◌≤◌, ◌&&◌, not, is_some, Some, None, MatchOption, length, nat_lt, slice_set};
ghost use Rattle.std.specs.Bool.{then_some};
ghost use Rattle.filters.specs.Filtering.{Filtered, Ran};
ghost use Rattle.filters.specs.Queues.{First, NoneWaits, UpTo, Woken, ticket};

use crate::ending::ended;
use crate::outcome::Outcome;
use crate::sweep::{Emptied, each_line_stands, sweep_line};
use levels::level::Level;
use std::array;

// A ticket for each line that there can be, while it waits.
type Tickets = [Option<u64>; 128];

// The tickets with which the first so many lines wait, in order.
fn in_order(lines: usize) -> Tickets
    ensures { (i : ℕ) → i < 128 → ticket result i ≡ then_some (nat_lt i lines) i }
{
    // Kept: std has no `From<usize>` for `u64`.
    array::from_fn(|i| (i < lines).then_some(i as u64))
}

// The lines that wait: the one with the least ticket is the first.
// Kept: tickets in an array of fixed size, since a filter asks for no memory.
#[derive(Drop)]
struct Queue {
    tickets: Tickets,
    // the last ticket that was given
    last: u64,
    // there is a place for each line, and no ticket is after the last
    ghost places: { length tickets ≡ 128 },
    ghost up_to: { UpTo tickets last },
}

impl Queue {
    // All lines wait, in order.
    fn of_all<L: Level>(level: &L) -> Self
        ensures wait { (i : ℕ) → i < (L.meaning level.now).lines → ticket result.tickets i ≡ Some i }
        ensures others { (i : ℕ) → (L.meaning level.now).lines ≤ i → ticket result.tickets i ≡ None }
        ensures last { result.last ≡ 127 }
    {
        Queue {
            tickets: in_order(level.lines()),
            last: 127,
        }
    }

    // The first line that waits: the one with the least ticket.
    // Kept: a loop; filter and min_by_key, filter_map and min, flatten and min were tried and not proved.
    fn first(&self) -> Option<usize>
        ensures { MatchOption result (NoneWaits self.now.tickets) (First self.now.tickets) }
    {
        let mut first = None;
        let mut least = u64::MAX;
        for (i, ticket) in self.tickets.iter().enumerate() {
            if let Some(t) = *ticket {
                // The least ticket may be the largest number itself.
                if t <= least {
                    first = Some(i);
                    least = t;
                }
            }
        }
        first
    }

    // Takes the first line that waits out of the queue.
    fn take_first(&mut self) -> Option<usize>
        ensures { MatchOption result (NoneWaits self.old.tickets) (λ i. First self.old.tickets i × (self.new.tickets ≡ slice_set self.old.tickets i None)) }
    {
        let line = self.first()?;
        self.tickets[line] = None;
        Some(line)
    }

    // Puts a line at the end. Each strike wakes at most 128 lines, so tickets do not run out; that is not
    // proved, and past the largest one all get that one.
    fn append(&mut self, line: usize)
        requires { line < 128 }
        ensures tickets { self.new.tickets ≡ slice_set self.old.tickets line (Some self.new.last) }
        ensures later { self.old.last ≤ self.new.last }
        ensures next { self.old.last + 1 < 2 ^ 64 → self.new.last ≡ self.old.last + 1 }
    {
        self.last = self.last.saturating_add(1);
        self.tickets[line] = Some(self.last);
    }

    // Whether line i wakes line j: it touches j, and j does not wait.
    fn wakes<L: Level>(&self, level: &L, i: usize, j: usize) -> bool
        requires { j < 128 }
        ensures { result ≡ (not (is_some (ticket self.now.tickets j)) && L.touching level.now i j) }
    {
        self.tickets[j].is_none() && level.touches(i, j)
    }

    // Wakes the lines that the line touches and that do not wait: they go to the end, by line number.
    fn wake<L: Level>(&mut self, level: &L, line: usize)
        ensures { Woken (L.meaning level.now).lines (L.touching level.now line) self.old.tickets self.new.tickets self.old.last self.new.last }
    {
        for j in 0..level.lines() {
            if self.wakes(level, line, j) {
                self.append(j);
            }
        }
    }
}

// Takes the first waiting line and sweeps it, until none waits or a line has no option left.
fn settle<L: Level>(level: &L, set: &mut [u64]) -> Result<(), Emptied>
    ensures { Ran (L.meaning level.now) (L.passing level.now) set.old set.new result }
{
    each_line_stands(level, set)?;
    let mut queue = Queue::of_all(level);
    while let Some(i) = queue.take_first() {
        if sweep_line(level, set, i)? {
            queue.wake(level, i);
        }
    }
    Ok(())
}

// Leaves the largest good subset of the set, and says whether an option of each line is left. Once a
// line has none left there is no plan, and every option is struck.
pub fn by_queue<L: Level>(level: &L, set: &mut [u64]) -> Outcome
    ensures { Filtered (L.meaning level.now) (L.passing level.now) set.old set.new result }
{
    ended(settle(level, set), level, set)
}
