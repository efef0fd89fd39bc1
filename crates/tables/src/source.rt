// The table source.
ghost use Rattle.std.specs.Prelude.{◌≡◌, ◌+◌, IfOk, fold, slice_index};
ghost use Rattle.bits.specs.Bits.{on};
ghost use Rattle.tables.specs.Sound.{all_records};
ghost use Rattle.tables.specs.Faults.{table_fault};
ghost use Rattle.tables.specs.Tables.{record_allows, table_meaning, table_words};
ghost use Rattle.supports.specs.Adding.{adding_if, unruled};
ghost use Rattle.supports.specs.Held.{supports_meaning};

use crate::records::Table;
use bits::has;
use rules::fault::SourceFault;
use rules::parts::item_from;
use std::alloc::{AllocError, Global};
use supports::making::PairRule;
use supports::parts::Parts;
use supports::supports::Supports;

// A record with the table that it reads.
#[derive(Drop)]
struct RecordPair<'a> {
    words: &'a [u64],
    start: usize,
}

impl<'a> PairRule for RecordPair<'a> {
    ghost permits = { λ p a b. on (slice_index p.words.now (p.start + a)) b };

    fn allows(&self, a: usize, b: usize) -> bool {
        has(item_from(self.words, self.start, a, 0), b)
    }
}

impl<'a> Table<'a> {
    // The words without rules, and one record after the other added.
    // Kept: the loop of a formula's words once more, over pairs of its own.
    fn added(&self, heap: Global) -> Result<Supports, AllocError>
        ensures { IfOk result (λ s. supports_meaning s ≡ fold (adding_if (λ r. r.first) (λ r. r.second) (record_allows self.now.words.now)) (unruled self.now.counts.now) self.now.records.now) }
    {
        let mut all = Supports::free(heap, self.counts)?;
        for r in self.records {
            let pair = RecordPair {
                words: self.words,
                start: r.start,
            };
            all.add(r.first, r.second, &pair);
        }
        Ok(all)
    }
}

// A source of option counts, records and a table of words, compiled.
pub type TableSource = Supports;

impl<'a> Parts for Table<'a> {
    ghost fault = { λ x. table_fault x.counts.now x.records.now x.words.now };

    ghost meaning = { λ x. table_meaning x.counts.now x.records.now x.words.now };

    ghost compiled = { λ x. table_words x.counts.now x.records.now x.words.now };

    ghost faithful = { λ x. all_records x.counts.now x.records.now x.words.now };

    fn check(&self) -> Result<(), SourceFault> {
        let lines = self.counts.len();
        if lines == 0 || lines > 128 {
            return Err(SourceFault::Lines);
        }
        if let Some(line) = self.first_bad_count() {
            return Err(SourceFault::Span(line));
        }
        if self.records.len() > 2048 {
            return Err(SourceFault::Records);
        }
        if let Some(at) = self.first_bad_names() {
            return Err(SourceFault::Names(at));
        }
        if let Some(at) = self.first_bad_words() {
            return Err(SourceFault::Words(at));
        }
        Ok(())
    }

    fn compile(&self, heap: Global) -> Result<Supports, AllocError> {
        self.added(heap)
    }
}
