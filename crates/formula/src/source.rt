// The formula source.
ghost use Rattle.std.specs.Prelude.{◌≡◌, ◌+◌, get_or, pos, IfOk, fold, slice_index_or};
ghost use Rattle.formula.specs.Faults.{formula_fault};
ghost use Rattle.formula.specs.Formulas.{allowed_if, counts_of, formula_meaning, formula_words, no_line, rule_allows};
ghost use Rattle.formula.specs.Sound.{all_rules};
ghost use Rattle.supports.specs.Adding.{adding_if, unruled};
ghost use Rattle.supports.specs.Held.{supports_meaning};

use crate::records::{Formula, LineRecord, RuleRecord};
use kinds::kind::Kind;
use rules::fault::SourceFault;
use rules::parts::{item_from, item_or};
use std::alloc::{AllocError, Global};
use supports::making::PairRule;
use supports::parts::Parts;
use supports::supports::Supports;

// Whether a rule of the kind, if there is one, allows the values x and y.
fn is_allowed(kind: Option<Kind>, k: i32, m: i32, x: i32, y: i32) -> bool
    ensures { result ≡ allowed_if kind k m x y }
{
    kind.is_some_and(|kind| kind.allows(k, m, x, y))
}

// A rule with the values of the two lines that it names.
#[derive(Drop)]
struct RulePair<'a> {
    values: &'a [i32],
    kind: Option<Kind>,
    k: i32,
    m: i32,
    from: usize,
    to: usize,
}

impl<'a> PairRule for RulePair<'a> {
    ghost permits = { λ p a b. allowed_if p.kind p.k p.m (slice_index_or p.values.now (p.from + a) (pos 0)) (slice_index_or p.values.now (p.to + b) (pos 0)) };

    fn allows(&self, a: usize, b: usize) -> bool {
        let x = item_from(self.values, self.from, a, 0);
        let y = item_from(self.values, self.to, b, 0);
        is_allowed(self.kind, self.k, self.m, x, y)
    }
}

impl<'a> Formula<'a> {
    // The option counts of the lines.
    fn counts(&self, heap: Global) -> Result<Vec<usize>, AllocError>
        ensures { IfOk result (λ v. v.items ≡ counts_of self.now.lines.now) }
    {
        self.lines.iter().map(|l| l.count).collect(heap)
    }

    // Where the values of a line start; 0 for a missing line.
    fn start_of(&self, line: usize) -> usize
        ensures { result ≡ (get_or self.now.lines.now line no_line).start }
    {
        item_or(self.lines, line, LineRecord { start: 0, count: 0 }).start
    }

    // Adds a rule to the words, if its lines exist and differ.
    fn add(&self, words: &mut Supports, rule: RuleRecord)
        ensures { supports_meaning words.new ≡ adding_if (λ r. r.first) (λ r. r.second) (rule_allows self.now.lines.now self.now.values.now) (supports_meaning words.old) rule }
    {
        let pair = RulePair {
            values: self.values,
            kind: Kind::numbered(rule.kind),
            k: rule.k,
            m: rule.m,
            from: self.start_of(rule.first),
            to: self.start_of(rule.second),
        };
        words.add(rule.first, rule.second, &pair);
    }

    // The words without rules, and one rule after the other added.
    // Kept: the loop of a table's words once more, over pairs of its own.
    fn added(&self, heap: Global) -> Result<Supports, AllocError>
        ensures { IfOk result (λ s. supports_meaning s ≡ fold (adding_if (λ r. r.first) (λ r. r.second) (rule_allows self.now.lines.now self.now.values.now)) (unruled (counts_of self.now.lines.now)) self.now.rules.now) }
    {
        let counts = self.counts(heap)?;
        let mut words = Supports::free(heap, &counts)?;
        for r in self.rules {
            self.add(&mut words, *r);
        }
        Ok(words)
    }
}

// A source of lines of values and rules between them, compiled.
pub type FormulaSource = Supports;

impl<'a> Parts for Formula<'a> {
    ghost fault = { λ x. formula_fault x.lines.now x.values.now x.rules.now };

    ghost meaning = { λ x. formula_meaning x.lines.now x.values.now x.rules.now };

    ghost compiled = { λ x. formula_words x.lines.now x.values.now x.rules.now };

    ghost faithful = { λ x. all_rules x.lines.now x.values.now x.rules.now };

    fn check(&self) -> Result<(), SourceFault> {
        let lines = self.lines.len();
        if lines == 0 || lines > 128 {
            return Err(SourceFault::Lines);
        }
        if let Some(line) = self.first_bad_span() {
            return Err(SourceFault::Span(line));
        }
        if let Some(line) = self.first_bad_values() {
            return Err(SourceFault::Values(line));
        }
        if self.rules.len() > 2048 {
            return Err(SourceFault::Records);
        }
        if let Some(at) = self.first_bad_names() {
            return Err(SourceFault::Names(at));
        }
        if let Some(at) = self.first_bad_kind() {
            return Err(SourceFault::Kind(at));
        }
        if let Some(at) = self.first_bad_range() {
            return Err(SourceFault::Range(at));
        }
        Ok(())
    }

    fn compile(&self, heap: Global) -> Result<Supports, AllocError> {
        self.added(heap)
    }
}
