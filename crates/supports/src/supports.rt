// A source in words: what formula and table sources are compiled into.
ghost use Rattle.model.specs.Words.{Compiled};
ghost use Rattle.supports.specs.Lines.{counts_of, joins_of};

// A line: its option count, and a word whose bit j tells whether line j is joined with it.
#[derive(Clone, Copy)]
pub(crate) struct Line {
    pub(crate) count: usize,
    pub(crate) joins: u128,
}

// Kept: a ghost field and no model; with a model the facts of a source would be asked of every meaning.
#[derive(Drop)]
pub struct Supports {
    pub(crate) lines: Vec<Line>,
    // the number of places that every line has: no option count is larger
    pub(crate) width: usize,
    // for option a of line i and the line j the word at (i * width + a) * lines + j, whose bit b tells
    // whether option b of line j goes with it; no bit is set of a line or an option that does not exist
    pub(crate) words: Vec<u64>,
    ghost good: { ∥ Compiled (counts_of lines.items) width (joins_of lines.items) words.items ∥₁ },
}
