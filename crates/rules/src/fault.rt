// Why the parts of a source do not make one, with the first line or record concerned.
ghost use Rattle.std.specs.Prelude.{◌≡◌, Some};
ghost use Rattle.rules.specs.Faults.{concerned, number, refusal};
ghost use Rattle.rules.specs.declared.fault.SourceFault.TheVariants.{Memory};

use std::alloc::AllocError;
use std::error::Error;
use std::fmt;

#[derive(Clone, Copy, PartialEq, Eq, Debug)]
pub enum SourceFault {
    // 0 or over 128 lines
    Lines,
    // the line has 0 or over 64 options, or its values end outside the run
    Span(usize),
    // the values of the line are out of range or do not rise
    Values(usize),
    // over 2,048 records
    Records,
    // the record names a missing line, or one line twice
    Names(usize),
    // the kind of the record is not 1 to 5
    Kind(usize),
    // k or m of the record is out of range
    Range(usize),
    // the words of the record end outside the table
    Words(usize),
    // two sources have different option counts on the line
    Counts(usize),
    // there is no memory for the compiled words
    Memory,
}

impl SourceFault {
    // The returned number of the fault.
    // Kept: refusals are told by number, so every number stands here and in the contract.
    pub fn number(self) -> u8
        ensures { result ≡ number self }
    {
        match self {
            SourceFault::Lines => 1,
            SourceFault::Span(_) => 2,
            SourceFault::Values(_) => 3,
            SourceFault::Records => 4,
            SourceFault::Names(_) => 5,
            SourceFault::Kind(_) => 6,
            SourceFault::Range(_) => 7,
            SourceFault::Words(_) => 8,
            SourceFault::Counts(_) => 9,
            SourceFault::Memory => 24,
        }
    }

    // The first line or record concerned; 0 where there is none.
    pub fn concerned(self) -> usize
        ensures { result ≡ concerned self }
    {
        match self {
            SourceFault::Lines | SourceFault::Records | SourceFault::Memory => 0,
            SourceFault::Span(line) | SourceFault::Values(line) | SourceFault::Counts(line) => line,
            SourceFault::Names(record)
            | SourceFault::Kind(record)
            | SourceFault::Range(record)
            | SourceFault::Words(record) => record,
        }
    }
}

// Its number, a blank and the line or record concerned.
impl fmt::Display for SourceFault {
    ghost output = { λ fault. Some (refusal fault) };

    fn fmt<W: fmt::Write>(&self, f: &mut fmt::Formatter<W>) -> fmt::Result {
        let number = self.number();
        let concerned = self.concerned();
        write!(f, "{number} {concerned}")
    }
}

impl Error for SourceFault {}

impl From<AllocError> for SourceFault {
    ghost from_gives = { λ _ fault. fault ≡ Memory };

    fn from(_e: AllocError) -> Self {
        Self::Memory
    }
}
