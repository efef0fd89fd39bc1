// The parts of a source, as they are handed in: their check, their words, and the source that they make.
ghost use Rattle.std.specs.Prelude.{◌≡◌, Bool, IfOk, MatchResult};
ghost use Rattle.model.specs.Meaning.{Meaning};
ghost use Rattle.rules.specs.Faults.{FirstFault, Makes, Sound};
ghost use Rattle.rules.specs.declared.fault.SourceFault.{SourceFault};
ghost use Rattle.rules.specs.declared.fault.SourceFault.TheVariants.{Memory};
ghost use Rattle.supports.specs.Held.{supports_meaning};

use crate::supports::Supports;
use rules::fault::SourceFault;
use std::alloc::{AllocError, Global};

pub trait Parts {
    // Which faults they have.
    ghost fault: { Self → SourceFault → Bool };

    // What they mean where they have no fault.
    ghost meaning: { Self → Meaning };

    // What their words mean, whether they have a fault or not.
    ghost compiled: { Self → Meaning };

    // The words of parts without a fault mean what the parts mean.
    ghost faithful: { (x : Self) → Sound (fault x) → compiled x ≡ meaning x };

    // The first fault of the parts: the one with the smallest number, at the first line or record that
    // has it.
    fn check(&self) -> Result<(), SourceFault>
        ensures { FirstFault (fault self.now) result };

    // The words of the parts, whether they have a fault or not.
    fn compile(&self, heap: Global) -> Result<Supports, AllocError>
        ensures { IfOk result (λ s. supports_meaning s ≡ compiled self.now) };

    // The source of these parts, or the bare source where the check refuses them.
    fn source(&self, heap: Global) -> Result<Supports, SourceFault>
        ensures { MatchResult result (λ s. Makes (fault self.now) (meaning self.now) (supports_meaning s)) (λ e. e ≡ Memory) }
    {
        Ok(match self.check() {
            Ok(()) => self.compile(heap)?,
            Err(_) => Supports::bare(heap)?,
        })
    }
}
