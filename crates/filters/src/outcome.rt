// How a filter ends.
// Kept: no `Result`, since no plan is an answer and no error.
#[derive(Clone, Copy, PartialEq, Eq, Debug)]
pub enum Outcome {
    // every line has an option left, and all that is left passes
    Settled,
    // no option is left, and the set held no plan
    NoPlan,
}
