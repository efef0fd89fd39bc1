// Which levels are at least as strong as which: whatever passes at the one in any set passes at the other
// in it. A function that has no code names a theorem about the levels that it is given.
#![tactic(auto)]

pub mod leaving;
pub mod order;
