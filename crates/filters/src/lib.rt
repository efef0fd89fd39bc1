// Filters: each leaves the largest good subset of an option set, at any level.
#![tactic(auto)]

mod ending;
pub mod outcome;
pub mod queue;
pub mod rounds;
mod sweep;
pub mod theorems;
