// The joint source: two sources of equal option counts as one.
#![tactic(auto)]

pub mod check;
pub mod source;
