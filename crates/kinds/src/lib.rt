// The kinds of rules between two values.
#![tactic(auto)]

pub mod kind;
pub mod values;
