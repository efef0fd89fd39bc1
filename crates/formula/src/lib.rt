// The formula source: lines of values, and rules between them by formulas.
#![tactic(auto)]

pub mod check;
pub mod records;
pub mod source;
