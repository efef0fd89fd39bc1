// The table source: option counts, and rules between lines by tables of words.
#![tactic(auto)]

pub mod check;
pub mod records;
pub mod source;
