// Rule sources: which lines are joined, and which of their options go together.
#![tactic(auto)]

pub mod fault;
pub mod lent;
pub mod parts;
pub mod source;
