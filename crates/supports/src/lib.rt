// Rules compiled into words, from which every question of a source is answered at once.
#![tactic(auto)]

pub mod making;
pub mod parts;
pub mod questions;
pub mod supports;
