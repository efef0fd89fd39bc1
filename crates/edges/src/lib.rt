// Tests alone: parts of sources at the edges of each rule, the questions of a source, and the levels and
// filters on small walls.
#![tactic(auto)]

#[cfg(test)]
mod above_arc;
#[cfg(test)]
mod filtering;
#[cfg(test)]
mod formulas;
#[cfg(test)]
mod own_source;
#[cfg(test)]
mod questions;
#[cfg(test)]
mod table_parts;
