// Views: some lines of a rule source, as a rule source.
#![tactic(auto)]

pub mod view;
