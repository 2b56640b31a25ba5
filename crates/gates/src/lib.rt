// A gate as what the streams of a step need to know of it: its polynomial brought apart, then the multipliers and the masks.
#![tactic(auto)]

pub mod subsets; // subsets.rt: which of a gate's variables a subset has
pub mod apart; // apart.rt: the coefficients of a record, over variables of which none stands twice
pub mod making; // making.rt: how many terms a row of coefficients makes of one
pub mod multipliers; // multipliers.rt: what a stream takes of a coefficient
pub mod masks; // masks.rt: what a stream changes in a set
