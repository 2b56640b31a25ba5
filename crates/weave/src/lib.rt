// Two falling lists of terms woven into one: the terms of a store that do not hold a variable, and new ones.
#![tactic(auto)]

pub mod seeking; // seeking.rt: places among the terms of a store
pub mod weaving; // weaving.rt: the weave
