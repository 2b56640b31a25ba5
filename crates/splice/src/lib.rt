// A few new terms put into a store in place: what stands there is moved once, to where it belongs.
#![tactic(auto)]

pub mod splicing; // splicing.rt: all new terms, one behind the other
mod spots; // spots.rt: where a new term goes
mod writing; // writing.rt: a term written
