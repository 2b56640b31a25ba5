// What becomes of the terms that hold a gate: four or eight sorted streams, merged into one list of terms.
#![tactic(auto)]

mod heads; // heads.rt: the largest set at the heads of the streams
pub mod merging; // merging.rt: the merge
pub mod streams; // streams.rt: the terms of a stream
