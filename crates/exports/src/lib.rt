// The entry points for C and Rust hosts, on numbers and slices. include/hraskell.h has their prototypes.
#![tactic(auto)]

pub mod blocks; // blocks.rt: the block that a host hands over
pub mod evaluating; // evaluating.rt: hraskell_evaluate
pub mod giving; // giving.rt: numbers, and values in front of what a host lends
pub mod judging; // judging.rt: hraskell_judge
pub mod reading; // reading.rt: hraskell_read
