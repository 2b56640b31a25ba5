// A step of a polynomial in lent words, which replaces a gate by what its record stands for: what becomes of the terms that
// hold the gate is merged from sorted streams, and woven into the others.
#![tactic(auto)]

pub mod step; // step.rt: a step
mod settling; // settling.rt: the new terms and the others put together in the store
