// Terms in lent words of 64 bits: a coefficient, then the words of its set, the lowest first; variable v is bit v mod 64 of
// word v / 64. What is asked of them, how they are written, and the sums of coefficients modulo 2^l.
#![tactic(auto)]

pub mod coefficients;
pub mod listed;
pub mod sets;
pub mod stretches;
pub mod terms;
