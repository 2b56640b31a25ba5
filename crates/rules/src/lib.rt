// The types that every floor shares. What they mean is in specs/.
#![tactic(auto)]

pub mod answers; // answers.rt: what each entry point may answer, where it refuses nothing
pub mod counts; // counts.rt: the five numbers of a netlist's header, and the kind of record
pub mod limits; // limits.rt: the least and the most of what is taken, and the maker that refuses the rest
pub mod records; // records.rt: what a table has for each gate
pub mod refusals; // refusals.rt: why what is handed in is refused
