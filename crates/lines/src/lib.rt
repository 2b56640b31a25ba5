// The lines of a netlist text: what a text begins with, and the text behind it.
#![tactic(auto)]

pub mod fields; // fields.rt: bytes, digits, and a number with the byte behind it
pub mod sections; // sections.rt: the header, the lines of each section, and all lines of one
