// The five numbers of a netlist's header line, and the kind of record that its table has.
use crate::records::RecordKind;

#[derive(Clone, Copy)]
pub struct Counts {
    pub m: u32,
    pub i: u32,
    pub l: u32,
    pub o: u32,
    pub a: u32,
    pub records: RecordKind,
}
