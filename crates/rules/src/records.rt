// What a table has for each of its gates. specs/Netlist.antt says when a record is sound and what it reads, specs/Values.antt what it shows.

// The kind of record, named by whoever hands the table in.
#[derive(Clone, Copy)]
pub enum RecordKind {
    Gates,
    Cells,
}

// One record: the two literals of an AND gate, or the truth byte and the three variables of a lookup cell.
#[derive(Clone, Copy)]
pub enum Record {
    Gate {
        x: u32,
        y: u32,
    },
    Cell {
        byte: u32,
        x1: u32,
        x2: u32,
        x3: u32,
    },
}
