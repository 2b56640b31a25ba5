// What the entry points answer where nothing is refused. specs/Says.antt has the number and the values of document 01 for each case.

// Of judging.
#[derive(Clone, Copy)]
pub enum Answer {
    Equal {
        steps: usize,
        terms: usize,
    },
    Differs {
        steps: usize,
        terms: usize,
        a: u64,
        b: u64,
        c: u64,
        got: u64,
        wanted: u64,
    },
    OutOfRoom {
        step: usize,
        terms: usize,
    },
    Unfinished {
        steps: usize,
        terms: usize,
    },
}

// In the log of the judge, for a step completed: its gate, the number of terms after it, and the number before like ones were gathered.
#[repr(C)]
#[derive(Clone, Copy)]
pub struct StepRecord {
    pub gate: u32,
    pub terms: u32,
    pub made: u32,
}

// Of the desk program: the bytes of its line, then zeros, and how many bytes the line has.
#[derive(Clone, Copy)]
pub struct Line {
    pub bytes: [u8; 151],
    pub len: usize,
}
