// The desk program: a kind line and a netlist text on standard input, one line on standard output.
#![tactic(auto)]

// The numbers that the system gives to standard input and standard output.
const STANDARD_INPUT: i32 = 0;

const STANDARD_OUTPUT: i32 = 1;

fn main() {
    // One byte more than an input may have: what follows it changes nothing of the answer.
    let mut input = [0u8; 4097];
    let count = io::read_full(STANDARD_INPUT, &mut input);
    let line = desk::line(&input[..count]);
    let bytes = line.bytes;
    let len = line.len;
    io::write_all(STANDARD_OUTPUT, &bytes[..len]);
}
