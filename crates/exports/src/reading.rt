// Reading a netlist text.
ghost use Rattle.exports.specs.Exported.{ReadGiven};

use crate::giving::{put, refused};
use rules::refusals::Refusal;

// 0 and the counts M, I, L, O, A, with the table filled, or 100 plus the refusal; 112 where there is no room for five counts.
#[unsafe(no_mangle)]
pub extern "C" fn hraskell_read(text: &[u8], table: &mut [u32], counts: &mut [u32]) -> u32
    ensures { ReadGiven text.now table.old counts.old result table.new counts.new }
{
    if counts.len() < 5 {
        return refused(Refusal::ShortBuffer);
    }
    match aiger::read(text, table) {
        Err(refusal) => refused(refusal),
        Ok(c) => {
            put(&[c.m, c.i, c.l, c.o, c.a], counts);
            0
        }
    }
}
