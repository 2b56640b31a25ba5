// Evaluating one operand pair.
ghost use Rattle.exports.specs.Exported.{named, EvaluateGiven};

use crate::giving::{put, refused};
use rules::refusals::Refusal;

// 0 and the word that the outputs show for the operands x and y, or 100 plus the refusal; 112 where there is no room for a word.
#[unsafe(no_mangle)]
pub extern "C" fn hraskell_evaluate(
    m: u32,
    i: u32,
    l: u32,
    o: u32,
    a: u32,
    table: &[u32],
    cells: u32,
    x: u64,
    y: u64,
    word: &mut [u64],
) -> u32
    ensures { EvaluateGiven (named m i l o a cells) table.now x y word.old result word.new }
{
    if word.len() < 1 {
        return refused(Refusal::ShortBuffer);
    }
    let counts = crate::blocks::counts(m, i, l, o, a, cells);
    match netlist::evaluate(counts, table, x, y) {
        Err(refusal) => refused(refusal),
        Ok(shown) => {
            put(&[shown], word);
            0
        }
    }
}
