// Counts and tables: whether they are sound, and the word that a netlist's outputs show for one operand pair.
#![tactic(auto)]

pub mod counts; // counts.rt: the counts of a header, and the table's length
pub mod table; // table.rt: the literals of outputs, the records of gates, and their rules
pub mod values; // values.rt: the values of the variables, and the word of the outputs

ghost use Rattle.rules.specs.Values.{Evaluated};

use crate::table::SoundBlock;
use rules::counts::Counts;
use rules::refusals::Refusal;

// The word that the outputs show for the operands a and b, or the first refusal in the order of checks.
#[tactic(auto, using(crate::proofs::Said::refused_alike, crate::proofs::Said::shown_alike))]
pub fn evaluate(c: Counts, table: &[u32], a: u64, b: u64) -> Result<u64, Refusal>
    ensures { Evaluated c table.now a b result }
{
    let block = SoundBlock::made(c, table)?;
    Ok(block.shown(a, b))
}
