// Reads a netlist text into a table of literals: one pass checks every line and writes nothing, and where all are
// right a second pass writes.
#![tactic(auto)]

mod tables; // tables.rt: the second pass

ghost use Rattle.rules.specs.Reading.{ReadAs};
ghost use Rattle.aiger.specs.Checked.{Checked};

use crate::tables::store;
use lines::sections::{GateLines, InputLines, OutputLines, header, pass};
use netlist::counts::{counts_wrong, table_short};
use rules::counts::Counts;
use rules::refusals::Refusal;

// The first pass, for a table of so many words: the counts and the text from the output lines on, or the first refusal.
fn checked(text: &[u8], words: usize) -> Result<(Counts, &[u8]), Refusal>
    ensures { Checked text.now words result }
{
    let (counts, inputs) = header(text).ok_or(Refusal::Header)?;
    if counts_wrong(counts) {
        return Err(Refusal::CountOutside);
    }
    if table_short(counts, words) {
        return Err(Refusal::ShortTable);
    }
    let outputs = pass(&InputLines, inputs, counts.i).ok_or(Refusal::InputLine)?;
    let gates = pass(&OutputLines(counts), outputs, counts.o).ok_or(Refusal::OutputLine)?;
    let end = pass(&GateLines(counts), gates, counts.a).ok_or(Refusal::GateLine)?;
    if !end.is_empty() {
        return Err(Refusal::BytesBehind);
    }
    Ok((counts, outputs))
}

// Reads the text. Where it is refused no word of the table changes, and words past O + 2A never do.
pub fn read(text: &[u8], table: &mut [u32]) -> Result<Counts, Refusal>
    ensures { ReadAs text.now table.old result table.new }
{
    let (counts, outputs) = checked(text, table.len())?;
    let gates = store(&OutputLines(counts), outputs, counts.o, table);
    store(
        &GateLines(counts),
        gates,
        counts.a,
        &mut table[counts.o as usize..],
    );
    Ok(counts)
}
