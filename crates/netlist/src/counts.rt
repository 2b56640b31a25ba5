// The counts of a header, and the length of the table that they ask for.
ghost use Rattle.std.specs.Prelude.{◌≡◌};
ghost use Rattle.rules.specs.Netlist.{counts_wrong, record_words, table_short};

use rules::counts::Counts;
use rules::limits::Limits;
use rules::records::RecordKind;

// Whether a count lies outside its limits. I + A is the sum of whole numbers, so it is taken in 64 bits.
#[tactic(auto, unfolding(rules::specs::Netlist::counts_wrong, rules::specs::Netlist::counts_right))]
pub fn counts_wrong(c: Counts) -> bool
    ensures { result ≡ counts_wrong c }
{
    c.l != 0
        || c.m as u64 != c.i as u64 + c.a as u64
        || Limits::VARIABLES_MOST < c.m
        || c.i % 2 != 0
        || !(Limits::INPUTS_LEAST..=Limits::INPUTS_MOST).contains(&c.i)
        || !(Limits::OUTPUTS_LEAST..=Limits::OUTPUTS_MOST).contains(&c.o)
}

// The words of a record: two literals, or a byte and three variables.
#[tactic(auto, unfolding(rules::specs::Netlist::record_words))]
fn record_words(records: RecordKind) -> u64
    ensures { result ≡ record_words records }
{
    match records {
        RecordKind::Gates => 2,
        RecordKind::Cells => 4,
    }
}

// Whether a table of so many words is too short for the outputs and a record for each gate.
#[tactic(auto, using(crate::proofs::Facts::most_words), unfolding(rules::specs::Netlist::table_short, rules::specs::Netlist::needed))]
pub fn table_short(c: Counts, words: usize) -> bool
    ensures { result ≡ table_short c words }
{
    (words as u64) < c.o as u64 + record_words(c.records) * (c.a as u64)
}
