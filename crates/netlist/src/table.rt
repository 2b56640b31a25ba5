// The literals of outputs, the records of gates, and the rules that they keep.
ghost use Rattle.std.specs.Prelude.{◌≡◌, ◌<◌, ◌≤◌};
ghost use Rattle.rules.specs.Each.{each};
ghost use Rattle.rules.specs.Netlist.{gate, output_sound, record_sound, table_unsound};
ghost use Rattle.rules.specs.Netlist as rule;
ghost use Rattle.netlist.specs.Taken.{Fitting, Sound};

use crate::counts::{counts_wrong, table_short};
use rules::counts::Counts;
use rules::records::{Record, RecordKind};
use rules::refusals::Refusal;

// Counts within their limits, and a table that is long enough for them.
#[derive(Clone, Copy)]
pub struct Block<'a> {
    pub counts: Counts,
    pub table: &'a [u32],
    pub ghost fitting: { Fitting counts table.now },
}

impl<'a> Block<'a> {
    // The literal of output i.
    #[tactic(auto, using(crate::proofs::Facts::facts), unfolding(rules::specs::Netlist::output))]
    pub fn output(&self, i: u32) -> u32
        requires { i < self.now.counts.o }
        ensures { result ≡ rule.output self.now.table.now i }
    {
        self.table[i as usize]
    }

    // The record of gate v. Records stand behind the outputs, each of as many words as its kind has.
    #[tactic(auto, using(crate::proofs::Facts::facts), unfolding(rules::specs::Netlist::record_words, rules::specs::Netlist::record_at, rules::specs::Netlist::record_of, rules::specs::Netlist::rhs0, rules::specs::Netlist::rhs1, rules::specs::Netlist::cell_word))]
    pub fn record_at(&self, v: u32) -> Record
        requires { (self.now.counts.i < v) × (v ≤ self.now.counts.m) }
        ensures { result ≡ rule.record_at self.now.counts self.now.table.now v }
    {
        let c = self.counts;
        let table = self.table;
        match c.records {
            RecordKind::Gates => {
                let at = (c.o + 2 * (v - (c.i + 1))) as usize;
                Record::Gate {
                    x: table[at],
                    y: table[at + 1],
                }
            }
            RecordKind::Cells => {
                let at = (c.o + 4 * (v - (c.i + 1))) as usize;
                Record::Cell {
                    byte: table[at],
                    x1: table[at + 1],
                    x2: table[at + 2],
                    x3: table[at + 3],
                }
            }
        }
    }

    // Whether every output is the literal of a variable that there is. No way out at the first that is none: with one at each record
    // evaluating a pair took 1.5 times as long.
    fn outputs_sound(&self) -> bool
        ensures { let c = self.now.counts in result ≡ each c.o (λ i. output_sound c (rule.output self.now.table.now i)) }
    {
        let mut sound = true;
        for i in 0..self.counts.o {
            sound &= self.output(i) <= 2 * self.counts.m + 1;
        }
        sound
    }

    // Whether every record keeps its rules.
    fn records_sound(&self) -> bool
        ensures { let c = self.now.counts in result ≡ each c.a (λ k. record_sound (gate c k) (rule.record_at c self.now.table.now (gate c k))) }
    {
        let mut sound = true;
        for k in 0..self.counts.a {
            let v = self.counts.i + 1 + k;
            sound &= record_sound(v, self.record_at(v));
        }
        sound
    }

    // Whether an output or a record breaks its rules.
    #[tactic(auto, unfolding(rules::specs::Netlist::table_unsound, rules::specs::Netlist::table_sound))]
    pub fn unsound(&self) -> bool
        ensures { result ≡ table_unsound self.now.counts self.now.table.now }
    {
        !(self.outputs_sound() && self.records_sound())
    }
}

// A block whose outputs and records keep their rules.
#[derive(Clone, Copy)]
pub struct SoundBlock<'a> {
    pub block: Block<'a>,
    pub ghost sound: { Sound block.counts block.table.now },
}

impl<'a> SoundBlock<'a> {
    ghost use Rattle.netlist.specs.Made.{Made};

    // The block of these counts and this table, or the first refusal in the order of checks.
    #[inline(always)] // what is refused by its counts is then refused without a call
    #[tactic(auto, using(crate::proofs::Facts::passed), unfolding(rules::specs::Values::evaluate_checks, rules::specs::Says::first))]
    pub fn made(counts: Counts, table: &'a [u32]) -> Result<SoundBlock<'a>, Refusal>
        ensures { Made counts table.now result }
    {
        if counts_wrong(counts) {
            return Err(Refusal::CountOutside);
        }
        if table_short(counts, table.len()) {
            return Err(Refusal::ShortTable);
        }
        let block = Block { counts, table };
        if block.unsound() {
            return Err(Refusal::UnsoundTable);
        }
        Ok(SoundBlock { block })
    }
}

// Whether the record of gate v reads variables below v: an AND gate the larger literal first, a cell with a truth byte up to 255.
// 2v is a whole number, so it is taken in 64 bits.
#[tactic(auto, unfolding(rules::specs::Netlist::record_sound, rules::specs::Netlist::gate_sound, rules::specs::Netlist::cell_sound))]
fn record_sound(v: u32, parts: Record) -> bool
    ensures { result ≡ record_sound v parts }
{
    match parts {
        Record::Gate { x, y } => ((x as u64) < 2 * (v as u64)) & (y <= x),
        Record::Cell { byte, x1, x2, x3 } => (byte <= 255) & (x1 < v) & (x2 < v) & (x3 < v),
    }
}
