// The values of a netlist's variables for one operand pair, and the word that its outputs show.
ghost use Rattle.std.specs.Prelude.{◌≡◌, [], ◌∷◌, ◌++◌, ◌+◌, ◌*◌, ◌^◌, ◌<◌, ◌≤◌, length, take};
ghost use Rattle.rules.specs.Each.{sum, listed};
ghost use Rattle.rules.specs.Netlist.{variable, output as output_of};
ghost use Rattle.rules.specs.Values.{bit, literal_value, input_values, record_value, gate_value};
ghost use Rattle.rules.specs.Values as rule;
ghost use Rattle.netlist.specs.Taken.{Bits, BitAt, Readable};

use crate::table::SoundBlock;
use rules::limits::Limits;
use rules::records::Record;

// A byte for each variable that there may be, and for variable 0.
const HELD: usize = 1 + Limits::VARIABLES_MOST as usize;

// The value of literal x.
#[tactic(auto, using(crate::proofs::Filled::turned_bits), unfolding(rules::specs::Values::literal_value, rules::specs::Netlist::inverted, rules::specs::Netlist::variable))]
fn literal(values: &[u8], x: u32) -> u8
    requires { BitAt values.now (variable x) }
    ensures { result ≡ literal_value values.now x }
{
    values[(x / 2) as usize] ^ (x % 2) as u8
}

// Writes the first n bits of x from place `at` on.
#[tactic(auto, unfolding(rules::specs::Values::bit, rules::specs::Each::listed))]
fn put_bits(x: u64, n: u32, at: usize, values: &mut [u8])
    requires { (n ≤ 32) × (at + n ≤ length values.old) }
    ensures { take (at + n) values.new ≡ take at values.old ++ listed n (bit x) }
{
    for i in 0..n {
        values[at + i as usize] = ((x >> i) % 2) as u8;
    }
}

// Writes the variables that no gate makes: false, then the bits of a, then those of b.
#[tactic(auto, using(crate::proofs::Filled::inputs_put))]
fn put_inputs(n: u32, a: u64, b: u64, values: &mut [u8])
    requires { (n ≤ 32) × (1 + n + n ≤ length values.old) }
    ensures { take (1 + n + n) values.new ≡ input_values n a b }
{
    values[0] = 0;
    put_bits(a, n, 1, values);
    put_bits(b, n, 1 + n as usize, values);
}

// The value of a record: the AND of its two literals, or the bit of its truth byte that its three variables name.
#[tactic(auto, using(crate::proofs::Filled::literal_bit, crate::proofs::Filled::and_bits), unfolding(rules::specs::Values::record_value, rules::specs::Values::bit))]
fn record_value(values: &[u8], parts: Record) -> u8
    requires { Readable values.now parts }
    ensures { result ≡ record_value values.now parts }
{
    match parts {
        Record::Gate { x, y } => literal(values, x) & literal(values, y),
        Record::Cell { byte, x1, x2, x3 } => {
            let index = values[x1 as usize] + 2 * values[x2 as usize] + 4 * values[x3 as usize];
            ((byte >> index) % 2) as u8
        }
    }
}

impl<'a> SoundBlock<'a> {
    // Writes the value of gate v behind those of the variables below it.
    #[tactic(auto, using(crate::proofs::Facts::record_within, crate::proofs::Filled::readable, crate::proofs::Filled::gate_put))]
    fn put_gate(&self, v: u32, values: &mut [u8])
        requires { (self.now.block.counts.i < v) × (v ≤ self.now.block.counts.m) × (v < length values.old) × Bits v values.old }
        ensures { let b = self.now.block in take (v + 1) values.new ≡ take v values.old ++ gate_value b.counts b.table.now (take v values.old) v ∷ [] }
    {
        let value = record_value(values, self.block.record_at(v));
        values[v as usize] = value;
    }

    // Writes the values of all variables.
    #[tactic(auto, using(crate::proofs::Filled::filling))]
    fn put_values(&self, a: u64, b: u64, values: &mut [u8])
        requires { self.now.block.counts.m < length values.old }
        ensures { take (self.now.block.counts.m + 1) values.new ≡ rule.values self.now.block.counts self.now.block.table.now a b }
    {
        let c = self.block.counts;
        put_inputs(c.i / 2, a, b, values);
        for k in 0..c.a {
            self.put_gate(c.i + 1 + k, values);
        }
    }

    // The word of the outputs' values, output 0 lowest.
    #[tactic(auto, using(crate::proofs::Facts::facts, crate::proofs::Filled::output_bit), unfolding(rules::specs::Each::sum))]
    fn word(&self, values: &[u8]) -> u64
        requires { (self.now.block.counts.m < length values.now) × Bits (self.now.block.counts.m + 1) values.now }
        ensures { let b = self.now.block in result ≡ sum b.counts.o (λ i. 2 ^ i * literal_value values.now (output_of b.table.now i)) }
    {
        let mut word: u64 = 0;
        for i in 0..self.block.counts.o {
            word += (literal(values, self.block.output(i)) as u64) << i;
        }
        word
    }

    // The word that the outputs show for the operands a and b.
    #[tactic(auto, using(crate::proofs::Facts::facts, crate::proofs::Filled::bits_filled), unfolding(rules::specs::Values::values))]
    pub fn shown(&self, a: u64, b: u64) -> u64
        ensures { result ≡ rule.shown self.now.block.counts self.now.block.table.now a b }
    {
        let mut values = [0u8; HELD];
        self.put_values(a, b, &mut values);
        self.word(&values)
    }
}
