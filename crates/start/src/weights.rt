// What the terms of one variable or none weigh modulo 2^l: the outputs and c give each variable and the constant a weight.
ghost use Rattle.std.specs.Prelude.{[], ◌∷◌, ℕ, ◌+◌, ◌-◌, ◌*◌, ◌/◌, ◌^◌, ◌<◌, ◌≤◌, length, get_or};

use rules::limits::Limits;
use words::coefficients::{difference, sum};

// One weight for each variable, from 1 to the most that there may be, and the constant's at 0.
pub const WEIGHTS: usize = 1 + Limits::VARIABLES_MOST as usize;

// The weights modulo 2^l, of a block with l outputs.
#[derive(Drop)]
pub struct Weights {
    pub of: [u64; WEIGHTS],
    pub l: u32,
    ghost outputs: { l ≤ 64 },
}

impl Weights {
    ghost use Rattle.rules.specs.Polynomial.{minus, times_literal};
    ghost use Rattle.start.specs.Start.{single, output_terms, addend_terms};
    ghost use Rattle.start.specs.Weighing.{Weighs};

    // Adds c to the weight of v.
    #[tactic(auto, using(crate::proofs::Weighing::weighed_more))]
    fn add(&mut self, v: usize, c: u64)
        requires { v < WEIGHTS }
        ensures { Weighs ((c, single v) ∷ []) self.old self.new }
    {
        self.of[v] = sum(self.of[v], c, self.l);
    }

    // Takes c from the weight of v.
    #[tactic(auto, using(crate::proofs::Weighing::weighed_more))]
    fn take(&mut self, v: usize, c: u64)
        requires { (v < WEIGHTS) × (c ≤ 2 ^ self.old.l) }
        ensures { Weighs ((2 ^ self.old.l - c, single v) ∷ []) self.old self.new }
    {
        self.of[v] = difference(self.of[v], c, self.l);
    }

    // Adds output k, of literal x: 2^k times its variable, or 2^k less that where it is inverted.
    #[tactic(auto, using(crate::proofs::Weighing::shifted_le))]
    fn weigh_output(&mut self, x: usize, k: u32)
        requires { (x / 2 < WEIGHTS) × (k < self.old.l) }
        ensures { Weighs (times_literal (2 ^ self.old.l) x ((2 ^ k, 0) ∷ [])) self.old self.new }
    {
        let v = x / 2;
        let c = 1u64 << k;
        if x % 2 == 1 {
            self.add(0, c);
            if v > 0 {
                self.take(v, c);
            }
        } else if v > 0 {
            self.add(v, c);
        }
    }

    // Adds all outputs, of which there are l.
    pub fn weigh(&mut self, table: &[u32])
        requires { (self.old.l ≤ length table.now) × ((i : ℕ) → i < self.old.l → get_or table.now i 0 / 2 < WEIGHTS) }
        ensures { Weighs (output_terms (2 ^ self.old.l) table.now self.old.l) self.old self.new }
    {
        for k in 0..self.l {
            self.weigh_output(table[k as usize] as usize, k);
        }
    }

    // Takes c away: 2^k for the k-th of its bits, which stand behind those of a and b.
    #[tactic(auto, using(crate::proofs::Weighing::shifted_le))]
    pub fn weigh_addend(&mut self, n: usize, bits: u32)
        requires { (bits ≤ self.old.l) × (2 * n + bits < WEIGHTS) }
        ensures { Weighs (minus (2 ^ self.old.l) (addend_terms n bits)) self.old self.new }
    {
        for k in 0..bits {
            let v = 2 * n + 1 + k as usize;
            self.take(v, 1u64 << k);
        }
    }
}
