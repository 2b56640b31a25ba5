// The heads of the streams: the largest set among them, and the sum of all that have it.
ghost use Rattle.std.specs.Prelude.{◌≡◌, cond, ℕ, suc, ◌+◌, ◌%◌, ◌^◌, ◌<◌, ◌≤◌, ltb, eqb, length};
ghost use Rattle.std.specs.Ordering.{nat_cmp};
ghost use Rattle.rules.specs.Cells.{scaled};
ghost use Rattle.rules.specs.Polynomial.{Below};
ghost use Rattle.merge.specs.Heads.{count, modulus, Loaded, Took, Swept, rank, rest, set_in};

use crate::streams::Streams;
use std::cmp::Ordering;

// c and k times the coefficient x, modulo 2^l.
fn added(c: u64, k: i16, x: u64, l: u32) -> u64
    requires { (l ≤ 64) × (x ≤ 2 ^ l) }
    ensures { result ≡ (c + scaled (2 ^ l) k x) % 2 ^ l }
{
    let times = i64::from(k).cast_unsigned();
    words::coefficients::sum(c, times.wrapping_mul(x), l)
}

impl Streams<'_, '_> {
    // The order of the set of term i in stream j and that of term h in stream b.
    fn compare(&self, i: usize, j: usize, h: usize, b: usize) -> Ordering
        requires { (i < self.now.weighted.terms.count) × (j < count self.now) × (h < self.now.weighted.terms.count) × (b < count self.now) }
        ensures { result ≡ nat_cmp (set_in self.now i j) (set_in self.now h b) }
    {
        let terms = &self.weighted.terms;
        let w = terms.width;
        let x = terms.set_at(i);
        let y = terms.set_at(h);
        words::sets::compare(
            terms.words,
            x,
            y,
            self.masks,
            j * w,
            b * w,
            self.weighted.gate.k,
        )
    }

    // Of the heads j and b, the one with the larger set; b if they are equal.
    fn better(&self, at: &[usize], j: usize, b: usize) -> usize
        requires { (length at.now ≡ count self.now) × (j < count self.now) × (b < count self.now) }
        ensures { result ≡ cond (ltb (rank self.now at.now b) (rank self.now at.now j)) j b }
    {
        let i = at[j];
        if i >= self.weighted.terms.count {
            return b;
        }
        let h = at[b];
        if h >= self.weighted.terms.count {
            return j;
        }
        if self.compare(i, j, h, b).is_gt() {
            j
        } else {
            b
        }
    }

    // The stream with the largest set at its head; one at its end only if all are.
    pub fn best(&self, at: &[usize]) -> usize
        requires { length at.now ≡ count self.now }
        ensures { (result < count self.now) × ((i : ℕ) → i < count self.now → rank self.now at.now i ≤ rank self.now at.now result) }
    {
        let mut b = 0;
        for j in 1..at.len() {
            b = self.better(at, j, b);
        }
        b
    }

    // Whether term i has in stream j the set that term h has in stream b. Every sweep compares the best head with itself: the same
    // place needs no look.
    fn same(&self, i: usize, j: usize, h: usize, b: usize) -> bool
        requires { (i < self.now.weighted.terms.count) × (j < count self.now) × (h < self.now.weighted.terms.count) × (b < count self.now) }
        ensures { result ≡ eqb (set_in self.now i j) (set_in self.now h b) }
    {
        (i == h && j == b) || self.compare(i, j, h, b).is_eq()
    }

    // The head of stream j, if its set is that of term h in stream b: it is added to c, and the stream goes on.
    #[tactic(auto, using(crate::proofs::Flow::streams_few))]
    fn take_head(&self, at: &mut [usize], j: usize, h: usize, b: usize, c: u64) -> u64
        requires { (length at.old ≡ count self.now) × (j < count self.now) × (h < self.now.weighted.terms.count) × (b < count self.now) × (c < modulus self.now)
            × Loaded self.now at.old j × Below (suc (set_in self.now h b)) (rest self.now at.old j) }
        ensures { Took self.now (set_in self.now h b) j at.old at.new c result }
    {
        let i = at[j];
        if i >= self.weighted.terms.count {
            return c;
        }
        if !self.same(i, j, h, b) {
            return c;
        }
        at[j] = self.weighted.next(j, i + 1);
        added(
            c,
            self.weighted.multiplier(i, j),
            self.weighted.terms.coefficient(i),
            self.weighted.gate.l,
        )
    }

    // Adds up every head whose set is that of term h in stream b; those streams go on.
    pub fn sweep(&self, at: &mut [usize], h: usize, b: usize) -> u64
        requires { (length at.old ≡ count self.now) × (h < self.now.weighted.terms.count) × (b < count self.now)
            × ((i : ℕ) → i < count self.now → Loaded self.now at.old i)
            × ((i : ℕ) → i < count self.now → Below (suc (set_in self.now h b)) (rest self.now at.old i)) }
        ensures { Swept self.now (set_in self.now h b) at.old at.new result }
    {
        let mut c = 0;
        for j in 0..at.len() {
            c = self.take_head(at, j, h, b, c);
        }
        c
    }
}
