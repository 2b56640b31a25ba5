// The merge: the largest set at the heads, with the sum of all heads that have it, is the next term of the result.
ghost use Rattle.std.specs.Prelude.{ℕ, ◌≡◌, ◌+◌, ◌*◌, ◌^◌, ◌<◌, ◌≤◌, length, get_or};
ghost use Rattle.rules.specs.Polynomial.{gather};
ghost use Rattle.words.specs.Numbers.{num};
ghost use Rattle.weave.specs.Merging.{Lows};
ghost use Rattle.weave.specs.Written.{Emitted, Gathered, Behind, Kept};
ghost use Rattle.merge.specs.Heads.{count, modulus, all, whole, set_in, words_in, Next};

use crate::streams::{Streams, streams_of};

impl Streams<'_, '_> {
    // Writes the term of c and the set of term i in stream b as the o-th of scratch, unless c is 0: what cancelled is no term,
    // and needs no room. The number of terms then; None without room.
    #[tactic(auto, using(weave::proofs::Growing::emit_skip, weave::proofs::Growing::emit_full))]
    fn emit(
        &self,
        i: usize,
        b: usize,
        scratch: &mut [u64],
        o: usize,
        limit: usize,
        c: u64,
    ) -> Option<usize>
        requires { (i < self.now.weighted.terms.count) × (b < count self.now) × (o ≤ limit) × (limit * (self.now.weighted.terms.width + 1) ≤ length scratch.old) }
        ensures { Emitted self.now.weighted.terms.width o limit c (words_in self.now i b) scratch.old scratch.new result
            × (0 < c → o < limit → num (words_in self.now i b) ≡ set_in self.now i b) }
    {
        if c == 0 {
            return Some(o);
        }
        if o == limit {
            return None;
        }
        let terms = &self.weighted.terms;
        let w = terms.width;
        let h = terms.set_at(i);
        words::terms::write(
            terms.words,
            h,
            self.masks,
            b * w,
            w,
            scratch,
            o * (w + 1),
            c,
        );
        Some(o + 1)
    }

    // All streams, each at its first term, gathered into scratch, at most `limit` terms: how many; None if there are more.
    fn run(&self, at: &mut [usize], scratch: &mut [u64], limit: usize) -> Option<usize>
        requires { (length at.old ≡ count self.now) × (limit * (self.now.weighted.terms.width + 1) ≤ length scratch.old)
            × Lows (2 ^ (64 * self.now.weighted.terms.width)) (count self.now) (whole self.now)
            × ((j : ℕ) → j < count self.now → Next self.now.weighted j 0 (get_or at.old j 0)) }
        ensures { Gathered self.now.weighted.terms.width limit (gather (modulus self.now) (all self.now)) result scratch.new
            × Behind self.now.weighted.terms.width limit result scratch.old scratch.new }
    {
        let mut out = 0;
        loop {
            let b = self.best(at);
            let i = at[b];
            if i >= self.weighted.terms.count {
                return Some(out);
            }
            let c = self.sweep(at, i, b);
            out = self.emit(i, b, scratch, out, limit, c)?;
        }
    }
}

// All streams of a gate gathered into scratch, at most `limit` terms: how many. With more there is no room: what was written is cleared.
#[tactic(auto, using(crate::proofs::Flow::streams_few))]
pub fn merge(streams: &Streams, scratch: &mut [u64], limit: usize) -> Option<usize>
    requires { (limit * (streams.now.weighted.terms.width + 1) ≤ length scratch.old)
        × Lows (2 ^ (64 * streams.now.weighted.terms.width)) (count streams.now) (whole streams.now) }
    ensures { Gathered streams.now.weighted.terms.width limit (gather (modulus streams.now) (all streams.now)) result scratch.new
        × Kept streams.now.weighted.terms.width limit result scratch.old scratch.new }
{
    let count = streams_of(streams.weighted.gate);
    let mut at = [0usize; 8];
    streams.weighted.begin(&mut at[..count]);
    let held = streams.run(&mut at[..count], scratch, limit);
    if held.is_none() {
        words::stretches::clear(scratch, 0, limit * (streams.weighted.terms.width + 1));
    }
    held
}
