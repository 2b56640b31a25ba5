// The streams of a gate: the terms, each under the multiplier and the mask of a stream. A stream is a place in the terms.
ghost use Rattle.std.specs.Prelude.{◌≡◌, ℕ, ◌+◌, ◌*◌, ◌<◌, ◌≤◌, length, get_or};
ghost use Rattle.words.specs.Listed.{set_of};
ghost use Rattle.words.specs.Numbers.{num, words_at};
ghost use Rattle.merge.specs.Streams.{streams_of, held_in, multiplier_of, Held, Masks};

use gates::apart::Variables;
use words::listed::Terms;
use words::sets::holds;

// A gate v over its variables, the bits of a coefficient, and the words that a set uses.
#[derive(Clone, Copy)]
pub struct Gate {
    pub v: usize,
    pub over: Variables,
    pub l: u32,
    pub k: usize,
}

// How many streams a gate has.
#[tactic(auto, unfolding(crate::specs::Streams::streams_of))]
pub fn streams_of(g: Gate) -> usize
    ensures { result ≡ streams_of g }
{
    if g.over.z == 0 {
        return 4;
    }
    8
}

// Terms, and the multipliers by which the streams of a gate weigh them: eight for each subset of the gate's variables.
#[derive(Clone, Copy)]
pub struct Weighted<'a> {
    pub terms: Terms<'a>,
    pub gate: Gate,
    pub multipliers: &'a [i16],
    pub ghost held: { Held terms gate multipliers.now },
}

// Which of x, y and z the set at word `at` has, as a subset. Most gates have no z: none is looked for then.
#[tactic(auto, using(rules::proofs::Bits::bit_digit))]
fn held_in(store: &[u64], at: usize, w: usize, g: Gate) -> usize
    requires { (at + w ≤ length store.now) × (g.over.x < 64 * w) × (g.over.y < 64 * w) × (g.over.z < 64 * w) }
    ensures { result ≡ held_in g (num (words_at store.now at w)) }
{
    let x = holds(store, at, w, g.over.x);
    let y = holds(store, at, w, g.over.y);
    if g.over.z == 0 {
        return x + 2 * y;
    }
    let z = holds(store, at, w, g.over.z);
    x + 2 * y + 4 * z
}

// The multiplier in stream j of the set at word `at`.
#[tactic(auto, using(crate::proofs::Flow::held_lt))]
pub fn multiplier_of(
    store: &[u64],
    at: usize,
    w: usize,
    g: Gate,
    multipliers: &[i16],
    j: usize,
) -> i16
    requires { (at + w ≤ length store.now) × (g.v < 64 * w) × (g.over.x < 64 * w) × (g.over.y < 64 * w) × (g.over.z < 64 * w) × (j < 8) × (length multipliers.now ≡ 64) }
    ensures { result ≡ multiplier_of g multipliers.now j (num (words_at store.now at w)) }
{
    if holds(store, at, w, g.v) == 0 {
        return 0;
    }
    multipliers[held_in(store, at, w, g) * 8 + j]
}

impl Weighted<'_> {
    ghost use Rattle.merge.specs.Streams.{multiplier_of};
    ghost use Rattle.merge.specs.Heads.{Next};

    // The multiplier of term i in stream j.
    pub(crate) fn multiplier(&self, i: usize, j: usize) -> i16
        requires { (i < self.now.terms.count) × (j < 8) }
        ensures { result ≡ multiplier_of self.now.gate self.now.multipliers.now j (set_of self.now.terms i) }
    {
        let terms = &self.terms;
        multiplier_of(
            terms.words,
            terms.set_at(i),
            terms.width,
            self.gate,
            self.multipliers,
            j,
        )
    }

    // The first term from `low` on that is in stream j, or the end.
    pub fn next(&self, j: usize, low: usize) -> usize
        requires { (j < 8) × (low ≤ self.now.terms.count) }
        ensures { Next self.now j low result }
    {
        for i in low..self.terms.count {
            if self.multiplier(i, j) != 0 {
                return i;
            }
        }
        self.terms.count
    }

    // Each stream at its first term.
    pub fn begin(&self, at: &mut [usize])
        requires { length at.old ≤ 8 }
        ensures { (j : ℕ) → j < length at.old → Next self.now j 0 (get_or at.new j 0) }
    {
        for j in 0..at.len() {
            at[j] = self.next(j, 0);
        }
    }
}

// The streams of a gate: weighted terms, and a mask for each stream.
#[derive(Clone, Copy)]
pub struct Streams<'a, 'b> {
    pub weighted: Weighted<'a>,
    pub masks: &'b [u64],
    pub ghost masked: { Masks weighted.terms weighted.gate masks.now },
}
