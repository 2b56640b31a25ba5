// The weave: the terms of a store that do not hold v, and new terms, gathered into one falling list in front of scratch. The new ones
// stand in scratch behind room for as many terms as the limit allows. Between two new terms, the store's are copied in one go; those
// behind the last new term and the last one that holds v stay where they are.
ghost use Rattle.std.specs.Prelude.{◌≡◌, true, ◌++◌, ◌+◌, ◌*◌, ◌^◌, ◌<◌, ◌≤◌, length};
ghost use Rattle.rules.specs.Polynomial.{gather};
ghost use Rattle.words.specs.Numbers.{words_at};
ghost use Rattle.weave.specs.Written.{Emitted, Kept};
ghost use Rattle.weave.specs.Weaving.{Task, Midway, Head, Stretch, Turned, Joined, going_on, meeting, without, written, old_terms, new_terms};

use crate::seeking::{above, equal, holding};
use words::coefficients::sum;
use words::listed::Terms;

// What is woven: n terms of a store, none of which holds v from `end` on, and as many new ones as were made. A set has w words and
// uses k; a coefficient has l bits.
#[derive(Clone, Copy)]
pub struct Sizes {
    pub n: usize,
    pub w: usize,
    pub k: usize,
    pub v: usize,
    pub l: u32,
    pub end: usize,
    pub made: usize,
    pub limit: usize,
}

// How far the weave is: the store's next term and the next one that holds v, the new terms used, and the terms written.
#[derive(Clone, Copy)]
pub struct Place {
    pub at: usize,
    pub stop: usize,
    pub used: usize,
    pub out: usize,
}

// The result in two parts: `out` terms in front of scratch, and behind them the store's from the `at`-th on.
#[derive(Clone, Copy)]
pub struct Parts {
    pub out: usize,
    pub at: usize,
}

// The terms of the store.
fn old_terms(store: &[u64], z: Sizes) -> Terms
    requires { (z.n * (z.w + 1) ≤ length store.now) × (z.w ≤ 16) }
    ensures { (result.words.now ≡ store.now) × (result.count ≡ z.n) × (result.width ≡ z.w) }
{
    Terms {
        words: store,
        count: z.n,
        width: z.w,
    }
}

// Writes the term of c and the set at word h as the o-th, unless c is 0. The number of terms then; None without room.
// The merge has one of its own, which differs in the write alone: a closure for that is no shorter.
fn emit(scratch: &mut [u64], h: usize, w: usize, o: usize, limit: usize, c: u64) -> Option<usize>
    requires { (limit * (w + 1) ≤ h) × (h + w ≤ length scratch.old) × (o ≤ limit) × (w ≤ 16) }
    ensures { Emitted w o limit c (words_at scratch.old h w) scratch.old scratch.new result }
{
    if c == 0 {
        return Some(o);
    }
    if o == limit {
        return None;
    }
    words::terms::carry(scratch, h, w, o * (w + 1), c);
    Some(o + 1)
}

// Whether the store's next term has the set of the next new one.
fn meets(store: &[u64], z: Sizes, scratch: &[u64], p: Place) -> bool
    requires { Task z store.now scratch.now × (p.stop ≤ z.n) × (p.used < z.made) }
    ensures { result ≡ meeting (old_terms z store.now) (new_terms z scratch.now) p }
{
    if p.at >= p.stop {
        return false;
    }
    let h = (z.limit + p.used) * (z.w + 1) + 1;
    equal(
        store,
        old_terms(store, z).set_at(p.at),
        scratch,
        h,
        z.w,
        z.k,
    )
}

// The next new term, with the store's next one where that has its set; none of the others is above it.
fn take_new(store: &[u64], z: Sizes, scratch: &mut [u64], p: Place) -> Option<Place>
    requires { Midway z store.now scratch.old p × Head z (old_terms z store.now) (new_terms z scratch.old) p }
    ensures { Turned z store.now scratch.old p result scratch.new }
{
    let from = (z.limit + p.used) * (z.w + 1);
    let c = scratch[from];
    let used = p.used + 1;
    if meets(store, z, scratch, p) {
        let x = old_terms(store, z).coefficient(p.at);
        let out = emit(scratch, from + 1, z.w, p.out, z.limit, sum(c, x, z.l))?;
        let at = p.at + 1;
        return Some(Place { at, used, out, ..p });
    }
    let out = emit(scratch, from + 1, z.w, p.out, z.limit, c)?;
    Some(Place { used, out, ..p })
}

// The store's terms up to `to`, in one go.
fn stretch(store: &[u64], z: Sizes, scratch: &mut [u64], p: Place, to: usize) -> Option<Place>
    requires { Midway z store.now scratch.old p × Stretch z (old_terms z store.now) (new_terms z scratch.old) p to }
    ensures { Turned z store.now scratch.old p result scratch.new }
{
    let out = p.out + (to - p.at);
    if out > z.limit {
        return None;
    }
    let stride = z.w + 1;
    words::stretches::copy(
        store,
        p.at * stride,
        scratch,
        p.out * stride,
        (to - p.at) * stride,
    );
    Some(Place { at: to, out, ..p })
}

// One turn: a term that holds v is passed over; the terms above the next new one are copied; or that one is taken.
fn turn(store: &[u64], z: Sizes, scratch: &mut [u64], p: Place) -> Option<Place>
    requires { Midway z store.now scratch.old p × (going_on z p ≡ true) }
    ensures { Turned z store.now scratch.old p result scratch.new }
{
    let old = old_terms(store, z);
    if p.at == p.stop {
        if p.at < z.n {
            let at = p.at + 1;
            let stop = holding(&old, z.v, at, z.end);
            return Some(Place { at, stop, ..p });
        }
        return take_new(store, z, scratch, p);
    }
    if p.used == z.made {
        return stretch(store, z, scratch, p, p.stop);
    }
    let t = (z.limit + p.used) * (z.w + 1) + 1;
    let to = above(&old, z.k, p.at, p.stop, scratch, t);
    if p.at < to {
        return stretch(store, z, scratch, p, to);
    }
    take_new(store, z, scratch, p)
}

// Whether a new term or one that holds v is left.
#[tactic(auto, unfolding(crate::specs::Weaving::going_on))]
fn goes_on(z: Sizes, p: Place) -> bool
    ensures { result ≡ going_on z p }
{
    p.at < z.end || p.used < z.made
}

// Both lists gathered into one, in two parts: in front of scratch, and the store's last terms, which stay as they are. There is no room
// where at most `limit` terms in scratch are too few: what was written is cleared.
pub fn weave(store: &[u64], z: Sizes, scratch: &mut [u64]) -> Option<Parts>
    requires { Task z store.now scratch.old }
    ensures { Joined z.w z.limit (gather (2 ^ z.l) (without z.v (old_terms z store.now) ++ new_terms z scratch.old)) (old_terms z store.now) result scratch.new
        × Kept z.w z.limit (written result) scratch.old scratch.new }
{
    let old = old_terms(store, z);
    let stop = holding(&old, z.v, 0, z.end);
    let mut p = Place {
        at: 0,
        stop,
        used: 0,
        out: 0,
    };
    while goes_on(z, p) {
        let Some(next) = turn(store, z, scratch, p) else {
            words::stretches::clear(scratch, 0, z.limit * (z.w + 1));
            return None;
        };
        p = next;
    }
    Some(Parts {
        out: p.out,
        at: p.at,
    })
}
