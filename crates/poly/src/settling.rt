// New terms and those of a store that do not hold a variable, put together in the store.
ghost use Rattle.std.specs.Prelude.{◌≡◌, ◌++◌, ◌+◌, ◌-◌, ◌*◌, ◌^◌, ◌<◌, ◌≤◌, Some, length, take, drop, replicate};
ghost use Rattle.rules.specs.Polynomial.{gather};
ghost use Rattle.words.specs.Numbers.{num, words_at};
ghost use Rattle.weave.specs.Weaving.{without, old_terms, new_terms};
ghost use Rattle.tally.specs.Marks.{Renumbered};
ghost use Rattle.poly.specs.Stepping.{Both, Numbering, Together, in_place};

use tally::{ONE_AWAY, mark_all, mark_difference};
use weave::weaving::Sizes;
use words::listed::Terms;
use words::stretches::{clear, copy, shift};

// Words moved at a time: 4 KiB on either side, which the nearest cache holds.
const STRETCH: usize = 512;

// Moves the first `end` words of scratch to the front of the store and leaves zeros there. A stretch is cleared while it is still
// at hand.
fn hand_over(scratch: &mut [u64], store: &mut [u64], end: usize)
    requires { (end ≤ length scratch.old) × (end ≤ length store.old) }
    ensures { (store.new ≡ take end scratch.old ++ drop end store.old)
        × (scratch.new ≡ replicate end 0 ++ drop end scratch.old) }
{
    for done in (0..end).step_by(STRETCH) {
        let next = end.min(done + STRETCH);
        copy(scratch, done, store, done, next - done);
        clear(scratch, done, next);
    }
}

// Puts both parts of a weave together in the store, which held n terms: those from `at` on are shifted to where the `out` terms of
// scratch end, and these are moved in front of them. It clears what is left over, and no word that was not used. The store is written
// to, so it is not lent as terms.
fn settle(store: &mut [u64], n: usize, w: usize, scratch: &mut [u64], at: usize, out: usize)
    requires { (w ≤ 16) × (at ≤ n) × (n * (w + 1) ≤ length store.old) × ((out + (n - at)) * (w + 1) ≤ length store.old) × (out * (w + 1) ≤ length scratch.old)
        × (drop (n * (w + 1)) store.old ≡ replicate (length store.old - n * (w + 1)) 0) }
    ensures { (store.new ≡ take (out * (w + 1)) scratch.old ++ (take ((n - at) * (w + 1)) (drop (at * (w + 1)) store.old) ++ replicate (length store.old - (out + (n - at)) * (w + 1)) 0))
        × (scratch.new ≡ replicate (out * (w + 1)) 0 ++ drop (out * (w + 1)) scratch.old) }
{
    let stride = w + 1;
    let front = out * stride;
    let end = (out + (n - at)) * stride;
    shift(store, at * stride, front, (n - at) * stride);
    hand_over(scratch, store, front);
    clear(store, end, end.max(n * stride));
}

// Both lists gathered in the store by way of scratch: how many terms it then holds; None, and the store as it was, if there would
// be more than `limit`. Scratch is as it was, and the numbers are those of what the store holds.
fn woven(store: &mut [u64], z: Sizes, scratch: &mut [u64], numbers: &mut [u32]) -> Option<usize>
    requires { Both z store.old scratch.old × Numbering z store.old scratch.old (length numbers.old) }
    ensures { Together z (gather (2 ^ z.l) (without z.v (old_terms z store.old) ++ new_terms z scratch.old)) store.old scratch.old result store.new scratch.new
        × Renumbered z.limit (old_terms z store.old) (gather (2 ^ z.l) (without z.v (old_terms z store.old) ++ new_terms z scratch.old)) numbers.old numbers.new }
{
    let p = weave::weaving::weave(store, z, scratch)?;
    let held = p.out + (z.n - p.at);
    if held > z.limit {
        clear(scratch, 0, z.limit * (z.w + 1));
        return None;
    }
    let before = Terms {
        words: store,
        count: p.at,
        width: z.w,
    };
    let after = Terms {
        words: scratch,
        count: p.out,
        width: z.w,
    };
    mark_difference(&before, &after, z.k, numbers);
    settle(store, z.n, z.w, scratch, p.at, p.out);
    Some(held)
}

// So few new terms are put in place: it is a call for each, so this bounds the stack.
const FEW: usize = 16;

// Whether the new terms are put in place: they are few, there is room for all terms, and no variable is above v, so that the terms that
// hold it stand in front. Where they are many, or the limit is near, the way through scratch is taken.
fn goes_in_place(store: &[u64], z: Sizes) -> bool
    requires { (z.n * (z.w + 1) ≤ length store.now) × (0 < z.n) × (z.end ≤ z.n) × (z.w ≤ 16) × (z.v < 64 * z.w) × (num (words_at store.now 1 z.w) < 2 ^ (64 * z.w)) }
    ensures { result ≡ in_place z store.now }
{
    z.made <= FEW && z.n - z.end + z.made <= z.limit && weave::seeking::leads(store, z.w, z.v)
}

// Both lists gathered in the store: how many terms it then holds; None, and the store as it was, if there would be more than
// `limit`. Scratch is as it was, and the numbers are those of what the store holds.
pub fn put_together(
    store: &mut [u64],
    z: Sizes,
    scratch: &mut [u64],
    numbers: &mut [u32],
) -> Option<usize>
    requires { Both z store.old scratch.old × Numbering z store.old scratch.old (length numbers.old) }
    ensures { Together z (gather (2 ^ z.l) (without z.v (old_terms z store.old) ++ new_terms z scratch.old)) store.old scratch.old result store.new scratch.new
        × Renumbered z.limit (old_terms z store.old) (gather (2 ^ z.l) (without z.v (old_terms z store.old) ++ new_terms z scratch.old)) numbers.old numbers.new }
{
    if goes_in_place(store, z) {
        let front = Terms {
            words: store,
            count: z.end,
            width: z.w,
        };
        mark_all(&front, z.k, ONE_AWAY, numbers);
        return Some(splice::splicing::splice_all(store, z, scratch, numbers));
    }
    woven(store, z, scratch, numbers)
}
