// The new terms, which stand in scratch behind room for as many terms as the limit allows, put among the terms of a store.
ghost use Rattle.std.specs.Prelude.{◌≡◌, ◌+◌, ◌-◌, ◌*◌, ◌≤◌, length, drop, replicate};
ghost use Rattle.rules.specs.Judging.{polynomial_words, padded};
ghost use Rattle.rules.specs.Occurrences.{occurring};
ghost use Rattle.tally.specs.Marks.{Moved};
ghost use Rattle.splice.specs.Splicing.{Splicing, Spliced, terms_left, spliced};

use crate::spots::place;
use crate::writing::put;
use tally::mark_change;
use weave::weaving::Sizes;
use words::listed::Terms;
use words::stretches::{clear, shift};

// Puts the new terms from the `used`-th on among the store's from the `first`-th on, all of them from the `to`-th place on: how many
// terms that are. A stretch that goes further in front is moved before what stands behind it, and one that goes further behind after
// that: so none is overwritten before it is moved. The numbers go on from the store's terms that are left to all of these.
fn splice(
    store: &mut [u64],
    z: Sizes,
    scratch: &[u64],
    first: usize,
    used: usize,
    to: usize,
    numbers: &mut [u32],
) -> usize
    requires { Splicing z store.old scratch.now (length numbers.old) first used to }
    ensures { Spliced z store.old scratch.now first used to result store.new
        × Moved (occurring (terms_left z store.old first)) (occurring (spliced z store.old scratch.now first used)) numbers.old numbers.new }
{
    let stride = z.w + 1;
    let left = z.n - first;
    let here = first * stride;
    let there = to * stride;
    if used == z.made {
        shift(store, here, there, left * stride);
        return left;
    }
    let from = (z.limit + used) * stride;
    let terms = Terms {
        words: &store[here..],
        count: left,
        width: z.w,
    };
    let spot = place(&terms, z.k, z.l, scratch, from);
    let above = spot.above;
    let at = to + above;
    let met = usize::from(spot.met);
    let count = usize::from(spot.c != 0);
    let to_front = there < here;
    if to_front {
        shift(store, here, there, above * stride);
    }
    let next = first + above + met;
    let rest = splice(store, z, scratch, next, used + 1, at + count, numbers);
    let to_back = here < there;
    if to_back {
        shift(store, here, there, above * stride);
    }
    put(scratch, from + 1, z.w, store, at * stride, spot.c);
    mark_change(scratch, from, z.k, spot.met, spot.c != 0, numbers);
    above + count + rest
}

// Puts the new terms among the store's from the `end`-th on, in front of the store: how many terms it then holds. What is left over is
// cleared, and the numbers go on from those terms of the store to what it then holds.
#[tactic(auto, using(crate::proofs::Finishing::held_room, crate::proofs::Finishing::finished, crate::proofs::Finishing::finished_fewer))]
pub fn splice_all(store: &mut [u64], z: Sizes, scratch: &[u64], numbers: &mut [u32]) -> usize
    requires { Splicing z store.old scratch.now (length numbers.old) z.end 0 0 × (drop (z.n * (z.w + 1)) store.old ≡ replicate (length store.old - z.n * (z.w + 1)) 0) }
    ensures { (result ≡ length (spliced z store.old scratch.now z.end 0)) × (result ≤ z.limit)
        × (store.new ≡ padded (length store.old) (polynomial_words z.w (spliced z store.old scratch.now z.end 0)))
        × Moved (occurring (terms_left z store.old z.end)) (occurring (spliced z store.old scratch.now z.end 0)) numbers.old numbers.new }
{
    let held = splice(store, z, scratch, z.end, 0, 0, numbers);
    if held < z.n {
        clear(store, held * (z.w + 1), z.n * (z.w + 1));
    }
    held
}
