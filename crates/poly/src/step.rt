// A step of a gate: its variable replaced by what its record stands for in every term of the store.
ghost use Rattle.std.specs.Prelude.{◌+◌, ◌*◌, ◌^◌, ◌≤◌, length};
ghost use Rattle.rules.specs.Polynomial.{gather};
ghost use Rattle.rules.specs.Steps.{all_replaced};
ghost use Rattle.words.specs.Listed.{terms_of};
ghost use Rattle.words.specs.Stored.{decoded};
ghost use Rattle.weave.specs.Written.{Gathered, Kept};
ghost use Rattle.weave.specs.Weaving.{holding};
ghost use Rattle.tally.specs.Marks.{Renumbered};
ghost use Rattle.poly.specs.Stepping.{Fit, Ready, Prepared, Numberable, Stepped, Each};

use merge::merging::merge;
use merge::streams::{Gate, Streams, Weighted, streams_of};
use rules::records::Record;
use weave::weaving::Sizes;
use words::listed::Terms;

// What becomes of the terms that hold the gate's variable, where the row is what its record is brought apart to, gathered into scratch:
// how many terms; None if there are more than `limit`. The record is there for the contract alone.
#[tactic(auto, using(merge::proofs::Flow::streams_few))]
fn replacements(
    terms: &Terms,
    g: Gate,
    r: Record,
    row: &[i16],
    scratch: &mut [u64],
    limit: usize,
) -> Option<usize>
    requires { Fit terms.now.width (terms_of terms.now) g r row.now × (limit * (terms.now.width + 1) ≤ length scratch.old) }
    ensures { Gathered terms.now.width limit (gather (2 ^ g.l) (all_replaced (2 ^ g.l) g.v r (holding g.v (terms_of terms.now)))) result scratch.new
        × Kept terms.now.width limit result scratch.old scratch.new }
{
    let mut multipliers = [0i16; 64];
    let mut masks = [0u64; 2 * 64];
    let count = streams_of(g);
    gates::multipliers::multiplier_table(row, &mut multipliers[..count * 8]);
    gates::masks::mask_table(&mut masks, count, terms.width, g.v, g.over);
    let weighted = Weighted {
        terms: *terms,
        gate: g,
        multipliers: &multipliers,
    };
    let streams = Streams {
        weighted,
        masks: &masks,
    };
    merge(&streams, scratch, limit)
}

// The step of gate g, whose record is brought apart to the row, in the store: how many terms it then holds; None, and the store as it
// was, if there would be more than `limit`. No term from `end` on holds the gate's variable. What becomes of those that do is made
// behind room for `limit` terms, and then put together with the others; more than twice as many could not be cancelled down to the
// limit. The store is written to, so it is not lent as terms.
fn replace(
    store: &mut [u64],
    n: usize,
    w: usize,
    g: Gate,
    r: Record,
    row: &[i16],
    end: usize,
    scratch: &mut [u64],
    limit: usize,
    numbers: &mut [u32],
) -> Option<usize>
    requires { Prepared store.old n w g r row.now end scratch.old limit × Numberable (length numbers.old) g.v r (decoded w n store.old) }
    ensures { Stepped w limit (gather (2 ^ g.l) (all_replaced (2 ^ g.l) g.v r (decoded w n store.old))) store.old scratch.old result store.new scratch.new
        × Renumbered limit (decoded w n store.old) (gather (2 ^ g.l) (all_replaced (2 ^ g.l) g.v r (decoded w n store.old))) numbers.old numbers.new }
{
    let stride = w + 1;
    let base = limit * stride;
    let front = Terms {
        words: store,
        count: end,
        width: w,
    };
    let made = replacements(&front, g, r, row, &mut scratch[base..], 2 * limit)?;
    let sizes = Sizes {
        n,
        w,
        k: g.k,
        v: g.v,
        l: g.l,
        end,
        made,
        limit,
    };
    let held = crate::settling::put_together(store, sizes, scratch, numbers);
    words::stretches::clear(scratch, base, base + made * stride);
    held
}

// How many terms a store then holds, None without room, and how many the gate's record makes of one before like ones meet, or 0 where no term holds the gate.
#[derive(Clone, Copy)]
pub struct Outcome {
    pub held: Option<usize>,
    pub each: u32,
}

// The step of gate v with the record r in the store, w words to a set and l bits to a coefficient: how many terms it then holds;
// None, and the store as it was, if there would be more than `limit`. Scratch is zeros before and after, and the numbers go on with
// the terms held.
pub fn step(
    w: usize,
    l: u32,
    v: u32,
    r: Record,
    limit: usize,
    held: usize,
    store: &mut [u64],
    scratch: &mut [u64],
    numbers: &mut [u32],
) -> Outcome
    requires { Ready w l v r limit held store.old scratch.old × Numberable (length numbers.old) v r (decoded w held store.old) }
    ensures { Stepped w limit (gather (2 ^ l) (all_replaced (2 ^ l) v r (decoded w held store.old))) store.old scratch.old result.held store.new scratch.new
        × Renumbered limit (decoded w held store.old) (gather (2 ^ l) (all_replaced (2 ^ l) v r (decoded w held store.old))) numbers.old numbers.new
        × Each v r (decoded w held store.old) result.each }
{
    let gate = v as usize;
    let terms = Terms {
        words: store,
        count: held,
        width: w,
    };
    let end = weave::seeking::last_holding(&terms, gate);
    if end == 0 {
        return Outcome {
            held: Some(held),
            each: 0,
        };
    }
    let k = weave::seeking::words_used(&terms);
    let mut row = [0i16; 8];
    let parts = gates::apart::apart(r, &mut row);
    let g = Gate {
        v: gate,
        over: parts.variables,
        l,
        k,
    };
    Outcome {
        held: replace(store, held, w, g, r, &row, end, scratch, limit, numbers),
        each: parts.made,
    }
}
