// What comes before the run, and after it.
ghost use Rattle.std.specs.Prelude.{◌≡◌, ◌+◌, ◌^◌, ◌<◌, ◌≤◌, length};
ghost use Rattle.rules.specs.Occurrences.{with_occurrences};
ghost use Rattle.tally.specs.Marks.{Counting};
ghost use Rattle.words.specs.Listed.{terms_of};
ghost use Rattle.rules.specs.Product.{kind_of};
ghost use Rattle.rules.specs.Says.{answer_says};
ghost use Rattle.rules.specs.Steps as rule;
ghost use Rattle.judge.specs.Deciding.{Block, Begun, SetOut, Closing, last};

use crate::run::NoRoom;
use checks::{Lent, check};
use ending::answer;
use netlist::table::SoundBlock;
use rules::answers::Answer;
use rules::counts::Counts;
use rules::refusals::Refusal;
use start::start;
use tally::count;
use words::listed::Terms;
use words::stretches::clear;

// Counts terms of a block: the numbers stand in front of `occurrences`.
fn count_held(c: Counts, terms: &Terms, occurrences: &mut [u32])
    requires { Counting terms.now terms.now.width (c.m + 1) × (terms.now.count < 2 ^ 32) × (c.m + 1 ≤ length occurrences.old) }
    ensures { occurrences.new ≡ with_occurrences c (terms_of terms.now) occurrences.old }
{
    let end = c.m as usize + 1;
    count(terms, terms.width, &mut occurrences[..end]);
}

// Clears store and scratch whole, writes the start polynomial and counts its variables: its number of terms, or none, and no term, where it
// has more than the limit.
fn begin(
    c: Counts,
    table: &[u32],
    kind: u32,
    limit: usize,
    store: &mut [u64],
    scratch: &mut [u64],
    occurrences: &mut [u32],
) -> Option<usize>
    requires { Block c table.now kind limit store.old scratch.old occurrences.old }
    ensures { Begun c limit (rule.start (kind_of kind) c table.now) store.old scratch.old occurrences.old result store.new scratch.new occurrences.new }
{
    clear(store, 0, store.len());
    clear(scratch, 0, scratch.len());
    let held = start(c, table, kind, limit, store);
    let terms = Terms {
        words: store,
        count: held.unwrap_or(0),
        width: (c.m / 64 + 1) as usize,
    };
    count_held(c, &terms, occurrences);
    held
}

// The checks, and the start where nothing is refused: the terms held, or none where they have no room. Of the log it asks only how long it
// is.
pub fn set_out(
    c: Counts,
    table: &[u32],
    kind: u32,
    limit: u64,
    order: &[u32],
    log: usize,
    store: &mut [u64],
    scratch: &mut [u64],
    occurrences: &mut [u32],
) -> Result<Option<usize>, Refusal>
    ensures { SetOut c table.now kind limit order.now log store.old scratch.old occurrences.old result store.new scratch.new occurrences.new }
{
    let lent = Lent {
        store: store.len(),
        scratch: scratch.len(),
        log,
        occurrences: occurrences.len(),
    };
    check(c, table, kind, limit, order, lent)?;
    Ok(begin(c, table, kind, limit as usize, store, scratch, occurrences))
}

// The answer after a run of so many steps: R at the step without room, or else by the terms that the run left in the store.
pub fn closed(
    block: &SoundBlock,
    kind: u32,
    steps: usize,
    ran: Result<usize, NoRoom>,
    store: &[u64],
) -> Answer
    requires { Closing block.now.block.counts kind steps ran store.now }
    ensures { let b = block.now.block in answer_says result ≡ last b.counts b.table.now kind steps ran store.now }
{
    match ran {
        Ok(terms) => answer(block, kind, steps, terms, store),
        Err(NoRoom { steps, terms }) => Answer::OutOfRoom {
            step: steps + 1,
            terms,
        },
    }
}
