// The steps of an order, one after the other, and the log of those completed.
ghost use Rattle.std.specs.Prelude.{◌≡◌, true, ◌^◌, ◌≤◌, length};
ghost use Rattle.rules.specs.Each.{every};
ghost use Rattle.rules.specs.Judging.{is_gate, set_width};
ghost use Rattle.rules.specs.Steps.{trail};
ghost use Rattle.words.specs.Stored.{decoded};
ghost use Rattle.judge.specs.Running.{Running, Finished};

use crate::log::put_record;
use crate::turn::take_turn;
use netlist::table::SoundBlock;
use rules::answers::StepRecord;

// The steps completed before one that had no room for its terms, and the terms then held.
#[derive(Clone, Copy)]
pub struct NoRoom {
    pub steps: usize,
    pub terms: usize,
}

// Runs the order on the `held` terms of the store: the terms held after all steps. Each step completed is logged.
pub fn run(
    block: &SoundBlock,
    limit: usize,
    order: &[u32],
    held: usize,
    store: &mut [u64],
    scratch: &mut [u64],
    log: &mut [StepRecord],
    occurrences: &mut [u32],
) -> Result<usize, NoRoom>
    requires { let b = block.now.block in let p = decoded (set_width b.counts) held store.old in
        Running b.counts b.table.now limit held p store.old scratch.old occurrences.old × (every (is_gate b.counts) order.now ≡ true) × (length order.now ≤ length log.old) }
    ensures { let b = block.now.block in let p = decoded (set_width b.counts) held store.old in
        Finished b.counts b.table.now limit order.now (trail (2 ^ b.counts.o) b.counts b.table.now p order.now) store.old scratch.old log.old occurrences.old result store.new scratch.new log.new occurrences.new }
{
    let mut left = held;
    for (k, v) in order.iter().enumerate() {
        let turn = take_turn(block, *v, limit, left, store, scratch, occurrences);
        let Some(terms) = turn.held else {
            return Err(NoRoom {
                steps: k,
                terms: left,
            });
        };
        put_record(log, k, *v, terms as u32, turn.made);
        left = terms;
    }
    Ok(left)
}
