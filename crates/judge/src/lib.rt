// The judge: what comes before the run, the run over an order, the log, and what comes after it.
#![tactic(auto)]

pub mod deciding; // deciding.rt: what comes before the run, and after it
pub mod log; // log.rt: one record of the log
pub mod run; // run.rt: the steps of an order, and the log
pub mod turn; // turn.rt: one step
pub mod unlogged; // unlogged.rt: the judge with a log of its own

ghost use Rattle.rules.specs.Judging.{Judged};
ghost use Rattle.judge.specs.Deciding.{handed};

use crate::deciding::{closed, set_out};
use crate::run::run;
use netlist::table::{Block, SoundBlock};
use rules::answers::{Answer, StepRecord};
use rules::counts::Counts;
use rules::refusals::Refusal;

// The answer to a block under a reading, by an order of steps and a limit of terms, or the first refusal in the order of checks. The
// last polynomial is left in the store, zeros in scratch, a record of each step completed in the log, and in front of `occurrences` the
// number of terms, and of those that hold each variable.
pub fn judge(
    c: Counts,
    table: &[u32],
    kind: u32,
    limit: u64,
    order: &[u32],
    store: &mut [u64],
    scratch: &mut [u64],
    log: &mut [StepRecord],
    occurrences: &mut [u32],
) -> Result<Answer, Refusal>
    ensures { Judged (handed c table.now kind limit order.now store.old scratch.old log.old occurrences.old) result store.new scratch.new log.new occurrences.new }
{
    let start = set_out(
        c,
        table,
        kind,
        limit,
        order,
        log.len(),
        store,
        scratch,
        occurrences,
    )?;
    let Some(held) = start else {
        return Ok(Answer::OutOfRoom { step: 0, terms: 0 });
    };
    let block = SoundBlock {
        block: Block { counts: c, table },
    };
    let ran = run(
        &block,
        limit as usize,
        order,
        held,
        store,
        scratch,
        log,
        occurrences,
    );
    Ok(closed(&block, kind, order.len(), ran, store))
}
