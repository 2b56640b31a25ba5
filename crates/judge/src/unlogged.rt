// The judge with a log of its own, for callers that ask for the answer alone.
ghost use Rattle.judge.specs.Deciding.{handed, Unlogged, blank_log};

use crate::judge;
use rules::answers::{Answer, StepRecord};
use rules::counts::Counts;
use rules::refusals::Refusal;

// The answer of the judge, with a log that is long enough for the variables of the desk program.
pub fn judge_unlogged(
    c: Counts,
    table: &[u32],
    kind: u32,
    limit: u64,
    order: &[u32],
    store: &mut [u64],
    scratch: &mut [u64],
    occurrences: &mut [u32],
) -> Result<Answer, Refusal>
    ensures { Unlogged (handed c table.now kind limit order.now store.old scratch.old blank_log occurrences.old) result store.new scratch.new occurrences.new }
{
    let mut log = [StepRecord {
        gate: 0,
        terms: 0,
        made: 0,
    }; 127];
    judge(
        c,
        table,
        kind,
        limit,
        order,
        store,
        scratch,
        &mut log,
        occurrences,
    )
}
