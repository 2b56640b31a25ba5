// Judging a block.
ghost use Rattle.std.specs.Prelude.{◌≡◌, ◌≤◌, length};
ghost use Rattle.rules.specs.Says.{answer_says};
ghost use Rattle.judge.specs.Deciding.{handed};
ghost use Rattle.exports.specs.Exported.{number_of, given, named, JudgeGiven};

use crate::giving::{put, refused};
use rules::answers::{Answer, StepRecord};
use rules::refusals::Refusal;

// Writes the values of an answer, and gives its number.
fn put_answer(said: Answer, answer: &mut [u64]) -> u32
    requires { 7 ≤ length answer.old }
    ensures { (result ≡ number_of (answer_says said)) × (answer.new ≡ given (answer_says said) answer.old) }
{
    match said {
        Answer::Equal { steps, terms } => {
            put(&[steps as u64, terms as u64], answer);
            0
        }
        Answer::OutOfRoom { step, terms } => {
            put(&[step as u64, terms as u64], answer);
            2
        }
        Answer::Unfinished { steps, terms } => {
            put(&[steps as u64, terms as u64], answer);
            3
        }
        Answer::Differs {
            steps,
            terms,
            a,
            b,
            c,
            got,
            wanted,
        } => {
            put(&[steps as u64, terms as u64, a, b, c, got, wanted], answer);
            1
        }
    }
}

// 0 to 3 for E, D, R, U with the answer's values, or 100 plus the refusal with nothing changed; 112 where there is no room for
// seven values.
#[unsafe(no_mangle)]
pub extern "C" fn hraskell_judge(
    m: u32,
    i: u32,
    l: u32,
    o: u32,
    a: u32,
    table: &[u32],
    cells: u32,
    kind: u32,
    limit: u64,
    order: &[u32],
    store: &mut [u64],
    scratch: &mut [u64],
    log: &mut [StepRecord],
    occurrences: &mut [u32],
    answer: &mut [u64],
) -> u32
    ensures { JudgeGiven (handed (named m i l o a cells) table.now kind limit order.now store.old scratch.old log.old occurrences.old) answer.old result store.new scratch.new log.new occurrences.new answer.new }
{
    if answer.len() < 7 {
        return refused(Refusal::ShortBuffer);
    }
    let counts = crate::blocks::counts(m, i, l, o, a, cells);
    let judged = judge::judge(
        counts,
        table,
        kind,
        limit,
        order,
        store,
        scratch,
        log,
        occurrences,
    );
    match judged {
        Ok(said) => put_answer(said, answer),
        Err(refusal) => refused(refusal),
    }
}
