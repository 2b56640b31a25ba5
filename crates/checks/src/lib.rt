// The checks of judging, in their order; of the lent buffers they ask only how long they are.
#![tactic(auto)]

ghost use Rattle.std.specs.Prelude.{◌≡◌, true, ◌≤◌};
ghost use Rattle.rules.specs.Each.{every};
ghost use Rattle.rules.specs.Limits.{most_terms};
ghost use Rattle.rules.specs.Netlist.{counts_right};
ghost use Rattle.rules.specs.Says.{first, refused};
ghost use Rattle.rules.specs.Judging.{is_gate, judge_checks, most_made, lent_short, kind_wrong};
ghost use Rattle.checks.specs.Checking.{block_checks, run_checks};

use netlist::table::SoundBlock;
use product::{kind_unknown, operand_bits, outputs, shares};
use rules::counts::Counts;
use rules::limits::Limits;
use rules::records::RecordKind;
use rules::refusals::Refusal;

// The lengths of the lent buffers.
#[derive(Clone, Copy)]
pub struct Lent {
    pub store: usize,
    pub scratch: usize,
    pub log: usize,
    pub occurrences: usize,
}

// Whether the kind is unknown, or the block has not the inputs or the outputs of the kind.
fn kind_wrong(c: Counts, kind: u32) -> bool
    requires { counts_right c ≡ true }
    ensures { result ≡ kind_wrong c kind }
{
    if kind_unknown(kind) {
        return true;
    }
    (c.i % shares(kind) != 0) | (c.o != outputs(kind, operand_bits(c, kind)))
}

// Whether every step names a gate. No way out at the first that names none, as with the records of a table.
fn names_gates(c: Counts, order: &[u32]) -> bool
    ensures { result ≡ every (is_gate c) order.now }
{
    let mut right = true;
    for v in order {
        right = right & ((c.i < *v) & (*v <= c.m));
    }
    right
}

// The most terms that a step makes of one.
fn most_made(records: RecordKind) -> usize
    ensures { result ≡ most_made records }
{
    match records {
        RecordKind::Gates => 4,
        RecordKind::Cells => 8,
    }
}

// Whether store, scratch, log or occurrences is too short for so many terms and steps.
fn lent_short(c: Counts, limit: usize, steps: usize, lent: Lent) -> bool
    requires { (counts_right c ≡ true) × (limit ≤ most_terms) }
    ensures { result ≡ lent_short c limit steps lent.store lent.scratch lent.log lent.occurrences }
{
    let records = c.records;
    let width = (c.m / 64 + 1) as usize + 1;
    (lent.store < limit * width)
        | (lent.scratch < most_made(records) * limit * width)
        | (lent.log < steps)
        | (lent.occurrences < c.m as usize + 1)
}

// The first refusal of counts, table and kind, if there is one.
fn check_block(c: Counts, table: &[u32], kind: u32) -> Result<(), Refusal>
    ensures { refused result ≡ first (block_checks c table.now kind) }
{
    SoundBlock::made(c, table)?;
    if kind_wrong(c, kind) {
        return Err(Refusal::WrongKind);
    }
    Ok(())
}

// The first refusal of limit, order and lent buffers, if there is one.
fn check_run(c: Counts, limit: u64, order: &[u32], lent: Lent) -> Result<(), Refusal>
    requires { counts_right c ≡ true }
    ensures { refused result ≡ first (run_checks c limit order.now lent) }
{
    let limits = Limits::made(limit, c.m, order.len())?;
    if !names_gates(c, order) {
        return Err(Refusal::WrongOrder);
    }
    if lent_short(c, limits.terms, limits.steps, lent) {
        return Err(Refusal::ShortBuffer);
    }
    Ok(())
}

// The first refusal, if there is one.
pub fn check(
    c: Counts,
    table: &[u32],
    kind: u32,
    limit: u64,
    order: &[u32],
    lent: Lent,
) -> Result<(), Refusal>
    ensures { refused result ≡ first (judge_checks c table.now kind limit order.now lent.store lent.scratch lent.log lent.occurrences) }
{
    check_block(c, table, kind)?;
    check_run(c, limit, order, lent)
}
