// What the judge says of a netlist text.
ghost use Rattle.std.specs.Prelude.{◌≡◌, ◌≤◌};
ghost use Rattle.rules.specs.Limits.{most_desk_variables};
ghost use Rattle.rules.specs.Reading.{reading};
ghost use Rattle.rules.specs.Says.{says};
ghost use Rattle.rules.specs.Desk.{desk_table, desk_judging, desk_read};
ghost use Rattle.rules.specs.declared.records.RecordKind.TheVariants.{Gates};

use crate::order::put_falling;
use judge::unlogged::judge_unlogged;
use rules::answers::Answer;
use rules::counts::Counts;
use rules::limits::Limits;
use rules::refusals::Refusal;

// What is said of a netlist of AND gates with M at most 127. A term of it has at most three words: the store has room for 512 of them, scratch
// for four times as many. The occurrences are M + 1 words, at most 128.
pub fn judged(kind: u32, counts: Counts, table: &[u32]) -> Result<Answer, Refusal>
    requires { (counts.a ≤ counts.m) × (counts.m ≤ most_desk_variables) × (counts.records ≡ Gates) }
    ensures { says result ≡ desk_judging kind counts table.now }
{
    let mut order = [0u32; 127];
    let mut store = [0u64; 1536];
    let mut scratch = [0u64; 6144];
    let mut occurrences = [0u32; 127 + 1];
    let count = put_falling(counts, &mut order);
    judge_unlogged(
        counts,
        table,
        kind,
        Limits::DESK_TERMS,
        &order[..count],
        &mut store,
        &mut scratch,
        &mut occurrences,
    )
}

// What is said of a netlist text: its own refusals come first, then M above 127.
pub fn read_and_judged(kind: u32, text: &[u8]) -> Result<Answer, Refusal>
    ensures { says result ≡ desk_read kind (reading desk_table text.now) }
{
    let mut table = [0u32; 2106];
    let counts = aiger::read(text, &mut table)?;
    if Limits::DESK_VARIABLES_MOST < counts.m {
        return Err(Refusal::DeskInput);
    }
    let words = counts.o as usize + 2 * counts.a as usize;
    judged(kind, counts, &table[..words])
}
