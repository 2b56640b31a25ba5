// The answer by the last polynomial: equal, differs with the wrong operands, or unfinished.
#![tactic(auto)]

ghost use Rattle.std.specs.Prelude.{◌≡◌, false, cond, ◌+◌, ◌*◌, ◌/◌, ◌^◌, ◌<◌, ◌≤◌, ltb, length, drop};
ghost use Rattle.rules.specs.Judging.{misfits, set_width, differs, ended};
ghost use Rattle.rules.specs.Judging as rule;
ghost use Rattle.rules.specs.Limits.{most_variables};
ghost use Rattle.rules.specs.Product.{kind_of};
ghost use Rattle.rules.specs.Says.{answer_says};
ghost use Rattle.words.specs.Numbers.{num, words_at};
ghost use Rattle.words.specs.Stored.{decoded};
ghost use Rattle.ending.specs.Ending.{Halves, Ending};

use netlist::table::SoundBlock;
use product::{first_word, operand_bits, second_word, word_for};
use rules::answers::Answer;
use rules::counts::Counts;
use words::sets::holds;

// Whether the first term, whose set is the largest, holds no gate: then no term does. Looked for from the top, where most sets that hold one
// have it.
fn inputs_only(c: Counts, store: &[u64]) -> bool
    requires { (c.i ≤ c.m) × (c.m ≤ most_variables) × (1 + set_width c ≤ length store.now)
        × (num (words_at store.now 1 (set_width c)) < 2 ^ (c.m + 1)) }
    ensures { result ≡ ltb (num (words_at store.now 1 (set_width c))) (2 ^ (c.i + 1)) }
{
    let w = (c.m / 64 + 1) as usize;
    for v in (c.i + 1..c.m + 1).rev() {
        if holds(store, 1, w, v as usize) == 1 {
            return false;
        }
    }
    true
}

// Half of the set at word `at`: its variables, counted from 0 on.
#[tactic(auto, using(crate::proofs::Ended::half_one, crate::proofs::Ended::half_two))]
fn halved(store: &[u64], at: usize, w: usize) -> u64
    requires { (0 < w) × (at + w ≤ length store.now) × (num (words_at store.now at w) < 2 ^ 65) }
    ensures { result ≡ num (words_at store.now at w) / 2 }
{
    let low = store[at] / 2;
    if w == 1 {
        low
    } else {
        low + (store[at + 1] << 63)
    }
}

// Of two halved sets the one with fewer variables, of as many the smaller.
#[tactic(auto, using(crate::proofs::Ended::sooner_halves))]
fn sooner(x: u64, y: u64) -> u64
    ensures { 2 * result ≡ cond (rule.sooner (2 * x) (2 * y)) (2 * x) (2 * y) }
{
    if (x.count_ones(), x) < (y.count_ones(), y) {
        x
    } else {
        y
    }
}

// Half of the set that comes before all others.
#[tactic(auto, using(crate::proofs::Ended::half_first, crate::proofs::Ended::half_at))]
fn soonest(store: &[u64], count: usize, w: usize) -> u64
    requires { Halves w count store.now }
    ensures { 2 * result ≡ rule.soonest (num (words_at store.now 1 w)) (drop 1 (decoded w count store.now)) }
{
    let mut best = halved(store, 1, w);
    for k in 1..count {
        best = sooner(halved(store, k * (w + 1) + 1, w), best);
    }
    best
}

// Differs, with the wrong operands of a halved set: its low n bits are a, the next b, and those above c.
#[tactic(auto, using(rules::proofs::Places::fits, netlist::proofs::Facts::facts, product::proofs::Readings::one_shift, crate::proofs::Ended::twice_above, crate::proofs::Ended::shift_some), unfolding(rules::specs::Says::answer_says, rules::specs::Judging::differs, rules::specs::Judging::shown_for, rules::specs::Product::operand_a, rules::specs::Product::operand_b, rules::specs::Product::operand_c))]
fn differing(block: &SoundBlock, kind: u32, steps: usize, terms: usize, half: u64) -> Answer
    requires { misfits block.now.block.counts (kind_of kind) ≡ false }
    ensures { let b = block.now.block in answer_says result ≡ differs (kind_of kind) b.counts b.table.now steps terms (2 * half) }
{
    let c = block.block.counts;
    let n = operand_bits(c, kind);
    let a = half % (1u64 << n);
    let above = half >> n;
    let b = above % (1u64 << n);
    let added = above >> n;
    let first = first_word(kind, n, a, b);
    let second = second_word(kind, b, added);
    let got = block.shown(first, second);
    let wanted = word_for(kind, n, a, b, added);
    Answer::Differs {
        steps,
        terms,
        a,
        b,
        c: added,
        got,
        wanted,
    }
}

// The answer after so many steps, by the terms that are held.
#[tactic(auto, using(crate::proofs::Ended::ending_first, crate::proofs::Ended::ending_unfinished, crate::proofs::Ended::ending_differs), unfolding(rules::specs::Says::answer_says, rules::specs::Judging::ended, rules::specs::Judging::set_width, words::specs::Stored::decoded))]
pub fn answer(block: &SoundBlock, kind: u32, steps: usize, count: usize, store: &[u64]) -> Answer
    requires { Ending block.now.block.counts kind count store.now }
    ensures { let b = block.now.block in answer_says result ≡ ended (kind_of kind) b.counts b.table.now steps (decoded (set_width b.counts) count store.now) }
{
    let c = block.block.counts;
    if count == 0 {
        return Answer::Equal { steps, terms: 0 };
    }
    if !inputs_only(c, store) {
        return Answer::Unfinished {
            steps,
            terms: count,
        };
    }
    let w = (c.m / 64 + 1) as usize;
    let half = soonest(store, count, w);
    differing(block, kind, steps, count, half)
}
