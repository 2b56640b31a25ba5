// Numbers of occurrences in lent words of 32 bits. They wrap at 2^32, so 2^32 - 1 takes one away, and a number may be taken before it is given.
#![tactic(auto)]

ghost use Rattle.std.specs.Prelude.{◌≡◌, ◌+◌, ◌*◌, ◌^◌, ◌<◌, ◌≤◌, length, take, drop};
ghost use Rattle.rules.specs.Each.{listed};
ghost use Rattle.rules.specs.Occurrences.{counts_at, occurring};
ghost use Rattle.rules.specs.Values.{bit};
ghost use Rattle.words.specs.Listed.{terms_of};
ghost use Rattle.words.specs.Numbers.{num, words_at};
ghost use Rattle.tally.specs.Marks.{Counting, Marked, Moved, counts_if};

use std::cmp::Ordering;
use words::listed::Terms;
use words::sets::compare_plain;

// Added to a number, it takes one away.
pub const ONE_AWAY: u32 = u32::MAX;

// Adds `by` at base + b for every bit b of x.
#[tactic(auto, using(crate::proofs::Marking::lowest_below))]
fn mark_word(x: u64, base: usize, by: u32, numbers: &mut [u32])
    requires { (base ≤ 960) × (2 ^ base * x < 2 ^ length numbers.old) }
    ensures { Marked by (bit (2 ^ base * x)) numbers.old numbers.new }
{
    let mut left = x;
    while left != 0 {
        let v = base + left.trailing_zeros() as usize;
        numbers[v] = numbers[v].wrapping_add(by);
        left &= left - 1;
    }
}

// Adds `by` at every variable of the set of k words at word `at`.
fn mark_set(words: &[u64], at: usize, k: usize, by: u32, numbers: &mut [u32])
    requires { (at + k ≤ length words.now) × (k ≤ 16) × (num (words_at words.now at k) < 2 ^ length numbers.old) }
    ensures { Marked by (bit (num (words_at words.now at k))) numbers.old numbers.new }
{
    for j in 0..k {
        mark_word(words[at + j], 64 * j, by, numbers);
    }
}

// Adds `by` at every variable of the set of k words at word `at`, and at 0.
fn mark(words: &[u64], at: usize, k: usize, by: u32, numbers: &mut [u32])
    requires { (at + k ≤ length words.now) × (k ≤ 16) × (0 < length numbers.old)
        × (num (words_at words.now at k) < 2 ^ length numbers.old) × (bit (num (words_at words.now at k)) 0 ≡ 0) }
    ensures { Marked by (counts_at (num (words_at words.now at k))) numbers.old numbers.new }
{
    numbers[0] = numbers[0].wrapping_add(by);
    mark_set(words, at, k, by, numbers);
}

// Adds `by` for each term from the `from`-th on, whose sets use k words: at its variables, and at 0.
fn mark_rest(terms: &Terms, from: usize, k: usize, by: u32, numbers: &mut [u32])
    requires { Counting terms.now k (length numbers.old) × (from ≤ terms.now.count) }
    ensures { Marked by (occurring (drop from (terms_of terms.now))) numbers.old numbers.new }
{
    for i in from..terms.count {
        mark(terms.words, terms.set_at(i), k, by, numbers);
    }
}

// Adds `by` for each term, whose sets use k words: at its variables, and at 0.
pub fn mark_all(terms: &Terms, k: usize, by: u32, numbers: &mut [u32])
    requires { Counting terms.now k (length numbers.old) }
    ensures { Marked by (occurring (terms_of terms.now)) numbers.old numbers.new }
{
    mark_rest(terms, 0, k, by, numbers);
}

// Counts terms, whose sets use k words.
pub fn count(terms: &Terms, k: usize, numbers: &mut [u32])
    requires { Counting terms.now k (length numbers.old) × (terms.now.count < 2 ^ 32) }
    ensures { numbers.new ≡ listed (length numbers.old) (occurring (terms_of terms.now)) }
{
    numbers.fill(0);
    mark_all(terms, k, 1, numbers);
}

// The numbers where the set of the term at word t was there or not, and is now there or not.
pub fn mark_change(words: &[u64], t: usize, k: usize, gone: bool, come: bool, numbers: &mut [u32])
    requires { (t + (k + 1) ≤ length words.now) × (k ≤ 16) × (0 < length numbers.old)
        × (num (words_at words.now (t + 1) k) < 2 ^ length numbers.old) × (bit (num (words_at words.now (t + 1) k)) 0 ≡ 0) }
    ensures { Moved (counts_if gone (num (words_at words.now (t + 1) k))) (counts_if come (num (words_at words.now (t + 1) k))) numbers.old numbers.new }
{
    match (gone, come) {
        (false, true) => mark(words, t + 1, k, 1, numbers),
        (true, false) => mark(words, t + 1, k, ONE_AWAY, numbers),
        (true, true) | (false, false) => {}
    }
}

// How many terms of two lists were passed.
#[derive(Clone, Copy)]
struct Passed {
    before: usize,
    after: usize,
}

// The numbers of the terms before become those of the terms after, until one list is at its end. A set in both changes none: it is passed
// over. Both lists fall, so it is come to in both at once; that the numbers are right does not hang on it.
fn pass(before: &Terms, after: &Terms, k: usize, numbers: &mut [u32]) -> Passed
    requires { Counting before.now k (length numbers.old) × Counting after.now k (length numbers.old) }
    ensures { (result.before ≤ before.now.count) × (result.after ≤ after.now.count)
        × Moved (occurring (take result.before (terms_of before.now))) (occurring (take result.after (terms_of after.now))) numbers.old numbers.new }
{
    let mut i = 0;
    let mut j = 0;
    while i < before.count && j < after.count {
        let gone = before.set_at(i);
        let come = after.set_at(j);
        match compare_plain(before.words, gone, after.words, come, k) {
            Ordering::Equal => {
                i += 1;
                j += 1;
            }
            Ordering::Greater => {
                mark(before.words, gone, k, ONE_AWAY, numbers);
                i += 1;
            }
            Ordering::Less => {
                mark(after.words, come, k, 1, numbers);
                j += 1;
            }
        }
    }
    Passed {
        before: i,
        after: j,
    }
}

// The numbers of the terms before become those of the terms after.
pub fn mark_difference(before: &Terms, after: &Terms, k: usize, numbers: &mut [u32])
    requires { Counting before.now k (length numbers.old) × Counting after.now k (length numbers.old) }
    ensures { Moved (occurring (terms_of before.now)) (occurring (terms_of after.now)) numbers.old numbers.new }
{
    let passed = pass(before, after, k, numbers);
    mark_rest(before, passed.before, k, ONE_AWAY, numbers);
    mark_rest(after, passed.after, k, 1, numbers);
}
