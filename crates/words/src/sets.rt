// Sets of variables, each in w words.
ghost use Rattle.std.specs.Prelude.{◌≡◌, ℕ, ◌+◌, ◌*◌, ◌/◌, ◌%◌, ◌^◌, ◌<◌, ◌≤◌, List, length, bit_xor, slice_index, slice_set};
ghost use Rattle.std.specs.Ordering.{nat_cmp};
ghost use Rattle.rules.specs.Values.{bit};
ghost use Rattle.words.specs.Numbers.{num, words_at, under_mask};
ghost use Rattle.words.specs.Reading.{Reads};

use std::cmp::Ordering;

// The order of the k words that `left` and `right` read: the last that differ decide.
fn order<L: Fn(usize) -> u64, R: Fn(usize) -> u64>(left: L, right: R, k: usize) -> Ordering
    requires { (at : ℕ) → at < k → L.pre left at × R.pre right at }
    ensures { (xs ys : List ℕ) → Reads (L.post left) k xs → Reads (R.post right) k ys → result ≡ nat_cmp (num xs) (num ys) }
{
    for at in (0..k).rev() {
        let order = left(at).cmp(&right(at));
        if order.is_ne() {
            return order;
        }
    }
    Ordering::Equal
}

// The order of two sets of `words`, each under its mask: the words at i under those at a, the words at j under those at b.
pub fn compare(
    words: &[u64],
    i: usize,
    j: usize,
    masks: &[u64],
    a: usize,
    b: usize,
    w: usize,
) -> Ordering
    requires { (i + w ≤ length words.now) × (j + w ≤ length words.now) × (a + w ≤ length masks.now) × (b + w ≤ length masks.now) }
    ensures { result ≡ nat_cmp (under_mask words.now i masks.now a w) (under_mask words.now j masks.now b w) }
{
    order(
        |k| words[i + k] ^ masks[a + k],
        |k| words[j + k] ^ masks[b + k],
        w,
    )
}

// The order of the k words at i of `words` and those at j of `others`.
pub fn compare_plain(words: &[u64], i: usize, others: &[u64], j: usize, k: usize) -> Ordering
    requires { (i + k ≤ length words.now) × (j + k ≤ length others.now) }
    ensures { result ≡ nat_cmp (num (words_at words.now i k)) (num (words_at others.now j k)) }
{
    order(|at| words[i + at], |at| others[j + at], k)
}

// 1 where the set at word `at` holds v, else 0: v's bit of the set's number.
#[tactic(auto, using(crate::proofs::Numbers::bit_words))]
pub fn holds(words: &[u64], at: usize, w: usize, v: usize) -> usize
    requires { (at + w ≤ length words.now) × (v < 64 * w) }
    ensures { result ≡ bit (num (words_at words.now at w)) v }
{
    let x = words[at + v / 64];
    ((x >> (v % 64)) % 2) as usize
}

// Turns v in the set at word `at`: in where it was not, out where it was.
pub fn turn(words: &mut [u64], at: usize, w: usize, v: usize)
    requires { (at + w ≤ length words.old) × (v < 64 * w) }
    ensures { words.new ≡ slice_set words.old (at + v / 64) (bit_xor (slice_index words.old (at + v / 64)) (2 ^ (v % 64))) }
{
    let place = at + v / 64;
    words[place] = words[place] ^ (1u64 << (v % 64));
}
