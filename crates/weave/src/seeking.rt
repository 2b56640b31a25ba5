// Places among terms whose sets fall.
ghost use Rattle.std.specs.Prelude.{◌≡◌, ◌+◌, ◌*◌, ◌^◌, ◌<◌, ◌≤◌, ltb, eqb, length};
ghost use Rattle.rules.specs.Polynomial.{Below};
ghost use Rattle.words.specs.Listed.{terms_of, set_of};
ghost use Rattle.words.specs.Numbers.{num, words_at};
ghost use Rattle.weave.specs.Seeking.{Uses, Free, Stop, Last, Sought, Cut, Bracket};

use words::listed::Terms;

// How many words the sets use: the first set is the largest.
pub fn words_used(terms: &Terms) -> usize
    requires { (0 < terms.now.count) × (0 < terms.now.width) × Below (2 ^ (64 * terms.now.width)) (terms_of terms.now) }
    ensures { Uses terms.now.width (terms_of terms.now) result }
{
    let words = terms.words;
    for k in (1..terms.width).rev() {
        if words[k + 1] != 0 {
            return k + 1;
        }
    }
    1
}

// Whether the first set has no variable above v.
pub fn leads(words: &[u64], w: usize, v: usize) -> bool
    requires { (w + 1 ≤ length words.now) × (v < 64 * w) }
    ensures { result ≡ ltb (num (words_at words.now 1 w)) (2 ^ (v + 1)) }
{
    let place = 1 + v / 64;
    for k in (place..w).rev() {
        if words[k + 1] != 0 {
            return false;
        }
    }
    (words[place] >> (v % 64)) <= 1
}

// One more than the last term that holds v, or 0, where no set has a variable above v: those that hold v stand in front.
fn in_front(terms: &Terms, v: usize) -> usize
    requires { (v < 64 * terms.now.width) × Below (2 ^ (v + 1)) (terms_of terms.now) }
    ensures { Last v (terms_of terms.now) result }
{
    for i in 0..terms.count {
        if !terms.holds(i, v) {
            return i;
        }
    }
    terms.count
}

// One more than the last term that holds v, or 0, wherever those terms stand.
fn from_behind(terms: &Terms, v: usize) -> usize
    requires { v < 64 * terms.now.width }
    ensures { Last v (terms_of terms.now) result }
{
    for i in (0..terms.count).rev() {
        if terms.holds(i, v) {
            return i + 1;
        }
    }
    0
}

// One more than the last term that holds v, or 0.
pub fn last_holding(terms: &Terms, v: usize) -> usize
    requires { (v < 64 * terms.now.width) × Below (2 ^ (64 * terms.now.width)) (terms_of terms.now) }
    ensures { Last v (terms_of terms.now) result }
{
    if terms.count == 0 {
        return 0;
    }
    if leads(terms.words, terms.width, v) {
        return in_front(terms, v);
    }
    from_behind(terms, v)
}

// The first term from `from` on that holds v, or how many terms there are; from `end` on none does.
pub fn holding(terms: &Terms, v: usize, from: usize, end: usize) -> usize
    requires { (v < 64 * terms.now.width) × (from ≤ terms.now.count) × (end ≤ terms.now.count) × Free v (terms_of terms.now) end terms.now.count }
    ensures { Stop v (terms_of terms.now) from result }
{
    for i in from..end {
        if terms.holds(i, v) {
            return i;
        }
    }
    terms.count
}

// A stretch of terms, from `low` to before `high`.
#[derive(Clone, Copy)]
pub struct Range {
    pub low: usize,
    pub high: usize,
}

// Whether the set of term i is above the one at word t of `others`; both use k words.
fn over(terms: &Terms, k: usize, i: usize, others: &[u64], t: usize) -> bool
    requires { (i < terms.now.count) × (k ≤ terms.now.width) × (t + terms.now.width ≤ length others.now)
        × (set_of terms.now i < 2 ^ (64 * k)) × (num (words_at others.now t terms.now.width) < 2 ^ (64 * k)) }
    ensures { result ≡ ltb (num (words_at others.now t terms.now.width)) (set_of terms.now i) }
{
    words::sets::compare_plain(terms.words, terms.set_at(i), others, t, k).is_gt()
}

// Whether the set at word i is the one at word h of `others`; both use k words of w.
pub fn equal(words: &[u64], i: usize, others: &[u64], h: usize, w: usize, k: usize) -> bool
    requires { (i + w ≤ length words.now) × (h + w ≤ length others.now) × (k ≤ w)
        × (num (words_at words.now i w) < 2 ^ (64 * k)) × (num (words_at others.now h w) < 2 ^ (64 * k)) }
    ensures { result ≡ eqb (num (words_at words.now i w)) (num (words_at others.now h w)) }
{
    words::sets::compare_plain(words, i, others, h, k).is_eq()
}

// Goes on from `from` in steps that double, as long as the sets are above the one at word t of `others`: between which terms that ends.
fn leap(terms: &Terms, k: usize, from: usize, to: usize, others: &[u64], t: usize) -> Range
    requires { Sought terms.now k from to others.now t }
    ensures { Bracket (terms_of terms.now) (num (words_at others.now t terms.now.width)) from to result }
{
    let mut low = from;
    let mut step = 1;
    while step <= to - low {
        let probe = low + (step - 1);
        if !over(terms, k, probe, others, t) {
            return Range { low, high: probe };
        }
        low = probe + 1;
        step = step * 2;
    }
    Range { low, high: to }
}

// Of the terms from `from` to `to`, the first whose set is not above the one at word t of `others`, or `to`. No set uses more than k words.
pub fn above(terms: &Terms, k: usize, from: usize, to: usize, others: &[u64], t: usize) -> usize
    requires { Sought terms.now k from to others.now t }
    ensures { Cut (terms_of terms.now) (num (words_at others.now t terms.now.width)) from to result }
{
    let mut left = leap(terms, k, from, to, others, t);
    while left.low < left.high {
        let middle = left.low + (left.high - left.low) / 2;
        if over(terms, k, middle, others, t) {
            left.low = middle + 1;
        } else {
            left.high = middle;
        }
    }
    left.low
}
