// Stretches of words: copied, cleared, moved.
ghost use Rattle.std.specs.Prelude.{◌≡◌, ◌+◌, ◌-◌, ◌≤◌, ◌++◌, length, take, drop, replicate};
ghost use Rattle.words.specs.Stretches.{copied, moved};

// Copies the n words at `from` of `words` over those at `to` of `target`. Word by word, as all moves here: the library's copy of whole slices
// is compiled to a call of C's memmove, which a host need not have.
pub fn copy(words: &[u64], from: usize, target: &mut [u64], to: usize, n: usize)
    requires { (from + n ≤ length words.now) × (to + n ≤ length target.old) }
    ensures { target.new ≡ copied words.now from target.old to n }
{
    for k in 0..n {
        target[to + k] = words[from + k];
    }
}

// Zeros the words from `from` to `end`.
pub fn clear(words: &mut [u64], from: usize, end: usize)
    requires { (from ≤ end) × (end ≤ length words.old) }
    ensures { words.new ≡ take from words.old ++ (replicate (end - from) 0 ++ drop end words.old) }
{
    words[from..end].fill(0);
}

// Moves the n words at `from` to `to`, further in front or the same place.
fn move_down(words: &mut [u64], from: usize, to: usize, n: usize)
    requires { (to ≤ from) × (from + n ≤ length words.old) }
    ensures { words.new ≡ moved from to n words.old }
{
    for k in 0..n {
        words[to + k] = words[from + k];
    }
}

// Moves the n words at `from` to `to`, further behind or the same place: the last word first, so that none is overwritten
// before it is moved.
fn move_up(words: &mut [u64], from: usize, to: usize, n: usize)
    requires { (from ≤ to) × (to + n ≤ length words.old) }
    ensures { words.new ≡ moved from to n words.old }
{
    for k in (0..n).rev() {
        words[to + k] = words[from + k];
    }
}

// Moves the n words at `from` to `to`. What stood at `from` and is not overwritten stays.
#[tactic(auto, using(crate::proofs::Writing::move_none))]
pub fn shift(words: &mut [u64], from: usize, to: usize, n: usize)
    requires { (from + n ≤ length words.old) × (to + n ≤ length words.old) }
    ensures { words.new ≡ moved from to n words.old }
{
    if to < from {
        move_down(words, from, to, n);
        return;
    }
    if from < to {
        move_up(words, from, to, n);
    }
}
