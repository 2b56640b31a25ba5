// Writing a term.
ghost use Rattle.std.specs.Prelude.{◌≡◌, ◌+◌, ◌≤◌, ◌∷◌, ◌++◌, length, take, drop};
ghost use Rattle.words.specs.Numbers.{num, words_at, masked, under_mask};

// Writes a term at word t of `target`: the coefficient c, and the set at h under the mask at a.
pub fn write(
    words: &[u64],
    h: usize,
    masks: &[u64],
    a: usize,
    w: usize,
    target: &mut [u64],
    t: usize,
    c: u64,
)
    requires { (h + w ≤ length words.now) × (a + w ≤ length masks.now) × (t + (w + 1) ≤ length target.old) }
    ensures { (target.new ≡ take t target.old ++ ((c ∷ masked (words_at words.now h w) (words_at masks.now a w)) ++ drop (t + (w + 1)) target.old))
        × (num (masked (words_at words.now h w) (words_at masks.now a w)) ≡ under_mask words.now h masks.now a w) }
{
    target[t] = c;
    for k in 0..w {
        target[t + 1 + k] = words[h + k] ^ masks[a + k];
    }
}

// Writes a term at word t: the coefficient c, and the set that stands further behind, at h.
#[tactic(auto, using(crate::proofs::Writing::carry_term))]
pub fn carry(words: &mut [u64], h: usize, w: usize, t: usize, c: u64)
    requires { (t + (w + 1) ≤ h) × (h + w ≤ length words.old) }
    ensures { words.new ≡ take t words.old ++ ((c ∷ words_at words.old h w) ++ drop (t + (w + 1)) words.old) }
{
    words[t] = c;
    words.copy_within(h..h + w, t + 1);
}
