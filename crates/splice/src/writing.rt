// A term written to a store.
ghost use Rattle.std.specs.Prelude.{◌≡◌, cond, ◌++◌, ◌∷◌, ◌+◌, ◌≤◌, eqb, length, take, drop};
ghost use Rattle.words.specs.Numbers.{words_at};

// Writes the term of c and the set of w words at h to `target` at t, unless c is 0.
pub fn put(words: &[u64], h: usize, w: usize, target: &mut [u64], t: usize, c: u64)
    requires { (h + w ≤ length words.now) × (t + (w + 1) ≤ length target.old) }
    ensures { target.new ≡ cond (eqb c 0) target.old (take t target.old ++ ((c ∷ words_at words.now h w) ++ drop (t + (w + 1)) target.old)) }
{
    if c == 0 {
        return;
    }
    target[t] = c;
    words::stretches::copy(words, h, target, t + 1, w);
}
