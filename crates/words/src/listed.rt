// Terms in lent words, one behind the other: asked by their places.
ghost use Rattle.std.specs.Prelude.{◌≡◌, ◌+◌, ◌*◌, ◌<◌, ◌≤◌, eqb, length};

// Terms one behind the other: each its coefficient, then the `width` words of its set.
#[derive(Clone, Copy)]
pub struct Terms<'a> {
    pub words: &'a [u64],
    pub count: usize,
    pub width: usize,
    ghost within: { count * (width + 1) ≤ length words.now },
    ghost narrow: { width ≤ 16 },
}

impl Terms<'_> {
    ghost use Rattle.rules.specs.Values.{bit};
    ghost use Rattle.words.specs.Listed.{coefficient_of, set_of};

    // At which word the set of term i begins.
    #[tactic(auto, using(crate::proofs::Stored::stride_in))]
    pub fn set_at(&self, i: usize) -> usize
        requires { i < self.now.count }
        ensures { result ≡ i * (self.now.width + 1) + 1 }
    {
        i * (self.width + 1) + 1
    }

    // The coefficient of term i.
    #[tactic(auto, using(crate::proofs::Stored::stride_in, crate::proofs::Stored::decoded_at))]
    pub fn coefficient(&self, i: usize) -> u64
        requires { i < self.now.count }
        ensures { result ≡ coefficient_of self.now i }
    {
        self.words[i * (self.width + 1)]
    }

    // Whether term i holds v.
    #[tactic(auto, using(crate::proofs::Stored::stride_in, crate::proofs::Stored::decoded_set))]
    pub fn holds(&self, i: usize, v: usize) -> bool
        requires { (i < self.now.count) × (v < 64 * self.now.width) }
        ensures { result ≡ eqb (bit (set_of self.now i) v) 1 }
    {
        crate::sets::holds(self.words, self.set_at(i), self.width, v) == 1
    }
}
