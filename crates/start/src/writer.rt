// Terms written one behind the other to lent words, as far as there is room.
ghost use Rattle.std.specs.Prelude.{◌+◌, ◌-◌, ◌*◌, ◌<◌, ◌≤◌, length};

use crate::terms::write_term;

// The first `count` terms of a polynomial, of w + 1 words each, and zeros behind them; no more than `limit` are written.
#[derive(Drop)]
pub struct Writer<'a> {
    pub store: &'a mut [u64],
    pub w: usize,
    pub limit: usize,
    pub count: usize,
    ghost room: { limit * (w + 1) ≤ length store.now },
    ghost few: { count ≤ limit },
}

impl Writer<'_> {
    ghost use Rattle.rules.specs.Polynomial.{keep};
    ghost use Rattle.start.specs.Start.{single};
    ghost use Rattle.start.specs.Writing.{Emits};

    // Counts and writes the term c x y, unless c is 0; none where there is no room for it.
    #[tactic(auto, using(crate::proofs::Words::going_none, crate::proofs::Words::going_full))]
    pub fn emit(&mut self, c: u64, x: usize, y: usize) -> Option<()>
        requires { (x < 64 * self.old.w) × (y ≤ x - 1) }
        ensures { Emits (keep c (single x + single y)) self.old self.new result }
    {
        if c == 0 {
            return Some(());
        }
        if self.count == self.limit {
            return None;
        }
        write_term(self.store, self.count * (self.w + 1), self.w, c, x, y);
        self.count += 1;
        Some(())
    }
}
