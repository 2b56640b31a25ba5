// One term, written over zeros.
ghost use Rattle.std.specs.Prelude.{◌+◌, ◌-◌, ◌*◌, ◌<◌, ◌≤◌, length};
ghost use Rattle.start.specs.Start.{single, Marks, Writes};

use words::sets::turn;

// Adds v to the set at word `at`, which has no variable from v on; 0 is none.
fn mark(store: &mut [u64], at: usize, w: usize, v: usize)
    requires { (at + w ≤ length store.old) × (v < 64 * w) }
    ensures { Marks at w v store.old store.new }
{
    if v > 0 {
        turn(store, at, w, v);
    }
}

// Writes the term c x y over the zeros at word t; a variable 0 is none, and y is below x.
pub fn write_term(store: &mut [u64], t: usize, w: usize, c: u64, x: usize, y: usize)
    requires { (t + (w + 1) ≤ length store.old) × (x < 64 * w) × (y ≤ x - 1) }
    ensures { Writes t w c (single x + single y) store.old store.new }
{
    store[t] = c;
    mark(store, t + 1, w, y);
    mark(store, t + 1, w, x);
}
