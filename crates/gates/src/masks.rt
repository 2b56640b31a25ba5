// A gate as masks: what each stream changes in a term's set.
ghost use Rattle.std.specs.Prelude.{◌≡◌, ℕ, ◌+◌, ◌*◌, ◌<◌, ◌≤◌, length, drop};
ghost use Rattle.rules.specs.Values.{bit};
ghost use Rattle.gates.specs.Masks.{mask_of, mask_at, Turned, Masked};

use crate::apart::Variables;
use crate::subsets::has;

// Puts x in the j-th mask where the subset j has the variable at k.
fn put_in(masks: &mut [u64], j: usize, w: usize, x: usize, k: usize)
    requires { (j * w + w ≤ length masks.old) × (x < 64 * w) × (k < 3) }
    ensures { Turned w j x (bit j k) masks.old masks.new }
{
    if has(j, k) {
        words::sets::turn(masks, j * w, w, x);
    }
}

// The mask of stream j, from a mask of zeros: v goes out, and the variables that the stream puts in come in.
fn mask(masks: &mut [u64], j: usize, w: usize, v: usize, q: Variables)
    requires { (j * w + w ≤ length masks.old) × (v < 64 * w) × (q.x < 64 * w) × (q.y < 64 * w) × (q.z < 64 * w) × (mask_at w masks.old j ≡ 0) }
    ensures { Masked w v q j masks.old masks.new }
{
    words::sets::turn(masks, j * w, w, v);
    put_in(masks, j, w, q.z, 2);
    put_in(masks, j, w, q.y, 1);
    put_in(masks, j, w, q.x, 0);
}

// The masks of so many streams of gate v over its variables.
pub fn mask_table(masks: &mut [u64], streams: usize, w: usize, v: usize, q: Variables)
    requires { (streams ≤ 8) × (streams * w ≤ length masks.old) × (w ≤ 16) × (v < 64 * w) × (q.x < 64 * w) × (q.y < 64 * w) × (q.z < 64 * w) × ((j : ℕ) → j < streams → mask_at w masks.old j ≡ 0) }
    ensures { ((j : ℕ) → j < streams → mask_at w masks.new j ≡ mask_of v q j) × (drop (streams * w) masks.new ≡ drop (streams * w) masks.old) }
{
    for j in 0..streams {
        mask(masks, j, w, v, q);
    }
}
