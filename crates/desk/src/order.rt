// The order that the desk judges with.
ghost use Rattle.std.specs.Prelude.{◌≤◌, length};
ghost use Rattle.rules.specs.Desk.{falling};
ghost use Rattle.desk.specs.Written.{Written};

use rules::counts::Counts;

// Writes the order M down to I + 1 to the front of `order`, and answers its length.
pub fn put_falling(counts: Counts, order: &mut [u32]) -> usize
    requires { (counts.a ≤ counts.m) × (counts.a ≤ length order.old) }
    ensures { Written order.old 0 (falling counts) order.new result }
{
    let count = counts.a as usize;
    for k in 0..count {
        order[k] = counts.m - k as u32;
    }
    count
}
