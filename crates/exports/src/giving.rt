// What a host is given: numbers, and values in front of what it lends.
ghost use Rattle.std.specs.Prelude.{◌≡◌, ◌++◌, ◌+◌, ◌≤◌, length, drop};
ghost use Rattle.rules.specs.Says.{refusal_number};

use rules::refusals::Refusal;

// The number by which a host is told of a refusal: the answers have the numbers below 100.
pub fn refused(refusal: Refusal) -> u32
    ensures { result ≡ 100 + refusal_number refusal }
{
    100 + u32::from(refusal)
}

// Writes values in front of what is lent.
pub fn put<T: Copy>(values: &[T], lent: &mut [T])
    requires { length values.now ≤ length lent.old }
    ensures { lent.new ≡ values.now ++ drop (length values.now) lent.old }
{
    lent[..values.len()].copy_from_slice(values);
}
