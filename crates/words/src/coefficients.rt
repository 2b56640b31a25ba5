// Coefficients of l bits: the sum wraps at 64 bits and is then dropped to l; at 64 the wrap itself is the reduction.
ghost use Rattle.std.specs.Prelude.{◌≡◌, ◌+◌, ◌-◌, ◌%◌, ◌^◌, ◌≤◌};

// c dropped to l bits.
#[tactic(auto, using(crate::proofs::Numbers::one_shifted))]
pub fn dropped(c: u64, l: u32) -> u64
    requires { l ≤ 64 }
    ensures { result ≡ c % 2 ^ l }
{
    if l == 64 {
        return c;
    }
    c % (1u64 << l)
}

// a + b modulo 2^l.
#[tactic(auto, using(crate::proofs::Writing::drop_wrap))]
pub fn sum(a: u64, b: u64, l: u32) -> u64
    requires { l ≤ 64 }
    ensures { result ≡ (a + b) % 2 ^ l }
{
    dropped(a.wrapping_add(b), l)
}

// a - b modulo 2^l.
#[tactic(auto, using(crate::proofs::Writing::wrap_back))]
pub fn difference(a: u64, b: u64, l: u32) -> u64
    requires { (l ≤ 64) × (b ≤ 2 ^ l) }
    ensures { result ≡ (a + (2 ^ l - b)) % 2 ^ l }
{
    dropped(a.wrapping_sub(b), l)
}
