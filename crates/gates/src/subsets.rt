// Subsets of a gate's three variables, as the bits of a number.
ghost use Rattle.std.specs.Prelude.{◌≡◌, ◌<◌, eqb};
ghost use Rattle.rules.specs.Values.{bit};

// Whether the subset has the variable at k.
#[tactic(auto, unfolding(rules::specs::Values::bit))]
pub fn has(subset: usize, k: usize) -> bool
    requires { k < 64 }
    ensures { result ≡ eqb (bit subset k) 1 }
{
    (subset >> k) % 2 == 1
}
