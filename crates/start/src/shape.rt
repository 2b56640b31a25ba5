// The shape of a block, and what the products of its operands weigh modulo 2^l.
ghost use Rattle.std.specs.Prelude.{◌≡◌, ◌^◌, ◌<◌, ◌≤◌};
ghost use Rattle.rules.specs.Product.{kind_of, below_zero};
ghost use Rattle.start.specs.Start.{pair_weight};

use product::complement;
use words::coefficients::difference;

// Whether the sign of a_i b_j in the product is minus: in two's complement, where exactly one of i, j is n - 1.
#[tactic(auto, using(crate::proofs::Products::sign_test))]
fn sign(kind: u32, n: usize, i: usize, j: usize) -> bool
    requires { (i < n) × (j < n) }
    ensures { result ≡ below_zero (kind_of kind) n i j }
{
    complement(kind) & ((i + 1 == n) != (j + 1 == n))
}

// Its kind, its l outputs, and the n bits of an operand.
#[derive(Clone, Copy)]
pub struct Shape {
    pub kind: u32,
    pub l: u32,
    pub n: usize,
    ghost outputs: { l ≤ 64 },
    ghost bits: { n ≤ 32 },
}

impl Shape {
    // The coefficient of a_i b_j modulo 2^l: minus 2^(i+j), or plus where the product's sign is minus.
    #[tactic(auto, using(crate::proofs::Products::product_weights))]
    pub fn product_weight(self, j: usize, i: usize) -> u64
        requires { (i < self.n) × (j < self.n) }
        ensures { result ≡ pair_weight (kind_of self.kind) (2 ^ self.l) self.n j i }
    {
        let e = i + j;
        if e >= self.l as usize {
            return 0;
        }
        let c = 1u64 << e;
        if sign(self.kind, self.n, i, j) {
            return c;
        }
        difference(0, c, self.l)
    }
}
