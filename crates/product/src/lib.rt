// What each kind asks: its operands and outputs, and the wanted word. A kind comes as a number from anyone, and each function answers for
// every number, so that a parameter stays a number.
#![tactic(auto)]

mod kinds; // kinds.rt: the kinds, and the numbers by which hosts name them

ghost use Rattle.std.specs.Prelude.{◌≡◌, ◌^◌, ◌<◌, ◌≤◌};
ghost use Rattle.rules.specs.Product.{kind_of, kind_unknown, operand_width, addend_width, first_word, second_word, outputs_of, width_wrong, wanted_word, Wanted};
ghost use Rattle.rules.specs.Product as rule;

use crate::kinds::Kind;
use rules::counts::Counts;
use rules::limits::Limits;
use rules::refusals::Refusal;
use words::coefficients::{dropped, sum};

// Whether the number is no kind.
#[tactic(auto, unfolding(rules::specs::Product::kind_unknown))]
pub fn kind_unknown(kind: u32) -> bool
    ensures { result ≡ kind_unknown kind }
{
    kind > Kind::MultiplyAddSigned as u32
}

// Whether a and b are in two's complement.
#[tactic(auto, unfolding(rules::specs::Product::complement))]
pub fn complement(kind: u32) -> bool
    ensures { result ≡ rule.complement (kind_of kind) }
{
    matches!(Kind::from(kind), Kind::Signed | Kind::MultiplyAddSigned)
}

// Whether c is added to the product.
#[tactic(auto, unfolding(rules::specs::Product::adds))]
pub fn adds(kind: u32) -> bool
    ensures { result ≡ rule.adds (kind_of kind) }
{
    matches!(
        Kind::from(kind),
        Kind::MultiplyAdd | Kind::MultiplyAddSigned
    )
}

// How many times n bits the inputs are.
#[tactic(auto, unfolding(rules::specs::Product::shares))]
pub fn shares(kind: u32) -> u32
    ensures { result ≡ rule.shares (kind_of kind) }
{
    if adds(kind) { 4 } else { 2 }
}

// n, the bits of a and of b.
#[tactic(auto, using(crate::proofs::Readings::shares_some), unfolding(rules::specs::Product::operand_width))]
pub fn operand_bits(c: Counts, kind: u32) -> u32
    ensures { result ≡ operand_width (kind_of kind) c }
{
    c.i / shares(kind)
}

// The bits of c.
#[tactic(auto, unfolding(rules::specs::Product::addend_width))]
pub fn addend_bits(kind: u32, n: u32) -> u32
    requires { n ≤ 32 }
    ensures { result ≡ addend_width (kind_of kind) n }
{
    if adds(kind) { 2 * n } else { 0 }
}

// The first of the two words that hold the inputs: a, or a and b where c is added.
#[tactic(auto, unfolding(rules::specs::Product::first_word))]
pub fn first_word(kind: u32, n: u32, a: u64, b: u64) -> u64
    requires { (n ≤ 32) × (a < 2 ^ n) × (b < 2 ^ n) }
    ensures { result ≡ first_word (kind_of kind) n a b }
{
    if adds(kind) { a + (b << n) } else { a }
}

// The second: b, or c where it is added.
#[tactic(auto, unfolding(rules::specs::Product::second_word))]
pub fn second_word(kind: u32, b: u64, c: u64) -> u64
    ensures { result ≡ second_word (kind_of kind) b c }
{
    if adds(kind) { c } else { b }
}

// The outputs of a block whose a and b have n bits.
#[tactic(auto, unfolding(rules::specs::Product::outputs_of))]
pub fn outputs(kind: u32, n: u32) -> u32
    requires { n ≤ 32 }
    ensures { result ≡ outputs_of (kind_of kind) n }
{
    if Kind::from(kind) == Kind::Truncated {
        n
    } else {
        2 * n
    }
}

// Whether a and b cannot have n bits: each has its share of the inputs.
#[tactic(auto, using(crate::proofs::Readings::shares_some), unfolding(rules::specs::Product::width_wrong))]
fn width_wrong(kind: u32, n: u32) -> bool
    ensures { result ≡ width_wrong (kind_of kind) n }
{
    n == 0 || Limits::INPUTS_MOST / shares(kind) < n
}

// Whether the operand is read as a number below 0.
#[tactic(auto, unfolding(rules::specs::Product::negative, rules::specs::Product::operand))]
fn negative(kind: u32, n: u32, x: u64) -> bool
    requires { (1 ≤ n) × (n ≤ 32) }
    ensures { result ≡ rule.negative (kind_of kind) n x }
{
    complement(kind) && (1u64 << (n - 1)) <= dropped(x, n)
}

// How far from 0 the operand is.
#[tactic(auto, unfolding(rules::specs::Product::size, rules::specs::Product::operand))]
fn size(kind: u32, n: u32, x: u64) -> u64
    requires { (1 ≤ n) × (n ≤ 32) }
    ensures { result ≡ rule.size (kind_of kind) n x }
{
    if negative(kind, n, x) {
        (1u64 << n) - dropped(x, n)
    } else {
        dropped(x, n)
    }
}

// The product of the operands modulo 2^l. Below 0 it is taken from 0, which wraps at 2^64, a multiple of 2^l.
#[tactic(auto, using(crate::proofs::Readings::outputs_fit, crate::proofs::Readings::size_below, crate::proofs::Readings::far_fits))]
fn product(kind: u32, n: u32, a: u64, b: u64) -> u64
    requires { (1 ≤ n) × (n ≤ 32) }
    ensures { result ≡ rule.product (kind_of kind) n a b }
{
    let far = size(kind, n, a) * size(kind, n, b);
    let l = outputs(kind, n);
    if negative(kind, n, a) != negative(kind, n, b) {
        dropped(far.wrapping_neg(), l)
    } else {
        dropped(far, l)
    }
}

// The wanted word: the product, and c where it is added, modulo 2^l.
#[tactic(auto, using(crate::proofs::Readings::addend_fits, crate::proofs::Readings::outputs_fit), unfolding(rules::specs::Product::wanted_word, rules::specs::Product::operand))]
pub fn word_for(kind: u32, n: u32, a: u64, b: u64, c: u64) -> u64
    requires { (1 ≤ n) × (n ≤ 32) }
    ensures { result ≡ wanted_word (kind_of kind) n a b c }
{
    let added = dropped(c, addend_bits(kind, n));
    sum(product(kind, n, a, b), added, outputs(kind, n))
}

// The wanted word of operands, or the first refusal in the order of checks.
#[tactic(auto, using(crate::proofs::Readings::width_right), unfolding(rules::specs::Product::wanting, rules::specs::Says::first, rules::specs::Says::refuse_or))]
pub fn wanted(kind: u32, n: u32, a: u64, b: u64, c: u64) -> Result<u64, Refusal>
    ensures { Wanted kind n a b c result }
{
    if width_wrong(kind, n) {
        return Err(Refusal::CountOutside);
    }
    if kind_unknown(kind) {
        return Err(Refusal::WrongKind);
    }
    Ok(word_for(kind, n, a, b, c))
}
