// Where a new term goes among terms whose sets fall.
ghost use Rattle.std.specs.Prelude.{◌+◌, ◌^◌, ◌<◌, get_or};
ghost use Rattle.words.specs.Listed.{terms_of};
ghost use Rattle.words.specs.Numbers.{num, words_at};
ghost use Rattle.splice.specs.Splicing.{Spotting, Spotted};

use weave::seeking::{above, equal};
use words::coefficients::sum;
use words::listed::Terms;

// Behind how many terms a new one goes; whether the one behind those has its set; and the coefficient of both.
#[derive(Clone, Copy)]
pub struct Spot {
    pub above: usize,
    pub met: bool,
    pub c: u64,
}

// Where the new term at word `from` of scratch goes among terms whose sets use k words. A coefficient has l bits.
pub fn place(terms: &Terms, k: usize, l: u32, scratch: &[u64], from: usize) -> Spot
    requires { Spotting terms.now k l scratch.now from }
    ensures { Spotted (2 ^ l) (terms_of terms.now) (get_or scratch.now from 0) (num (words_at scratch.now (from + 1) terms.now.width)) result }
{
    let c = scratch[from];
    let at = above(terms, k, 0, terms.count, scratch, from + 1);
    if at < terms.count {
        if equal(
            terms.words,
            terms.set_at(at),
            scratch,
            from + 1,
            terms.width,
            k,
        ) {
            return Spot {
                above: at,
                met: true,
                c: sum(c, terms.coefficient(at), l),
            };
        }
    }
    Spot {
        above: at,
        met: false,
        c,
    }
}
