// The start polynomial in lent words, written term by term in the order in which its sets fall.
#![tactic(auto)]

mod falling; // falling.rt: all terms in falling order
mod shape; // shape.rt: the shape of a block, and what its products weigh
mod terms; // terms.rt: one term
mod weights; // weights.rt: what the variables and the constant weigh
mod writer; // writer.rt: one term more, as long as there is room

ghost use Rattle.std.specs.Prelude.{length};
ghost use Rattle.rules.specs.Product.{kind_of};
ghost use Rattle.rules.specs.Judging.{set_width};
ghost use Rattle.rules.specs.Steps.{start as start_of};
ghost use Rattle.start.specs.Start.{Asked, Started};

use crate::shape::Shape;
use crate::weights::{WEIGHTS, Weights};
use crate::writer::Writer;
use product::{addend_bits, operand_bits};
use rules::counts::Counts;
use words::stretches::clear;

// Writes the start polynomial to a store of zeros: its number of terms. With more than `limit` terms it is none, and the store is all
// zeros again.
#[tactic(auto, using(crate::proofs::Ends::bounds))]
pub fn start(c: Counts, table: &[u32], kind: u32, limit: usize, store: &mut [u64]) -> Option<usize>
    requires { Asked c table.now kind limit store.old }
    ensures { Started (start_of (kind_of kind) c table.now) (set_width c) limit (length store.old) result store.new }
{
    let bits = operand_bits(c, kind);
    let n = bits as usize;
    let w = (c.m / 64 + 1) as usize;
    let mut weights = Weights {
        of: [0; WEIGHTS],
        l: c.o,
    };
    weights.weigh(table);
    weights.weigh_addend(n, addend_bits(kind, bits));
    let above = c.m as usize - (n + n);
    let shape = Shape { kind, l: c.o, n };
    let mut writer = Writer {
        store,
        w,
        limit,
        count: 0,
    };
    match writer.emit_all(shape, above, &weights.of) {
        Some(()) => Some(writer.count),
        None => {
            clear(store, 0, limit * (w + 1));
            None
        }
    }
}
