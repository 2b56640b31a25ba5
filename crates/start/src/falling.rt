// All terms, in the order in which their sets fall.
ghost use Rattle.std.specs.Prelude.{[], ◌+◌, ◌*◌, ◌^◌, ◌<◌, length};
ghost use Rattle.rules.specs.Product.{kind_of};
ghost use Rattle.start.specs.Start.{singles, pairs, rows, whole};
ghost use Rattle.start.specs.Writing.{Emits, Leads};

use crate::shape::Shape;
use crate::writer::Writer;

impl Writer<'_> {
    // Emits the variables from low + count down to low + 1, each with its weight.
    fn emit_singles(&mut self, weights: &[u64], low: usize, count: usize) -> Option<()>
        requires { (low + count < length weights.now) × (low + count < 64 * self.old.w) }
        ensures { Emits (singles weights.now low count) self.old self.new result }
    {
        for k in (0..count).rev() {
            let v = low + 1 + k;
            self.emit(weights[v], v, 0)?;
        }
        Some(())
    }

    // Emits the products of b_j with every a_i.
    fn emit_pairs(&mut self, shape: Shape, j: usize) -> Option<()>
        requires { (j < shape.n) × (shape.n + shape.n < 64 * self.old.w) }
        ensures { Emits (pairs (kind_of shape.kind) (2 ^ shape.l) shape.n j shape.n) self.old self.new result }
    {
        for i in (0..shape.n).rev() {
            self.emit(shape.product_weight(j, i), shape.n + 1 + j, 1 + i)?;
        }
        Some(())
    }

    // Emits, from the highest b_j down, its products and then b_j with its weight.
    fn emit_rows(&mut self, shape: Shape, weights: &[u64]) -> Option<()>
        requires { (shape.n + shape.n < length weights.now) × (shape.n + shape.n < 64 * self.old.w) }
        ensures { Emits (rows (kind_of shape.kind) (2 ^ shape.l) shape.n weights.now shape.n) self.old self.new result }
    {
        for j in (0..shape.n).rev() {
            let v = shape.n + 1 + j;
            self.emit_pairs(shape, j)?;
            self.emit(weights[v], v, 0)?;
        }
        Some(())
    }

    // Emits everything: c and the gates, the products and b, a, the constant.
    pub fn emit_all(&mut self, shape: Shape, above: usize, weights: &[u64]) -> Option<()>
        requires { (shape.n + shape.n + above < length weights.now) × (shape.n + shape.n + above < 64 * self.old.w) }
        ensures { Leads (λ _. whole (kind_of shape.kind) (2 ^ shape.l) shape.n above weights.now) (λ _. []) self.old self.new result }
    {
        self.emit_singles(weights, shape.n + shape.n, above)?;
        self.emit_rows(shape, weights)?;
        self.emit_singles(weights, 0, shape.n)?;
        self.emit(weights[0], 0, 0)
    }
}
