// A record brought apart: the coefficients of its polynomial, over variables of which none stands twice.
ghost use Rattle.std.specs.Prelude.{◌≡◌, ◌<◌, ◌≤◌, pos, ◌+ℤ◌, length, replicate};
ghost use Rattle.rules.specs.Cells.{coefficient};
ghost use Rattle.rules.specs.Netlist.{inverted, byte_of};
ghost use Rattle.gates.specs.Apart.{and_row, record_row, record_variables, Near, Within, Making, Apart};
ghost use Rattle.gates.specs.Rows.{row_of, Same, leaving, joining, joined_row, joined_variable};

use crate::making::not_zero;
use crate::multipliers::plus;
use crate::subsets::has;
use rules::records::Record;

// Three distinct variables, or 0 where there is none.
#[derive(Clone, Copy)]
pub struct Variables {
    pub x: usize,
    pub y: usize,
    pub z: usize,
}

// Such variables, and how many terms their record makes of one before like ones meet.
#[derive(Clone, Copy)]
pub struct Parts {
    pub variables: Variables,
    pub made: u32,
}

// The coefficients of the product of two literals. An AND gate needs none of the 256 rows: a part of them is built anew at each look.
#[tactic(auto, unfolding(crate::specs::Apart::and_row, rules::specs::Netlist::inverted))]
fn product(x: u32, y: u32) -> [i16; 4]
    ensures { result ≡ and_row (inverted x) (inverted y) }
{
    match (x % 2, y % 2) {
        (0, 0) => [0, 0, 0, 1],
        (0, _) => [0, 1, 0, -1],
        (_, 0) => [0, 0, 1, -1],
        _ => [1, -1, -1, 1],
    }
}

// Writes the coefficients of a truth byte.
#[tactic(auto, unfolding(crate::specs::Rows::row_of))]
fn put_byte(row: &mut [i16], byte: u32)
    requires { (length row.old ≡ 8) × (byte ≤ 255) }
    ensures { Same (row_of row.new) (coefficient byte) }
{
    let mut narrow = [0i8; 8];
    rows::put_row(byte, &mut narrow, 0);
    widen(&narrow, row);
}

// Writes eight coefficients in twice as many bits, so that some can be added.
#[tactic(auto, using(crate::proofs::Written::backs), unfolding(crate::specs::Rows::row_of))]
fn widen(narrow: &[i8], row: &mut [i16])
    requires { (length narrow.now ≡ 8) × (length row.old ≡ 8) × Within 4 (row_of narrow.now) }
    ensures { Same (row_of row.new) (row_of narrow.now) }
{
    for u in 0..8 {
        row[u] = i16::from(narrow[u]);
    }
}

// Leaves out what puts variable k in, where there is none (x is 0).
#[tactic(auto, unfolding(crate::specs::Rows::leaving, crate::specs::Rows::row_of))]
fn leave_out(row: &mut [i16], x: usize, k: usize)
    requires { (length row.old ≡ 8) × (k < 3) }
    ensures { Same (row_of row.new) (leaving x k (row_of row.old)) }
{
    if x != 0 {
        return;
    }
    for u in 0..8 {
        if has(u, k) {
            row[u] = 0;
        }
    }
}

// Writes the coefficients of a record, without those that put in a third variable that there is none of, and gives the variables that
// they are over. An AND gate has no third variable, and no such coefficient.
#[tactic(auto, unfolding(rules::specs::Netlist::byte_of, rules::specs::Netlist::variable, crate::specs::Apart::record_row, crate::specs::Apart::record_variables))]
fn put_record(r: Record, row: &mut [i16]) -> Variables
    requires { (row.old ≡ replicate 8 (pos 0)) × (byte_of r ≤ 255) }
    ensures { (result ≡ record_variables r) × Same (row_of row.new) (leaving (record_variables r).z 2 (record_row r)) }
{
    match r {
        Record::Gate { x, y } => {
            row[..4].copy_from_slice(&product(x, y));
            Variables {
                x: (x / 2) as usize,
                y: (y / 2) as usize,
                z: 0,
            }
        }
        Record::Cell { byte, x1, x2, x3 } => {
            put_byte(row, byte);
            leave_out(row, x3 as usize, 2);
            Variables {
                x: x1 as usize,
                y: x2 as usize,
                z: x3 as usize,
            }
        }
    }
}

// The sum of three coefficients of a row.
#[tactic(auto, using(crate::proofs::Written::backs), unfolding(crate::specs::Rows::row_of))]
fn three(row: &[i16], u: usize, other: usize, both: usize) -> i16
    requires { (length row.now ≡ 8) × (u < 8) × (other < 8) × (both < 8) × (u ≤ other) × (u ≤ both) × Near 36 u (row_of row.now) }
    ensures { result ≡ row_of row.now u +ℤ row_of row.now other +ℤ row_of row.now both }
{
    plus(plus(row[u], row[other]), row[both])
}

// The coefficient at u where the variables i and j are one.
#[tactic(auto, using(crate::proofs::Written::backs), unfolding(crate::specs::Rows::joining, crate::specs::Rows::row_of))]
fn joined(row: &[i16], i: usize, j: usize, u: usize) -> i16
    requires { (length row.now ≡ 8) × (u < 8) × (i < j) × (j < 3) × Near 36 u (row_of row.now) }
    ensures { result ≡ joining i j (row_of row.now) u }
{
    if has(u, j) {
        return 0;
    }
    if !has(u, i) {
        return row[u];
    }
    three(row, u, u - (1 << i) + (1 << j), u + (1 << j))
}

// Makes the variables i and j one. A coefficient is joined with such as stand behind it, so this is done in place.
#[tactic(auto, using(crate::proofs::Written::writing_more, crate::proofs::Written::joining_ahead))]
fn put_joined(row: &mut [i16], i: usize, j: usize)
    requires { (length row.old ≡ 8) × (i < j) × (j < 3) × Within 36 (row_of row.old) }
    ensures { Same (row_of row.new) (joining i j (row_of row.old)) }
{
    for u in 0..8 {
        row[u] = joined(row, i, j, u);
    }
}

// Brings the variables x at i and y at j apart, and gives what then stands at j.
#[tactic(auto, unfolding(crate::specs::Rows::one_variable, crate::specs::Rows::joined_row, crate::specs::Rows::joined_variable))]
fn join(row: &mut [i16], x: usize, y: usize, i: usize, j: usize) -> usize
    requires { (length row.old ≡ 8) × (i < j) × (j < 3) × Within 36 (row_of row.old) }
    ensures { (result ≡ joined_variable x y) × Same (row_of row.new) (joined_row x y i j (row_of row.old)) }
{
    if x == 0 || x != y {
        return y;
    }
    put_joined(row, i, j);
    0
}

// Writes the coefficients of a record over three distinct variables, which it gives, where there are zeros. The terms that it makes of one
// are counted before a variable that stands twice is brought apart.
pub fn apart(r: Record, row: &mut [i16]) -> Parts
    requires { (row.old ≡ replicate 8 (pos 0)) × (byte_of r ≤ 255) }
    ensures { Apart r result.variables (row_of row.new) × Making r result.made }
{
    let q = put_record(r, row);
    leave_out(row, q.x, 0);
    leave_out(row, q.y, 1);
    let made = not_zero(row);
    let y = join(row, q.x, q.y, 0, 1);
    let third = join(row, q.x, q.z, 0, 2);
    let z = join(row, y, third, 1, 2);
    let variables = Variables { x: q.x, y, z };
    Parts { variables, made }
}
