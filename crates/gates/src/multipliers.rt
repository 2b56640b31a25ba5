// A gate as multipliers: what each stream takes of a term.
ghost use Rattle.std.specs.Prelude.{◌≡◌, cond, ℕ, ◌+◌, ◌-◌, ◌*◌, ◌^◌, ◌<◌, ◌≤◌, pos, ◌+ℤ◌, length, get_or};
ghost use Rattle.rules.specs.Cells.{above, below};
ghost use Rattle.gates.specs.Apart.{Within};
ghost use Rattle.gates.specs.Rows.{row_of, Tabled, Lowest, Rows};

use crate::subsets::has;

// The sum of two coefficients.
#[tactic(auto, using(crate::proofs::Whole::sum_fits))]
pub fn plus(a: i16, b: i16) -> i16
    requires { (above a ≤ 864) × (below a ≤ 864) × (above b ≤ 864) × (below b ≤ 864) }
    ensures { result ≡ a +ℤ b }
{
    a + b
}

// The multiplier at place i for a term that holds the variable at k as well, from the row in front for one that does not hold it: nothing where
// the stream puts it in (`there`), else with what puts it in.
#[tactic(auto, using(words::proofs::Numbers::one_shifted))]
fn holding(table: &[i16], i: usize, there: bool, k: usize) -> i16
    requires { (k < 3) × (8 * 2 ^ k ≤ i) × (i < length table.now) × ((j : ℕ) → j < i → (above (get_or table.now j (pos 0)) ≤ 864) × (below (get_or table.now j (pos 0)) ≤ 864)) }
    ensures { result ≡ cond there (pos 0) (get_or table.now (i - 8 * 2 ^ k) (pos 0) +ℤ get_or table.now (i - 8 * 2 ^ k + 2 ^ k) (pos 0)) }
{
    if there {
        return 0;
    }
    let step = 1 << k;
    let at = i - 8 * step;
    plus(table[at], table[at + step])
}

// Writes the first row: a term that holds none of the variables is multiplied by the coefficients.
fn put_first(row: &[i16], table: &mut [i16])
    requires { (length row.now ≡ 8) × (8 ≤ length table.old) }
    ensures { Tabled (row_of row.now) 8 table.new }
{
    table[..8].copy_from_slice(row);
}

// Writes the row that begins at `start`, behind all others: that of the terms whose lowest variable held is the one at k.
fn put_next(row: &[i16], table: &mut [i16], start: usize, k: usize)
    requires { Within 108 (row_of row.now) × (start + 8 ≤ length table.old) × Lowest start k × Tabled (row_of row.now) start table.old }
    ensures { Tabled (row_of row.now) (start + 8) table.new }
{
    for u in 0..8 {
        table[start + u] = holding(table, start + u, has(u, k), k);
    }
}

// Writes the rows of the terms that hold the third variable.
fn put_third(row: &[i16], table: &mut [i16])
    requires { Within 108 (row_of row.now) × (length table.old ≡ 64) × Tabled (row_of row.now) 32 table.old }
    ensures { Tabled (row_of row.now) 64 table.new }
{
    put_next(row, table, 32, 2);
    put_next(row, table, 40, 0);
    put_next(row, table, 48, 1);
    put_next(row, table, 56, 0);
}

// The multipliers of a gate, from its coefficients: four rows where there is no third variable, else eight.
pub fn multiplier_table(row: &[i16], table: &mut [i16])
    requires { (length row.now ≡ 8) × Within 108 (row_of row.now) × Rows (length table.old) }
    ensures { Tabled (row_of row.now) (length table.old) table.new }
{
    put_first(row, table);
    put_next(row, table, 8, 0);
    put_next(row, table, 16, 1);
    put_next(row, table, 24, 0);
    if table.len() > 32 {
        put_third(row, table);
    }
}
