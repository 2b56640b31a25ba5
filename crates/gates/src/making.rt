// How many terms a row of coefficients makes of one.
ghost use Rattle.std.specs.Prelude.{◌≡◌, length};
ghost use Rattle.gates.specs.Rows.{row_of, not_zero};

// How many of eight coefficients are not 0.
pub fn not_zero(row: &[i16]) -> u32
    requires { length row.now ≡ 8 }
    ensures { result ≡ not_zero 8 (row_of row.now) }
{
    row.iter().filter(|c| **c != 0).count() as u32
}
