// Numbers in decimal, written into lent bytes.
ghost use Rattle.std.specs.Prelude.{◌+◌, ◌*◌, ◌≤◌, ◌∷◌, length};
ghost use Rattle.rules.specs.Text.{decimal, space};
ghost use Rattle.rules.specs.Desk.{spaced};
ghost use Rattle.desk.specs.Written.{Written};

// Writes x from `at` on, its tens before its last digit, and answers where it ends.
#[tactic(auto, using(crate::proofs::Numbers::written_digit, crate::proofs::Decimals::single_length, crate::proofs::Decimals::tens_length))]
pub fn put_decimal(bytes: &mut [u8], at: usize, x: u64) -> usize
    requires { at + length (decimal x) ≤ length bytes.old }
    ensures { Written bytes.old at (decimal x) bytes.new result }
{
    if x < 10 {
        bytes[at] = b'0' + x as u8;
        return at + 1;
    }
    let end = put_decimal(bytes, at, x / 10);
    bytes[end] = b'0' + (x % 10) as u8;
    end + 1
}

// Writes a space and x from `at` on, and answers where they end: a number of 64 bits has at most 20 digits.
pub fn put_number(bytes: &mut [u8], at: usize, x: u64) -> usize
    requires { at + 21 ≤ length bytes.old }
    ensures { Written bytes.old at (space ∷ decimal x) bytes.new result }
{
    bytes[at] = b' ';
    put_decimal(bytes, at + 1, x)
}

// Writes a space and each number from `at` on, and answers where they end.
pub fn put_numbers(bytes: &mut [u8], at: usize, numbers: &[u64]) -> usize
    requires { at + 21 * length numbers.now ≤ length bytes.old }
    ensures written { Written bytes.old at (spaced numbers.now) bytes.new result }
    ensures short { result ≤ at + 21 * length numbers.now }
{
    let mut end = at;
    for x in numbers {
        end = put_number(bytes, end, *x);
    }
    end
}
