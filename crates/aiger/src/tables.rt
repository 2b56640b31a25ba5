// The second pass over lines that the first found right: their numbers go into the table.
ghost use Rattle.std.specs.Prelude.{◌*◌, ◌≤◌, length};
ghost use Rattle.rules.specs.Reading.{lines};
ghost use Rattle.aiger.specs.Stored.{Finds, Stored};

use lines::sections::Lines;

// Stores the numbers of so many lines from the front of the table on, and gives the text behind them.
pub fn store<'a, const N: usize, L: Lines<N>>(
    section: &L,
    text: &'a [u8],
    count: u32,
    table: &mut [u32],
) -> &'a [u8]
    requires room { N * count ≤ length table.old }
    requires found { Finds (lines count (L.rule section.now) text.now) }
    ensures { Stored (lines count (L.rule section.now) text.now) result.now (N * count) table.old table.new }
{
    let mut rest = text;
    for k in 0..count {
        let Some(line) = section.read(rest, k) else {
            // The first pass found each of these lines right.
            unreachable!()
        };
        let (numbers, behind) = line;
        let at = N * k as usize;
        table[at..at + N].copy_from_slice(&numbers);
        rest = behind;
    }
    rest
}
