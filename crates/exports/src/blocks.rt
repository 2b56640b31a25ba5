// The block that a host hands over.
ghost use Rattle.std.specs.Prelude.{◌≡◌};
ghost use Rattle.exports.specs.Exported.{records_named, named};

use rules::counts::Counts;
use rules::records::RecordKind;

// The kind of record that a host names: a number, in C.
#[tactic(auto, unfolding(crate::specs::Exported::records_named))]
fn kind_of_record(cells: u32) -> RecordKind
    ensures { result ≡ records_named cells }
{
    if cells == 0 {
        return RecordKind::Gates;
    }
    RecordKind::Cells
}

// The counts of a host's numbers, with the kind of record that it names: 0 is AND gates, any other number lookup cells.
pub fn counts(m: u32, i: u32, l: u32, o: u32, a: u32, cells: u32) -> Counts
    ensures { result ≡ named m i l o a cells }
{
    let records = kind_of_record(cells);
    Counts {
        m,
        i,
        l,
        o,
        a,
        records,
    }
}
