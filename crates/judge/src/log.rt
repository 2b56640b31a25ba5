// The log: one record for each step completed.
ghost use Rattle.std.specs.Prelude.{◌≡◌, ◌<◌, set, length};

use rules::answers::StepRecord;

// Writes record k.
pub fn put_record(log: &mut [StepRecord], k: usize, gate: u32, terms: u32, made: u32)
    requires { k < length log.old }
    ensures { log.new ≡ set log.old k (record { gate = gate; terms = terms; made = made }) }
{
    log[k] = StepRecord { gate, terms, made };
}
