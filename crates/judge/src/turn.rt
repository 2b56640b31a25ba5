// One step of a run.
ghost use Rattle.std.specs.Prelude.{◌≡◌, ◌+◌, ◌-◌, ◌*◌, ◌^◌, ◌<◌, ◌≤◌};
ghost use Rattle.rules.specs.Judging.{set_width};
ghost use Rattle.rules.specs.Limits.{most_terms};
ghost use Rattle.rules.specs.Steps as rule;
ghost use Rattle.words.specs.Stored.{decoded};
ghost use Rattle.judge.specs.Running.{Running, Turned};

use netlist::table::SoundBlock;
use poly::step::step;

// The terms held after a step, where they have room, and those that it made before they were gathered.
#[derive(Clone, Copy)]
pub struct Turn {
    pub held: Option<usize>,
    pub made: u32,
}

// The terms of a step before gathering, where `with` of the terms held have its gate: the others, and what is made of each of these.
fn raw(held: usize, with: u32, each: u32) -> u32
    requires { (with ≤ held) × (held ≤ most_terms) × (each ≤ 8) }
    ensures { result ≡ held - with + each * with }
{
    held as u32 - with + each * with
}

// The step of gate v on the `held` terms of the store, and its numbers. Without room for the terms after it, store and numbers stay as they
// were.
pub fn take_turn(
    block: &SoundBlock,
    v: u32,
    limit: usize,
    held: usize,
    store: &mut [u64],
    scratch: &mut [u64],
    occurrences: &mut [u32],
) -> Turn
    requires { let b = block.now.block in let p = decoded (set_width b.counts) held store.old in
        Running b.counts b.table.now limit held p store.old scratch.old occurrences.old × (b.counts.i < v) × (v ≤ b.counts.m) }
    ensures { let b = block.now.block in let p = decoded (set_width b.counts) held store.old in
        Turned b.counts limit (rule.made (2 ^ b.counts.o) b.counts b.table.now v p) (rule.step (2 ^ b.counts.o) b.counts b.table.now v p)
        store.old scratch.old occurrences.old result store.new scratch.new occurrences.new }
{
    let c = block.block.counts;
    let w = (c.m / 64 + 1) as usize;
    let r = block.block.record_at(v);
    let with = occurrences[v as usize];
    let end = c.m as usize + 1;
    let after = step(
        w,
        c.o,
        v,
        r,
        limit,
        held,
        store,
        scratch,
        &mut occurrences[..end],
    );
    Turn {
        held: after.held,
        made: raw(held, with, after.each),
    }
}
