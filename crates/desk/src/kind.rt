// The kind of block that the desk's first line names.
ghost use Rattle.std.specs.Prelude.{◌≡◌, length};
ghost use Rattle.desk.specs.Kind.{kind_or_none};
ghost use Rattle.rules.specs.Desk.{kind_line, kind_asked};

// The number of the kind whose line an input begins with, where it begins with one.
#[tactic(auto, using(crate::proofs::KindLine::starts_begins), unfolding(crate::specs::Kind::kind_or_none, rules::specs::Desk::kind_asked, rules::specs::Desk::asked_below, rules::specs::Desk::kind_line))]
pub fn kind_asked(input: &[u8]) -> Option<u32>
    ensures { result ≡ kind_or_none (kind_asked input.now) }
{
    if input.starts_with(b"ms\n") {
        return Some(4);
    }
    if input.starts_with(b"m\n") {
        return Some(3);
    }
    if input.starts_with(b"t\n") {
        return Some(2);
    }
    if input.starts_with(b"s\n") {
        return Some(1);
    }
    if input.starts_with(b"u\n") {
        return Some(0);
    }
    None
}

// The bytes of a kind's line.
pub fn line_bytes(kind: u32) -> usize
    ensures { result ≡ length (kind_line kind) }
{
    if kind < 4 {
        return 2;
    }
    3
}
