// Why what is handed in is refused.
ghost use Rattle.rules.specs.Says.{Numbers};

// One case for each number, in the order of the numbers.
#[derive(Clone, Copy, PartialEq, Eq)]
pub enum Refusal {
    Header,
    CountOutside,
    ShortTable,
    InputLine,
    OutputLine,
    GateLine,
    BytesBehind,
    UnsoundTable,
    WrongKind,
    TermLimit,
    WrongOrder,
    ShortBuffer,
    DeskInput,
}

// The number by which hosts and the desk's line know a refusal.
impl From<Refusal> for u32 {
    ghost from_gives = { Numbers };

    fn from(refusal: Refusal) -> u32
        ensures { Numbers refusal result }
    {
        match refusal {
            Refusal::Header => 1,
            Refusal::CountOutside => 2,
            Refusal::ShortTable => 3,
            Refusal::InputLine => 4,
            Refusal::OutputLine => 5,
            Refusal::GateLine => 6,
            Refusal::BytesBehind => 7,
            Refusal::UnsoundTable => 8,
            Refusal::WrongKind => 9,
            Refusal::TermLimit => 10,
            Refusal::WrongOrder => 11,
            Refusal::ShortBuffer => 12,
            Refusal::DeskInput => 13,
        }
    }
}
