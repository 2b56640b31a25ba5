// The kinds, and the numbers by which hosts name them.
ghost use Rattle.product.specs.Kinds.{Numbered};

// Plain, two's complement, truncated, multiply and add, and the same in two's complement, at the numbers that they are named by.
#[derive(Clone, Copy, PartialEq, Eq)]
pub enum Kind {
    Plain = 0,
    Signed = 1,
    Truncated = 2,
    MultiplyAdd = 3,
    MultiplyAddSigned = 4,
}

// The kind of a number. One above the last is no kind; what is asked of it in spite of that is answered as for plain.
impl From<u32> for Kind {
    ghost from_gives = { Numbered };

    #[tactic(auto, unfolding(rules::specs::Product::kind_of))]
    fn from(number: u32) -> Kind
        ensures { Numbered number result }
    {
        match number {
            1 => Kind::Signed,
            2 => Kind::Truncated,
            3 => Kind::MultiplyAdd,
            4 => Kind::MultiplyAddSigned,
            _ => Kind::Plain,
        }
    }
}
