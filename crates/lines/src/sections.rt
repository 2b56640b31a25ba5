// The header of a text, and the lines of its sections. Sums go by u64, where no literal of a u32 variable wraps.
ghost use Rattle.std.specs.Prelude.{◌≡◌, ◌<◌, ◌^◌, ℕ, List};
ghost use Rattle.std.proofs.Common.{lit<};
ghost use Rattle.rules.specs.Text.{header_word};
ghost use Rattle.rules.specs.Reading.{Scan, word, header_line, input_line, output_line, gate_line, lines};
ghost use Rattle.rules.specs.declared.records.RecordKind.TheVariants.{Gates};
ghost use Rattle.lines.specs.Found.{rest_scan, numbers_scan};
ghost use Rattle.lines.specs.Sections.{heading_scan, heading_records, bare};

use crate::fields::fields;
use rules::counts::Counts;
use rules::records::RecordKind;

// The bytes of `aag ` at the start.
pub fn word(text: &[u8]) -> Option<&[u8]>
    ensures { rest_scan result ≡ word header_word text.now }
{
    text.strip_prefix(b"aag ")
}

// The header line: the five counts. A text has AND gates.
#[tactic(auto, unfolding(rules::specs::Reading::header_line, rules::specs::Reading::and_then, rules::specs::Reading::with_numbers))]
pub fn header(text: &[u8]) -> Option<(Counts, &[u8])>
    ensures numbers { heading_scan result ≡ header_line text.now }
    ensures records { heading_records result ≡ Gates }
{
    let ([m, i, l, o, a], rest) = fields(word(text)?, b"    \n")?;
    let records = RecordKind::Gates;
    let counts = Counts {
        m,
        i,
        l,
        o,
        a,
        records,
    };
    Some((counts, rest))
}

// The lines of a section. The k-th, from 0, has a rule: the numbers that it gives, and the text behind it.
pub trait Lines<const N: usize> {
    ghost rule: { Self → ℕ → List ℕ → Scan };

    fn read<'a>(&self, text: &'a [u8], k: u32) -> Option<([u32; N], &'a [u8])>
        ensures { numbers_scan result ≡ rule self.now k text.now };

    // So few numbers fit memory.
    ghost few: { N < 2 ^ 61 };
}

// Input lines: each is the literal 2(k + 1).
#[derive(Clone, Copy)]
pub struct InputLines;

impl Lines<0> for InputLines {
    ghost rule = { λ _. input_line };

    ghost few = { lit< tt };

    #[tactic(auto, unfolding(rules::specs::Reading::input_line, rules::specs::Reading::tested))]
    fn read<'a>(&self, text: &'a [u8], k: u32) -> Option<([u32; 0], &'a [u8])>
        ensures { numbers_scan result ≡ input_line k text.now }
    {
        let ([literal], rest) = fields(text, b"\n")?;
        (literal as u64 == 2 * (k as u64 + 1)).then_some(([], rest))
    }
}

// Output lines: each is a literal up to 2M + 1.
#[derive(Clone, Copy)]
pub struct OutputLines(pub Counts);

impl Lines<1> for OutputLines {
    ghost rule = { λ s. output_line s.0 };

    ghost few = { lit< tt };

    #[tactic(auto, unfolding(rules::specs::Netlist::output_sound, rules::specs::Reading::output_line, rules::specs::Reading::tested))]
    fn read<'a>(&self, text: &'a [u8], k: u32) -> Option<([u32; 1], &'a [u8])>
        ensures { numbers_scan result ≡ output_line self.now.0 k text.now }
    {
        let ([literal], rest) = fields(text, b"\n")?;
        (literal as u64 <= 2 * self.0.m as u64 + 1).then_some(([literal], rest))
    }
}

// Gate lines: each is its own literal, and two that fall.
#[derive(Clone, Copy)]
pub struct GateLines(pub Counts);

impl Lines<2> for GateLines {
    ghost rule = { λ s. gate_line s.0 };

    ghost few = { lit< tt };

    #[tactic(auto, unfolding(rules::specs::Netlist::gate, rules::specs::Netlist::gate_sound, rules::specs::Reading::gate_line, rules::specs::Reading::tested))]
    fn read<'a>(&self, text: &'a [u8], k: u32) -> Option<([u32; 2], &'a [u8])>
        ensures { numbers_scan result ≡ gate_line self.now.0 k text.now }
    {
        let ([lhs, rhs0, rhs1], rest) = fields(text, b"  \n")?;
        let own = lhs as u64 == 2 * (self.0.i as u64 + 1 + k as u64);
        (own && rhs0 < lhs && rhs1 <= rhs0).then_some(([rhs0, rhs1], rest))
    }
}

// The text behind so many lines, where all of them are right.
#[tactic(auto, using(crate::proofs::Scans::passes))]
pub fn pass<'a, const N: usize, L: Lines<N>>(
    section: &L,
    text: &'a [u8],
    count: u32,
) -> Option<&'a [u8]>
    ensures { rest_scan result ≡ bare (lines count (L.rule section.now) text.now) }
{
    let mut rest = text;
    for k in 0..count {
        // `?` on a value that holds an array gets no proof.
        let Some((_, behind)) = section.read(rest, k) else {
            return None;
        };
        rest = behind;
    }
    Some(rest)
}
