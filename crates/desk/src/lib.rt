// The desk program's line: what it judges with, and how an answer is printed.
#![tactic(auto)]

pub mod decimal; // decimal.rt: numbers in decimal, written into lent bytes
pub mod format; // format.rt: an answer as a line
pub mod judging; // judging.rt: a netlist text, read and judged
pub mod kind; // kind.rt: the kind that the first line names
pub mod order; // order.rt: the order M down to I + 1

ghost use Rattle.std.specs.Prelude.{◌≡◌};
ghost use Rattle.rules.specs.Says.{says};
ghost use Rattle.rules.specs.Desk.{kind_asked, desk_says, Lined};
ghost use Rattle.desk.specs.Kind.{kind_or_none};

use crate::format::answer_line;
use crate::judging::read_and_judged;
use crate::kind::{kind_asked, line_bytes};
use product::adds;
use rules::answers::{Answer, Line};
use rules::limits::Limits;
use rules::refusals::Refusal;

// What is said of an input whose kind line is known: 13 by its length, 9 for its kind line, and then by its text.
pub fn said(kind: Option<u32>, input: &[u8]) -> Result<Answer, Refusal>
    requires { kind ≡ kind_or_none (kind_asked input.now) }
    ensures { says result ≡ desk_says input.now }
{
    if Limits::DESK_BYTES_MOST < input.len() {
        return Err(Refusal::DeskInput);
    }
    let kind = kind.ok_or(Refusal::WrongKind)?;
    read_and_judged(kind, &input[line_bytes(kind)..])
}

// The line that the desk program prints of an input.
pub fn line(input: &[u8]) -> Line
    ensures { Lined input.now result }
{
    let kind = kind_asked(input);
    answer_line(said(kind, input), kind.is_some_and(|kind| adds(kind)))
}
