// Answers as lines.
ghost use Rattle.std.specs.Prelude.{◌≤◌, ◌∷◌, [], ◌++◌, length};
ghost use Rattle.rules.specs.Text.{line_feed};
ghost use Rattle.rules.specs.Says.{answers, answer_says, says};
ghost use Rattle.rules.specs.Desk.{spaced, told};
ghost use Rattle.desk.specs.Line.{Holds, Formatted};

use crate::decimal::put_numbers;
use rules::answers::{Answer, Line};
use rules::refusals::Refusal;

// The line of a letter and its numbers.
pub fn line_of(letter: u8, numbers: &[u64]) -> Line
    requires { length numbers.now ≤ 7 }
    ensures { Holds (letter ∷ spaced numbers.now ++ line_feed ∷ []) result.bytes result.len }
{
    let mut bytes = [0u8; 151];
    bytes[0] = letter;
    let end = put_numbers(&mut bytes, 1, numbers);
    bytes[end] = b'\n';
    let len = end + 1;
    Line { bytes, len }
}

// The line of D, with c only where it is added.
fn differs_line(
    steps: u64,
    terms: u64,
    a: u64,
    b: u64,
    c: u64,
    got: u64,
    wanted: u64,
    adding: bool,
) -> Line
    ensures { Formatted (told adding (answers 1 (steps ∷ terms ∷ a ∷ b ∷ c ∷ got ∷ wanted ∷ []))) result }
{
    if adding {
        return line_of(b'D', &[steps, terms, a, b, c, got, wanted]);
    }
    line_of(b'D', &[steps, terms, a, b, got, wanted])
}

// The line of an answer, with c only where it is added.
fn value_line(answer: Answer, adding: bool) -> Line
    ensures { Formatted (told adding (answer_says answer)) result }
{
    match answer {
        Answer::Equal { steps, terms } => line_of(b'E', &[steps as u64, terms as u64]),
        Answer::Differs {
            steps,
            terms,
            a,
            b,
            c,
            got,
            wanted,
        } => differs_line(steps as u64, terms as u64, a, b, c, got, wanted, adding),
        Answer::OutOfRoom { step, terms } => line_of(b'R', &[step as u64, terms as u64]),
        Answer::Unfinished { steps, terms } => line_of(b'U', &[steps as u64, terms as u64]),
    }
}

// The line that the desk program prints of what is said, with c only where it is added.
pub fn answer_line(said: Result<Answer, Refusal>, adding: bool) -> Line
    ensures { Formatted (told adding (says said)) result }
{
    match said {
        Ok(answer) => value_line(answer, adding),
        Err(refusal) => line_of(b'X', &[u64::from(u32::from(refusal))]),
    }
}
