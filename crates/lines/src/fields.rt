// What a text begins with: a byte that is asked for, or numbers, each with the byte behind it. Each answer has the text
// behind what was read.
ghost use Rattle.std.specs.Prelude.{◌≡◌};
ghost use Rattle.rules.specs.Reading.{behind, field, fields};
ghost use Rattle.lines.specs.Found.{rest_scan, value_scan, numbers_scan, digits_of, number_of};

// The text behind the byte x, where it begins with x.
#[tactic(auto, unfolding(rules::specs::Reading::behind))]
pub fn behind(text: &[u8], x: u8) -> Option<&[u8]>
    ensures { rest_scan result ≡ behind x text.now }
{
    match text {
        [first, rest @ ..] if *first == x => Some(rest),
        _ => None,
    }
}

// Up to four digits, which may be none: their number, and how many they are. A fifth ends the reading at once.
#[tactic(auto, using(crate::proofs::Digits::passed), unfolding(rules::specs::Reading::digit))]
pub fn digits(text: &[u8]) -> Option<(u32, usize)>
    ensures { result ≡ digits_of text.now }
{
    let mut value = 0;
    for (count, &x) in text.iter().enumerate() {
        if !x.is_ascii_digit() {
            return Some((value, count));
        }
        if count == 4 {
            return None;
        }
        value = 10 * value + u32::from(x - b'0');
    }
    Some((value, text.len()))
}

// One to four digits, with a leading zero only where it is the one digit.
#[tactic(auto, using(crate::proofs::Digits::numbers))]
pub fn number(text: &[u8]) -> Option<(u32, &[u8])>
    ensures { value_scan result ≡ number_of text.now }
{
    let (value, count) = digits(text)?;
    let rest = &text[count..];
    match count {
        0 => None,
        1 => Some((value, rest)),
        _ if text[0] == b'0' => None,
        _ => Some((value, rest)),
    }
}

// A number and the byte that must follow it.
#[tactic(auto, using(crate::proofs::Digits::field_of), unfolding(rules::specs::Reading::and_then, rules::specs::Reading::with_numbers))]
pub fn field(text: &[u8], end: u8) -> Option<(u32, &[u8])>
    ensures { value_scan result ≡ field end text.now }
{
    let (value, rest) = number(text)?;
    Some((value, behind(rest, end)?))
}

// As many numbers as bytes are given, each followed by its byte.
#[tactic(auto, using(crate::proofs::Scans::reads))]
pub fn fields<'a, const N: usize>(text: &'a [u8], ends: &[u8; N]) -> Option<([u32; N], &'a [u8])>
    ensures { numbers_scan result ≡ fields ends.now text.now }
{
    let mut numbers = [0; N];
    let mut rest = text;
    for k in 0..N {
        (numbers[k], rest) = field(rest, ends[k])?;
    }
    Some((numbers, rest))
}
