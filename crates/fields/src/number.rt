//! The number that a field writes.
ghost use Rattle.std.specs.Prelude.{ℕ, ◌≤◌, length, ℤ, MatchResult};
ghost use Rattle.fields.specs.Numbers.{Spells, Writes, WritesSigned};

/// The most digits that a number may have.
const MOST_DIGITS: usize = 9;

/// The field is no number.
#[derive(Clone, Copy, PartialEq, Eq, Debug)]
pub struct IllFormed;

/// The number that a field writes in decimal: one to nine digits, with no sign and no leading zero.
/// Refuses every other text, so that each number has one writing.
pub fn natural(field: &[u8]) -> Result<u32, IllFormed>
    ensures { MatchResult result
        (λ v. Writes field.now v)
        (λ _. (v : ℕ) → Writes field.now v → ⊥) }
{
    match field {
        [] => Err(IllFormed),
        [b'0', _, ..] => Err(IllFormed),
        text if text.len() > MOST_DIGITS => Err(IllFormed),
        text => digits(text),
    }
}

/// The number that a field writes in decimal, perhaps with a minus sign in front of its one to nine digits.
/// Refuses every other text, and -0, so that each number has one writing.
pub fn integer(field: &[u8]) -> Result<i32, IllFormed>
    ensures { MatchResult result
        (λ z. WritesSigned field.now z)
        (λ _. (z : ℤ) → WritesSigned field.now z → ⊥) }
{
    match field {
        [b'-', rest @ ..] => match natural(rest)? {
            0 => Err(IllFormed),
            n => Ok(-(n as i32)),
        },
        digits => Ok(natural(digits)? as i32),
    }
}

/// The number that a short text of digits writes, with leading zeros or none.
fn digits(text: &[u8]) -> Result<u32, IllFormed>
    requires { length text.now ≤ 9 }
    ensures { MatchResult result
        (λ v. Spells text.now v)
        (λ _. (v : ℕ) → Spells text.now v → ⊥) }
{
    let mut number = 0;
    for byte in text {
        if !byte.is_ascii_digit() {
            return Err(IllFormed);
        }
        number = 10 * number + u32::from(*byte - b'0');
    }
    Ok(number)
}
