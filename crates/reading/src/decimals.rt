// Numbers read from a field.
ghost use Rattle.std.specs.Prelude.{◌≡◌, ◌≤◌, ◌≢◌};
ghost use Rattle.notation.specs.Numbers.{LengthIs, NumberIs};

// What the first character of a field says.
#[derive(Clone, Copy, PartialEq, Eq, Debug)]
enum First {
    Minus,
    Digit,
    Other,
}

// The class of a byte that opens a number.
fn first_of(b: u8) -> First
    ensures { elim result [ First.Minus ↦ b ≡ 45 | First.Digit ↦ (48 ≤ b) × (b ≤ 57) | First.Other ↦ (b ≢ 45) × ((48 ≤ b) × (b ≤ 57) → ⊥) ] }
{
    match b as char {
        '-' => First::Minus,
        '0'..='9' => First::Digit,
        _ => First::Other,
    }
}

// A number from 0 up, of at most nine digits; only 0 begins with a zero.
pub fn read_length(field: &[u8]) -> Option<u32>
    ensures { LengthIs field.now result }
{
    let first = *field.first()?;
    if field.len() > 9 {
        return None;
    }
    if first == b'0' && field.len() > 1 {
        return None;
    }
    let mut value = 0;
    for b in field {
        value = value * 10 + char::from(*b).to_digit(10)?;
    }
    Some(value)
}

// A number: told by its first character, a minus sign, which 0 does not take, or a digit.
pub fn read_number(field: &[u8]) -> Option<i32>
    ensures { NumberIs field.now result }
{
    let (first, rest) = field.split_first()?;
    match first_of(*first) {
        First::Minus => match read_length(rest)? {
            0 => None,
            n => Some(-(n as i32)),
        },
        First::Digit => Some(read_length(field)? as i32),
        First::Other => None,
    }
}
