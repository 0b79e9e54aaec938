//! Decimal digits in front of a text, whose end isn't looked for first.
ghost use Rattle.std.specs.Prelude.{◌≡◌, ◌≤◌, ◌<◌, ◌^◌, true, length, take, IfSome};
ghost use Rattle.std.specs.List.{list_all};
ghost use Rattle.std.specs.Char.{is_ascii_digit};
ghost use Rattle.bus_text.specs.inside.Leading.{AreDigits};
ghost use Rattle.bus_text.specs.Numbers.{decimal_value};

/// A number that one digit more can be put behind.
const MOST_BEFORE: u64 = 100_000_000_000_000_000;

/// A number that four digits more can be put behind.
const MOST_BEFORE_FOUR: u64 = 10_000_000_000_000;

/// The number that four digits write.
fn decimal_of_four(a: u8, b: u8, c: u8, d: u8) -> Option<u64>
    ensures { IfSome result (AreDigits a b c d) }
{
    if !a.is_ascii_digit() || !b.is_ascii_digit() || !c.is_ascii_digit() || !d.is_ascii_digit() {
        return None;
    }
    let upper = 10 * u64::from(a - b'0') + u64::from(b - b'0');
    let lower = 10 * u64::from(c - b'0') + u64::from(d - b'0');
    Some(100 * upper + lower)
}

/// How many digits stand in front, counted by fours as far as their number has room, and that number. Fours, since a test of the end
/// and of the room at each digit would take as long as the digit itself.
fn leading_fours(text: &[u8]) -> (usize, u64)
    ensures within { result.0 ≤ length text.now }
    ensures digits { list_all is_ascii_digit (take result.0 text.now) ≡ true }
    ensures value { result.1 ≡ decimal_value (take result.0 text.now) }
    ensures room { result.1 < 10 ^ 18 }
{
    let mut value = 0;
    let mut count = 0;
    while value < MOST_BEFORE_FOUR && text.len() - count >= 4 {
        let Some(four) = decimal_of_four(
            text[count],
            text[count + 1],
            text[count + 2],
            text[count + 3],
        ) else {
            break;
        };
        value = 10_000 * value + four;
        count += 4;
    }
    (count, value)
}

/// How many decimal digits stand in front of a text, as far as their number has room, and that number: digits behind one that is 100
/// quadrillion or more are left out.
pub fn leading_digits(text: &[u8]) -> (usize, u64)
    ensures within { result.0 ≤ length text.now }
    ensures digits { list_all is_ascii_digit (take result.0 text.now) ≡ true }
    ensures value { result.1 ≡ decimal_value (take result.0 text.now) }
    ensures room { result.1 < 10 ^ 18 }
{
    let (mut count, mut value) = leading_fours(text);
    while count < text.len() && value < MOST_BEFORE && text[count].is_ascii_digit() {
        value = 10 * value + u64::from(text[count] - b'0');
        count += 1;
    }
    (count, value)
}
