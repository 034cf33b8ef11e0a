//! Decimal numbers in text: those of bindings, scripts and arguments, and those in a body's strings. A body's bare
//! numbers are read as JSON, and progress records have a reader of their own.

ghost use Rattle.std.specs.Prelude.{◌≡◌, ◌<◌, ◌≤◌, ◌^◌, ◌++◌, List, ℕ, IfSome, decimal, drop, false, length, take, true};
ghost use Rattle.std.specs.Char.{is_ascii_digit};
ghost use Rattle.std.specs.List.{list_all, take_while};
ghost use Rattle.std.specs.Str.Parse.{digits_value};
ghost use Rattle.cdc_message.specs.Decimals as spec;
ghost use Rattle.cdc_message.specs.Digits.{AreDigits, FourMore};
ghost use Rattle.cdc_message.specs.OwnBodies.{begins_with_digit};

fn has_digits_alone(text: &[u8]) -> bool
    ensures { result ≡ list_all is_ascii_digit text.now }
{
    text.iter().all(|byte| byte.is_ascii_digit())
}

/// Whether a text is one or more of the digits 0 to 9, and nothing else.
pub fn is_decimal(text: &[u8]) -> bool
    ensures { result ≡ spec.is_decimal text.now }
{
    !text.is_empty() && has_digits_alone(text)
}

// The number that digits represent. `None` if it has more than 128 bits.
pub(crate) fn value_of_text(digits: &str) -> Option<u128>
    requires { spec.is_decimal digits.now ≡ true }
    ensures { result ≡ spec.at_most u128.MAX (digits_value 10 digits.now) }
{
    digits.parse().ok()
}

// The same for digits that are given as bytes.
fn value_of(digits: &[u8]) -> Option<u128>
    requires { spec.is_decimal digits.now ≡ true }
    ensures { result ≡ spec.at_most u128.MAX (digits_value 10 digits.now) }
{
    let Ok(text) = str::from_utf8(digits) else {
        return None;
    };
    value_of_text(text)
}

/// The number that a text represents in decimal; leading zeros are allowed. `None` if the text isn't one or more
/// digits (then `is_decimal` is false), or if the number exceeds `greatest` (then it is true).
pub fn decimal_up_to(text: &[u8], greatest: u128) -> Option<u128>
    ensures { result ≡ spec.decimal_up_to greatest text.now }
{
    if !is_decimal(text) {
        return None;
    }
    let number = value_of(text)?;
    if number <= greatest {
        Some(number)
    } else {
        None
    }
}

// The digits at the front of a text.
fn leading_digits(text: &[u8]) -> &[u8]
    ensures { result.now ≡ take_while is_ascii_digit text.now }
{
    for (count, byte) in text.iter().enumerate() {
        if !byte.is_ascii_digit() {
            return &text[..count];
        }
    }
    text
}

/// The number that the digits at the front of a text represent; leading zeros are allowed. `None` if there is no digit
/// or if the number has more than 128 bits.
pub(crate) fn leading_number(text: &[u8]) -> Option<u128>
    ensures { (n : ℕ) (rest : List ℕ) → text.now ≡ decimal n ++ rest → n < 2 ^ 128 → begins_with_digit rest ≡ false
        → result ≡ Some n }
{
    let digits = leading_digits(text);
    if digits.is_empty() {
        return None;
    }
    value_of(digits)
}

// How many digits always fit into 64 bits.
const FIRST: usize = 19;

// How many digits always fit into 128 bits.
const MOST: usize = 38;

// How many digits are read at once, and ten to the power of that.
const GROUP: usize = 4;

const GROUP_SCALE: u64 = 10_000;

// The number that the first four bytes of a text represent. `None` if they aren't four digits.
#[inline(always)]
fn four_digits(text: &[u8]) -> Option<u64>
    ensures reads { IfSome result (FourMore text.now) }
    ensures small { IfSome result (λ four. four < GROUP_SCALE) }
{
    match text {
        [one, two, three, four, ..]
            if one.is_ascii_digit()
                && two.is_ascii_digit()
                && three.is_ascii_digit()
                && four.is_ascii_digit() => {
            let front = u64::from(*one - b'0') * 10 + u64::from(*two - b'0');
            let back = u64::from(*three - b'0') * 10 + u64::from(*four - b'0');
            Some(front * 100 + back)
        }
        _ => None,
    }
}

// The number of one digit with which a text begins. `None` if it doesn't, or if another digit follows.
#[inline(always)]
fn one_digit(text: &[u8]) -> Option<u128>
    ensures reads { IfSome result (AreDigits text.now 1) }
    ensures whole { IfSome result (λ digit. begins_with_digit (drop 1 text.now) ≡ false) }
{
    match text {
        [digit, next, ..] if digit.is_ascii_digit() && !next.is_ascii_digit() => {
            Some(u128::from(*digit - b'0'))
        }
        _ => None,
    }
}

// The first digits of a text, at most 19: the number that they represent, and how many they are.
fn first_digits(text: &[u8]) -> (u64, usize)
    ensures reads { AreDigits text.now result.1 result.0 }
    ensures few { result.1 ≤ FIRST }
    ensures whole { result.1 < FIRST → begins_with_digit (drop result.1 text.now) ≡ false }
{
    let mut number = 0;
    let mut count = 0;
    'groups: while count <= FIRST - GROUP {
        let Some(group) = four_digits(&text[count..]) else {
            break;
        };
        number = number * GROUP_SCALE + group;
        count += GROUP;
    }
    while count < FIRST && count < text.len() && text[count].is_ascii_digit() {
        number = number * 10 + u64::from(text[count] - b'0');
        count += 1;
    }
    (number, count)
}

// The number that the digits at the front of a text represent, of which the first 19 represent this one, and how many
// they are. `None` if there are more than 38.
fn more_digits(text: &[u8], high: u64) -> Option<(u128, usize)>
    requires { AreDigits text.now FIRST high }
    ensures reads { IfSome result (λ found. AreDigits text.now found.1 found.0) }
    ensures few { IfSome result (λ found. (FIRST ≤ found.1) × (found.1 ≤ MOST)) }
    ensures whole { IfSome result (λ found. begins_with_digit (drop found.1 text.now) ≡ false) }
{
    let mut low: u64 = 0;
    let mut scale: u64 = 1;
    let mut count = FIRST;
    'groups: while count <= MOST - GROUP {
        let Some(group) = four_digits(&text[count..]) else {
            break;
        };
        low = low * GROUP_SCALE + group;
        scale *= GROUP_SCALE;
        count += GROUP;
    }
    while count < text.len() && text[count].is_ascii_digit() {
        if count == MOST {
            return None;
        }
        low = low * 10 + u64::from(text[count] - b'0');
        scale *= 10;
        count += 1;
    }
    Some((
        u128::from(high) * u128::from(scale) + u128::from(low),
        count,
    ))
}

/// The number that the digits at the front of a text represent, and how many they are. `None` if there is no digit, if
/// there are more than 38, or if the first of several is a zero.
pub(crate) fn front_number(text: &[u8]) -> Option<(u128, usize)>
    ensures digits { IfSome result (λ found. (found.1 ≤ length text.now) × (decimal found.0 ≡ take found.1 text.now)) }
    ensures fits { IfSome result (λ found. found.0 < 10 ^ MOST) }
    ensures whole { IfSome result (λ found. begins_with_digit (drop found.1 text.now) ≡ false) }
{
    if let Some(digit) = one_digit(text) {
        return Some((digit, 1));
    }
    let (number, count) = first_digits(text);
    if count == 0 || (count > 1 && text[0] == b'0') {
        return None;
    }
    if count < FIRST {
        return Some((u128::from(number), count));
    }
    more_digits(text, number)
}
