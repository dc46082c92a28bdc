//! Numbers of words.

ghost use Rattle.std.specs.Prelude.{◌≡◌, ◌≢◌, ◌∷◌, ◌^◌, ◌<◌, ◌≤◌, slice_index, IfSome, IfNone};
ghost use Rattle.std.specs.Str.Parse.{AllDigits, digits_value};
ghost use Rattle.ft_lines.specs.Values.{number_of, signed_of};
ghost use Rattle.ft_lines.specs.Edits.{natural_word, number_word};

use ft_types::NumberType;

/// The value of decimal digits, unless there is another byte or it is over `most`.
fn value_of(digits: &[u8], most: u64) -> Option<u64>
    ensures some { IfSome result (λ n. AllDigits 10 digits.now × (n ≡ digits_value 10 digits.now)) }
    ensures within { IfSome result (λ n. n ≤ most) }
    ensures none { IfNone result (AllDigits 10 digits.now → most < digits_value 10 digits.now) }
{
    let tenth = most / 10;
    let mut value = 0u64;
    for digit in digits {
        if !digit.is_ascii_digit() {
            return None;
        }
        let ones = u64::from(*digit - b'0');
        if value > tenth {
            return None;
        }
        let tens = value * 10;
        if ones > most - tens {
            return None;
        }
        value = tens + ones;
    }
    Some(value)
}

/// A number of at most `most`, in decimal digits without leading zeros. None exactly where the word
/// isn't one.
pub fn number(word: &[u8], most: u64) -> Option<u64>
    ensures value { result ≡ number_of most word.now }
    ensures within { IfSome result (λ n. n ≤ most) }
{
    if word.is_empty() {
        return None;
    }
    if word[0] == b'0' && word.len() > 1 {
        return None;
    }
    value_of(word, most)
}

/// The number below 0 whose digits these are, from `-most - 1` on.
fn below_zero(digits: &[u8], most: u64) -> Option<i64>
    requires { most < 2 ^ 63 }
    ensures { result ≡ signed_of most (45 ∷ digits.now) }
{
    let n = number(digits, most + 1)?;
    if n == 0 {
        None
    } else {
        Some(-((n - 1) as i64) - 1)
    }
}

/// The number from 0 to `most` that a word without `-` says.
fn from_zero(word: &[u8], most: u64) -> Option<i64>
    requires most { most < 2 ^ 63 }
    requires first { slice_index word.now 0 ≢ 45 }
    ensures { result ≡ signed_of most word.now }
{
    let n = number(word, most)?;
    Some(n as i64)
}

/// A number from `-most - 1` to `most`, which is less than 2^63, in decimal digits without leading
/// zeros, with `-` before one below 0. None exactly where the word isn't one.
pub fn signed(word: &[u8], most: u64) -> Option<i64>
    requires { most < 2 ^ 63 }
    ensures { result ≡ signed_of most word.now }
{
    if word.is_empty() || word[0] != b'-' {
        return from_zero(word, most);
    }
    below_zero(&word[1..], most)
}

/// A number from 0 to `most`.
fn natural(word: &[u8], most: u32) -> Option<i64>
    ensures { result ≡ natural_word most word.now }
{
    let n = number(word, u64::from(most))?;
    Some(n as i64)
}

/// A number of a type.
pub fn typed(word: &[u8], number_type: NumberType) -> Option<i64>
    ensures { result ≡ number_word number_type word.now }
{
    match number_type {
        NumberType::U8 => natural(word, 255),
        NumberType::U16 => natural(word, 65_535),
        NumberType::U32 => natural(word, u32::MAX),
        NumberType::I8 => signed(word, 127),
        NumberType::I16 => signed(word, 32_767),
    }
}
