//! Numbers in values: `4096`, `4k`, `4kb`, `0x1000`.

ghost use Rattle.std.specs.Prelude.{◌≡◌, ◌≤◌, length, IsTrue};
ghost use Rattle.std.specs.Char.{is_ascii_digit};
ghost use Rattle.std.specs.List.{prefix_len};
ghost use Rattle.std.specs.Str.{str_eq_ignore_ascii_case};
ghost use Rattle.job_file.specs.Number.{number_of, is_hexadecimal, decimal, unit_of, is_either, with_digit, numeral};

/// The number that a value spells; `None` where it spells none, or one above `u64::MAX`.
pub(crate) fn number_of(value: &[u8]) -> Option<u64>
    ensures { result ≡ number_of value.now }
{
    if is_hexadecimal(value) {
        numeral(16, &value[2..])
    } else {
        decimal(value)
    }
}

/// Whether the value begins with `0x`.
pub(crate) fn is_hexadecimal(value: &[u8]) -> bool
    ensures value { result ≡ is_hexadecimal value.now }
    ensures length { IsTrue result → 2 ≤ length value.now }
{
    value.len() >= 2 && is_word(&value[..2], b"0x")
}

fn decimal(value: &[u8]) -> Option<u64>
    ensures { result ≡ decimal value.now }
{
    let (digits, suffix) = value.split_at(leading_digits(value));
    numeral(10, digits)?.checked_mul(unit_of(suffix)?)
}

fn leading_digits(value: &[u8]) -> usize
    ensures value { result ≡ prefix_len is_ascii_digit value.now }
    ensures bound { result ≤ length value.now }
{
    value
        .iter()
        .take_while(|digit| digit.is_ascii_digit())
        .count()
}

fn unit_of(suffix: &[u8]) -> Option<u64>
    ensures { result ≡ unit_of suffix.now }
{
    if is_either(suffix, b"", b"b") {
        Some(1)
    } else if is_either(suffix, b"k", b"kb") {
        Some(1024)
    } else if is_either(suffix, b"m", b"mb") {
        Some(1024 * 1024)
    } else if is_either(suffix, b"g", b"gb") {
        Some(1024 * 1024 * 1024)
    } else {
        None
    }
}

fn is_either(suffix: &[u8], short: &[u8], long: &[u8]) -> bool
    ensures { result ≡ is_either suffix.now short.now long.now }
{
    is_word(suffix, short) || is_word(suffix, long)
}

fn is_word(bytes: &[u8], word: &[u8]) -> bool
    ensures { result ≡ str_eq_ignore_ascii_case bytes.now word.now }
{
    bytes.eq_ignore_ascii_case(word)
}

/// The value of digits in a base; `None` where there are none, or other characters, or where 64
/// bits don't hold it.
pub(crate) fn numeral(radix: u32, digits: &[u8]) -> Option<u64>
    requires low { 2 ≤ radix }
    requires high { radix ≤ 36 }
    ensures { result ≡ numeral radix digits.now }
{
    if digits.is_empty() {
        return None;
    }
    let mut value = 0u64;
    for digit in digits {
        value = with_digit(value, radix, *digit)?;
    }
    Some(value)
}

fn with_digit(value: u64, radix: u32, digit: u8) -> Option<u64>
    requires low { 2 ≤ radix }
    requires high { radix ≤ 36 }
    ensures { result ≡ with_digit value radix digit }
{
    let digit = char::from(digit).to_digit(radix)?;
    value
        .checked_mul(u64::from(radix))?
        .checked_add(u64::from(digit))
}
