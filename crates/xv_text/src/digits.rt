//! Fields that say a number or bytes.

ghost use Rattle.std.specs.Prelude.{◌≡◌, ◌<◌, ◌≤◌, ◌*◌, ◌/◌, ◌%◌, true, false, length, take, IfSome, IfNone, if◌then◌else◌, MatchBool};
ghost use Rattle.std.specs.List.{list_all};
ghost use Rattle.std.specs.Char.{is_ascii_digit};
ghost use Rattle.std.specs.Str.Parse.{digits_value};
ghost use Rattle.xv_text.specs.Fields.{is_number, number, is_hex_digit, hex_value, is_hex, hex_bytes};

use xv_base::Pattern;

/// The number that a field says; none where it is no decimal number below 2^32 without leading zeros.
pub(crate) fn number_of(field: &[u8]) -> Option<u32>
    ensures is { IfSome result (λ n. is_number field.now ≡ true) }
    ensures value { IfSome result (λ n. n ≡ number field.now) }
    ensures none { IfNone result (is_number field.now ≡ false) }
{
    if field.is_empty() || field.len() > 10 {
        return None;
    }
    if field[0] == b'0' && field.len() > 1 {
        return None;
    }
    match digits_value(field) {
        Some(value) => u32::try_from(value).ok(),
        None => None,
    }
}

/// The number that at most ten digits stand for; none where one is no decimal digit.
fn digits_value(digits: &[u8]) -> Option<u64>
    requires { length digits.now ≤ 10 }
    ensures digits { IfSome result (λ n. list_all is_ascii_digit digits.now ≡ true) }
    ensures value { IfSome result (λ n. n ≡ digits_value 10 digits.now) }
    ensures none { IfNone result (list_all is_ascii_digit digits.now ≡ false) }
{
    let mut value = 0;
    for digit in digits {
        if !digit.is_ascii_digit() {
            return None;
        }
        value = value * 10 + u64::from(*digit - b'0');
    }
    Some(value)
}

/// The bytes that a field says; none where it is not from 1 to 64 bytes in hexadecimal digits.
pub(crate) fn pattern_of(field: &[u8]) -> Option<Pattern>
    ensures is { IfSome result (λ pattern. is_hex field.now ≡ true) }
    ensures bytes { IfSome result (λ pattern. pattern ≡ hex_bytes field.now) }
    ensures none { IfNone result (is_hex field.now ≡ false) }
{
    if field.len() < 2 || field.len() > 128 || field.len() % 2 != 0 {
        return None;
    }
    let mut bytes = [0; 64];
    if decode(field, &mut bytes) {
        Some(Pattern::new(&bytes[..field.len() / 2]))
    } else {
        None
    }
}

/// Writes the bytes that the digits say to the start of `into`, if all are hexadecimal digits.
fn decode(digits: &[u8], into: &mut [u8]) -> bool
    requires even { length digits.now % 2 ≡ 0 }
    requires fits { length digits.now ≤ 2 * length into.old }
    ensures digits { result ≡ list_all is_hex_digit digits.now }
    ensures bytes { MatchBool result (take (length digits.now / 2) into.new ≡ hex_bytes digits.now) (list_all is_hex_digit digits.now ≡ false) }
{
    for i in 0..digits.len() / 2 {
        let high = digit_of(digits[2 * i]);
        let low = digit_of(digits[2 * i + 1]);
        if high > 15 || low > 15 {
            return false;
        }
        into[i] = 16 * high + low;
    }
    true
}

/// What a hexadecimal digit stands for, and 255 for a byte that is none.
fn digit_of(byte: u8) -> u8
    ensures { result ≡ (if is_hex_digit byte then hex_value byte else 255) }
{
    if b'0' <= byte && byte <= b'9' {
        byte - b'0'
    } else if b'a' <= byte && byte <= b'f' {
        byte - b'a' + 10
    } else {
        255
    }
}
