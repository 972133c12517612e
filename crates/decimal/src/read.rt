//! The number that a text begins with.

ghost use Rattle.std.specs.Prelude.{◌≡◌, ◌==◌, ◌-◌, ◌^◌, ◌%◌, ◌<◌, ◌≤◌, ◌&&◌, not, nat_lt, IfSome, MatchOption, None, Some, SomeIff, length, take};
ghost use Rattle.std.specs.List.{list_all};
ghost use Rattle.std.specs.Str.Parse.{AllDigits, digits_value};
ghost use Rattle.decimal.specs.Numerals.{digit_at, digits_at, signed_at, signed_of, size_at};

/// A number of at most 19 digits is below 2^64.
const SAFE_DIGITS: usize = 19;

/// Returns the number that a sign or none and digits at the front of `text` write, and what follows them: none where no digit
/// comes first, or the number is no i64.
#[inline(always)]
pub fn read_decimal(text: &[u8]) -> Option<(i64, &[u8])>
    ensures number { MatchOption result (signed_at text.now ≡ None)
        (λ found. signed_at text.now ≡ Some (found.0, found.1.now)) }
    ensures shorter { IfSome result (λ found. length found.1.now < length text.now) }
{
    // Where no digit comes second, one digit is the number or there is none: short numbers need no eight bytes.
    let [first, b'0'..=b'9', ..] = text else {
        return read_digit(text);
    };
    // Signs are hard to foretell, so no branch hangs on them.
    let is_negative = *first == b'-';
    let is_signed = is_negative | (*first == b'+');
    let (size, rest) = read_size(&text[usize::from(is_signed)..])?;
    Some((signed(is_negative, size)?, rest))
}

/// Returns the digit that comes first in `text`, and what follows it.
#[inline(always)]
fn read_digit(text: &[u8]) -> Option<(i64, &[u8])>
    ensures digit { MatchOption result (digit_at text.now ≡ None)
        (λ found. digit_at text.now ≡ Some (found.0, found.1.now)) }
    ensures shorter { IfSome result (λ found. length found.1.now < length text.now) }
{
    let [digit @ b'0'..=b'9', rest @ ..] = text else {
        return None;
    };
    Some((i64::from(*digit - b'0'), rest))
}

/// Returns the number below 10^19 that the digits at the front of `text` write, and what follows them.
#[inline(always)]
fn read_size(text: &[u8]) -> Option<(u64, &[u8])>
    ensures size { MatchOption result (size_at text.now ≡ None)
        (λ found. size_at text.now ≡ Some (found.0, found.1.now)) }
    ensures shorter { IfSome result (λ found. length found.1.now < length text.now) }
{
    let (size, end) = read_digits(text);
    if end == 0 {
        return None;
    }
    let digits = &text[..end];
    if is_long(digits) {
        return None;
    }
    Some((size, &text[end..]))
}

/// Returns whether `digits` write no number below 10^19: more of them than are safe follow zeros.
#[inline(always)]
fn is_long(digits: &[u8]) -> bool
    ensures { result ≡ (nat_lt 19 (length digits.now)
        && not (list_all (λ digit. digit == 48) (take (length digits.now - 19) digits.now))) }
{
    digits.len() > SAFE_DIGITS && !is_zeros(&digits[..digits.len() - SAFE_DIGITS])
}

/// Returns `size` with its sign, if it is in range.
#[inline(always)]
fn signed(is_negative: bool, size: u64) -> Option<i64>
    ensures { result ≡ signed_of is_negative size }
{
    if size > i64::MAX.unsigned_abs() + u64::from(is_negative) {
        return None;
    }
    let number = if is_negative {
        size.wrapping_neg()
    } else {
        size
    };
    Some(number.cast_signed())
}

/// Returns what the digits at the front of `text` write, modulo 2^64, and how many they are.
#[inline(always)]
fn read_digits(text: &[u8]) -> (u64, usize)
    ensures size { result.0 ≡ digits_value 10 (digits_at text.now) % 2 ^ 64 }
    ensures count { result.1 ≡ length (digits_at text.now) }
    ensures within { result.1 ≤ length text.now }
{
    let (mut size, start) = match first_eight(text) {
        Some(size) => (size, 8),
        None => (0, 0),
    };
    for at in start..text.len() {
        let digit = u64::from(text[at]).wrapping_sub(u64::from(b'0'));
        if digit > 9 {
            return (size, at);
        }
        size = size.wrapping_mul(10).wrapping_add(digit);
    }
    (size, text.len())
}

/// Returns the number that the first eight bytes of `digits` write, if all are digits. They are read together: as bytes, then
/// in pairs, in fours.
#[inline(always)]
fn first_eight(digits: &[u8]) -> Option<u64>
    ensures { SomeIff result ((8 ≤ length digits.now) × AllDigits 10 (take 8 digits.now))
        (digits_value 10 (take 8 digits.now)) }
{
    let (eight, _) = digits.split_first_chunk::<8>()?;
    let bytes = u64::from_le_bytes(*eight) ^ 0x3030_3030_3030_3030;
    // A byte above 9 has its highest bit set, or gets it here.
    if (bytes | bytes.wrapping_add(0x7676_7676_7676_7676)) & 0x8080_8080_8080_8080 != 0 {
        return None;
    }
    let pairs = bytes.wrapping_mul(10).wrapping_add(bytes >> 8);
    let low = (pairs & 0x0000_00ff_0000_00ff).wrapping_mul(100 + (1_000_000 << 32));
    let high = (pairs >> 16 & 0x0000_00ff_0000_00ff).wrapping_mul(1 + (10_000 << 32));
    Some(low.wrapping_add(high) >> 32)
}

/// Returns whether all `digits` are zeros.
fn is_zeros(digits: &[u8]) -> bool
    ensures { result ≡ list_all (λ digit. digit == 48) digits.now }
{
    digits.iter().all(|digit| *digit == b'0')
}
