//! The text of a number.

ghost use Rattle.std.specs.Prelude.{◌≡◌, ◌+◌, ◌++◌, ◌^◌, ◌<◌, ◌≤◌, IsOk, OnErr, OnOk, length, take, vec_capacity, vec_len};
ghost use Rattle.std.specs.Fmt.{decimal, signed_decimal};
ghost use Rattle.std.specs.Int.{from_le_bytes, w64};
ghost use Rattle.std.specs.Str.Parse.{AllDigits, digits_value};
ghost use Rattle.decimal.specs.LastEight.{last_eight};

use std::alloc::AllocError;

/// Eight digits write numbers below it.
const EIGHT_DIGITS: u64 = 100_000_000;

/// ASCII zeros, which make characters of eight digits.
const ZEROS: u64 = 0x3030_3030_3030_3030;

/// As many characters are room for any number: the most that one takes are 20, and eight are written at once.
const ROOM: usize = 32;

/// Puts `number` at the end of `text`, as `{}` writes it.
///
/// # Errors
///
/// Where memory was refused. The text is as it was.
pub fn push_decimal(text: &mut Vec<u8>, number: i64) -> Result<(), AllocError>
    ensures appended { OnOk result (text.new.items ≡ text.old.items ++ signed_decimal number) }
    ensures refused { OnErr result (text.new.items ≡ text.old.items) }
    ensures succeeds { vec_len text.old + length (signed_decimal number) ≤ vec_capacity text.old → IsOk result }
{
    let len = text.len();
    if text.capacity() - len < ROOM {
        return push_exactly(text, number);
    }
    // What is too much is cut off: to copy just as many characters as there are takes a call that branches on their number.
    text.extend_from_slice(&[0; ROOM])?;
    let count = write_signed(&mut text.as_mut_slice()[len..], number);
    text.truncate(len + count);
    Ok(())
}

/// Puts a number's text after a text, and asks for no more room than that takes.
#[inline(never)]
fn push_exactly(text: &mut Vec<u8>, number: i64) -> Result<(), AllocError>
    ensures appended { OnOk result (text.new.items ≡ text.old.items ++ signed_decimal number) }
    ensures refused { OnErr result (text.new.items ≡ text.old.items) }
    ensures succeeds { vec_len text.old + length (signed_decimal number) ≤ vec_capacity text.old → IsOk result }
{
    let mut characters = [0; ROOM];
    let count = write_signed(&mut characters, number);
    text.extend_from_slice(&characters[..count])
}

/// Writes `number` to the front of `output`, and returns how many characters it takes.
#[inline(always)]
fn write_signed(output: &mut [u8], number: i64) -> usize
    requires { 32 ≤ length output.old }
    ensures long { length output.new ≡ length output.old }
    ensures written { take result output.new ≡ signed_decimal number }
    ensures within { result ≤ 32 }
{
    // The place of the sign is always written, so that no branch hangs on it.
    output[0] = b'-';
    let start = usize::from(number < 0);
    start + write_size(&mut output[start..], number.unsigned_abs())
}

/// Writes `size` to the front of `output`, and returns how many characters it takes.
#[inline(always)]
fn write_size(output: &mut [u8], size: u64) -> usize
    requires { 24 ≤ length output.old }
    ensures long { length output.new ≡ length output.old }
    ensures written { take result output.new ≡ decimal size }
    ensures within { result ≤ 24 }
{
    if size < EIGHT_DIGITS {
        return write_first(output, size);
    }
    let count = write_sixteen(output, size / EIGHT_DIGITS);
    write_eight(&mut output[count..], size % EIGHT_DIGITS);
    count + 8
}

/// Writes a `size` of at most 16 digits to the front of `output`, and returns how many it has.
#[inline(always)]
fn write_sixteen(output: &mut [u8], size: u64) -> usize
    requires room { 16 ≤ length output.old }
    requires sixteen { size < 10 ^ 16 }
    ensures long { length output.new ≡ length output.old }
    ensures written { take result output.new ≡ decimal size }
    ensures within { result ≤ 16 }
{
    if size < EIGHT_DIGITS {
        return write_first(output, size);
    }
    let count = write_first(output, size / EIGHT_DIGITS);
    write_eight(&mut output[count..], size % EIGHT_DIGITS);
    count + 8
}

/// Writes `number` to the front of `output`, and returns how many characters it takes. It writes eight bytes in any case.
#[inline(always)]
fn write_first(output: &mut [u8], number: u64) -> usize
    requires room { 8 ≤ length output.old }
    requires eight { number < 10 ^ 8 }
    ensures long { length output.new ≡ length output.old }
    ensures written { take result output.new ≡ decimal number }
    ensures within { result ≤ 8 }
{
    let digits = split_eight(number);
    // A last digit counts as one also where it is zero.
    let start = (digits | 1 << 56).trailing_zeros() / 8;
    output[..8].copy_from_slice(&(digits + ZEROS >> 8 * start).to_le_bytes());
    8 - start as usize
}

/// Writes the eight digits of `number`, zeros in front among them, to the front of `output`.
#[inline(always)]
fn write_eight(output: &mut [u8], number: u64)
    requires room { 8 ≤ length output.old }
    requires eight { number < 10 ^ 8 }
    ensures digits { AllDigits 10 (take 8 output.new) }
    ensures value { digits_value 10 (take 8 output.new) ≡ number }
    ensures long { length output.new ≡ length output.old }
{
    output[..8].copy_from_slice(&(split_eight(number) + ZEROS).to_le_bytes());
}

/// Returns the eight digits of `number`, the first in the lowest byte. They are made together: in fours, then in pairs.
#[inline(always)]
fn split_eight(number: u64) -> u64
    requires { number < 10 ^ 8 }
    ensures { result ≡ from_le_bytes w64 (last_eight number) }
{
    let fours = number / 10_000 + (number % 10_000 << 32);
    // For `n` below 10,000 `n * 10_486 >> 20` is `n / 100`.
    let hundreds = fours * 10_486 >> 20 & 0x0000_007f_0000_007f;
    let pairs = hundreds + (fours - hundreds * 100 << 16);
    // For `n` below 100 `n * 103 >> 10` is `n / 10`.
    let tens = pairs * 103 >> 10 & 0x000f_000f_000f_000f;
    tens + (pairs - tens * 10 << 8)
}
