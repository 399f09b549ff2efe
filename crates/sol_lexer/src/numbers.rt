// Numbers.

ghost use Rattle.std.specs.Prelude.{◌≡◌, ◌≤◌, ◌<◌, ◌+◌, ◌*◌, ◌^◌, length};
ghost use Rattle.sol_lexer.specs.Bytes.{base_of, digit_value};
ghost use Rattle.sol_lexer.specs.Tokens.{runs_on};
ghost use Rattle.sol_lexer.specs.Reading.{digits_of, exponent_of, grown, hexadecimal_of, limited, number_end, number_of, placed_number, positive_of, after_zero, power_of, scaled, times_power};

use crate::bytes::{begins_with_digit, is_digit_of, is_exponent_letter, is_word_byte};
use crate::cut::Cut;

/// Digits that were read, with `_` between some.
#[derive(Clone, Copy, Debug)]
pub struct DigitRun {
    /// How many bytes they take.
    pub len: usize,
    /// The number that they are, or none where it leaves 128 bits.
    pub value: Option<u128>,
    /// Whether another digit must follow.
    pub wanted: bool,
}

fn base_of(hex: bool) -> u128
    ensures { result ≡ base_of hex }
{
    if hex { 16 } else { 10 }
}

// What a digit counts.
fn digit_value(byte: u8) -> u128
    ensures { result ≡ digit_value byte }
{
    if byte.is_ascii_digit() {
        u128::from(byte.saturating_sub(b'0'))
    } else if b'A' <= byte && byte <= b'F' {
        u128::from(byte.saturating_sub(55))
    } else {
        u128::from(byte.saturating_sub(87))
    }
}

#[tactic(auto, using(crate::proofs::Limits::limiting))]
fn product(a: u128, b: u128) -> Option<u128>
    ensures { result ≡ limited (a * b) }
{
    a.checked_mul(b)
}

#[tactic(auto, using(crate::proofs::Limits::limiting))]
fn sum(a: u128, b: u128) -> Option<u128>
    ensures { result ≡ limited (a + b) }
{
    a.checked_add(b)
}

// A number with one digit more.
fn grown(hex: bool, value: Option<u128>, byte: u8) -> Option<u128>
    ensures { result ≡ grown hex value byte }
{
    let shifted = product(value?, base_of(hex))?;
    sum(shifted, digit_value(byte))
}

/// The digits that a text begins with.
pub fn read_digits(hex: bool, text: &[u8]) -> DigitRun
    requires { length text.now < 2 ^ 32 }
    ensures equal { result ≡ digits_of hex text.now }
    ensures within { result.len ≤ length text.now }
{
    let mut len = 0;
    let mut value = Some(0);
    let mut wanted = true;
    let mut rest = text;
    while let [byte, more @ ..] = rest {
        if is_digit_of(hex, *byte) {
            value = grown(hex, value, *byte);
            wanted = false;
        } else if !wanted && *byte == b'_' {
            wanted = true;
        } else {
            return DigitRun { len, value, wanted };
        }
        len += 1;
        rest = more;
    }
    DigitRun { len, value, wanted }
}

// A number that is not 0, times a power of ten.
#[tactic(auto, using(crate::proofs::Limits::power_below))]
fn times_power(value: u128, exponent: u128) -> Option<u128>
    ensures { result ≡ times_power value exponent }
{
    if 38 < exponent {
        return None;
    }
    product(value, 10u128.pow(exponent as u32))
}

// A number times ten to a power.
fn scaled(value: Option<u128>, exponent: Option<u128>) -> Option<u128>
    ensures { result ≡ scaled value exponent }
{
    let value = value?;
    if value == 0 {
        return Some(0);
    }
    times_power(value, exponent?)
}

// Whether what follows a number may not stand there.
fn runs_on(text: &[u8]) -> bool
    ensures { result ≡ runs_on text.now }
{
    match text {
        [] => false,
        [byte, more @ ..] => is_word_byte(*byte) || (*byte == b'.' && begins_with_digit(more)),
    }
}

// The end of a number that takes `len` bytes.
fn number_end(len: usize, value: Option<u128>, hex: bool, rest: &[u8]) -> Cut
    ensures { result ≡ number_end len value hex rest.now }
{
    match value {
        None => Cut::WideNumber,
        Some(value) => placed_number(len, value, hex, rest),
    }
}

// The end of a number of 128 bits.
fn placed_number(len: usize, value: u128, hex: bool, rest: &[u8]) -> Cut
    ensures { result ≡ placed_number len value hex rest.now }
{
    if (1 << 127) <= value {
        return Cut::WideNumber;
    }
    if runs_on(rest) {
        return Cut::BadByte { after: len };
    }
    Cut::Number {
        len,
        value: value as i128,
        hex,
    }
}

// What follows the `x` of a number that began with `0x`.
fn hexadecimal(text: &[u8]) -> Cut
    requires { length text.now < 2 ^ 32 }
    ensures { result ≡ hexadecimal_of text.now }
{
    let digits = read_digits(true, text);
    if digits.wanted {
        return Cut::BadByte {
            after: digits.len + 2,
        };
    }
    number_end(digits.len + 2, digits.value, true, &text[digits.len..])
}

// What follows the whole part of a decimal number, which takes `len` bytes.
fn exponent(len: usize, value: Option<u128>, text: &[u8]) -> Cut
    requires { len + length text.now < 2 ^ 32 }
    ensures { result ≡ exponent_of len value text.now }
{
    match text {
        [] => number_end(len, value, false, text),
        [byte, more @ ..] => {
            if is_exponent_letter(*byte) {
                power(len + 1, value, more)
            } else {
                number_end(len, value, false, text)
            }
        }
    }
}

// What follows the letter of an exponent, where the number takes `len` bytes up to that letter.
fn power(len: usize, value: Option<u128>, text: &[u8]) -> Cut
    requires { len + length text.now < 2 ^ 32 }
    ensures { result ≡ power_of len value text.now }
{
    let digits = read_digits(false, text);
    let end = len + digits.len;
    if digits.wanted {
        return Cut::BadByte { after: end };
    }
    number_end(end, scaled(value, digits.value), false, &text[digits.len..])
}

// A decimal number whose first digit is not 0.
fn positive(text: &[u8]) -> Cut
    requires { length text.now < 2 ^ 32 }
    ensures { result ≡ positive_of text.now }
{
    let digits = read_digits(false, text);
    if digits.wanted {
        return Cut::BadByte { after: digits.len };
    }
    exponent(digits.len, digits.value, &text[digits.len..])
}

// A number that began with `0`.
fn after_zero(text: &[u8]) -> Cut
    requires { length text.now + 1 < 2 ^ 32 }
    ensures { result ≡ after_zero text.now }
{
    match text {
        [] => exponent(1, Some(0), text),
        [byte, more @ ..] => {
            if *byte == b'x' {
                hexadecimal(more)
            } else {
                exponent(1, Some(0), text)
            }
        }
    }
}

/// The number at the head of a text that begins with a digit.
pub fn number(text: &[u8]) -> Cut
    requires { length text.now < 2 ^ 32 }
    ensures { result ≡ number_of text.now }
{
    match text {
        [] => Cut::BadByte { after: 0 },
        [byte, more @ ..] => {
            if *byte == b'0' {
                after_zero(more)
            } else {
                positive(text)
            }
        }
    }
}
