ghost use Rattle.std.specs.Prelude.{◌≡◌, ◌≢◌, ◌↔◌, ◌^◌, ◌-◌, ◌<◌, ◌≤◌, min, [], length, IsTrue, IfOk, IfErr, MatchResult, pos, ◌+ℤ◌, ◌-ℤ◌, unsigned_abs};
ghost use Rattle.std.specs.Char.{is_ascii_alphabetic};
ghost use Rattle.std.specs.List.{list_all};
ghost use Rattle.std.specs.Str.Parse.{digits_value, digits_value_after};
ghost use Rattle.spice_num.specs.Number.{number_of, is_bad_tail, tail_power, rounded, in_range, number_limit};
ghost use Rattle.spice_num.specs.Parts.{begins, is_negative, unsigned, digits_of, after_digits, fraction_of, after_fraction, mantissa_digits, exponent_of, after_exponent};
ghost use Rattle.spice_num.specs.Units.{unit_power};

use crate::refusals::NumRefusal;
use crate::units::Unit;

/// Numbers have at most 18 digits, so they are below this.
const LIMIT: u64 = 1_000_000_000_000_000_000;

/// Reads how many units a text says, as 5,000,000 microvolts for `5V`: the fraction that it writes,
/// rounded to a whole number, halves away from zero.
///
/// The text is a sign or none, decimal digits with at most one point, an exponent or none, and a
/// tail of letters. Capital letters count as small ones. A tail that begins with `meg`, `t`, `g`,
/// `k`, `m`, `u`, `n`, `p` or `f` is a factor, and what is left of it says nothing.
///
/// An `Err` is the first refusal that holds, in the order of [`NumRefusal`]. The call reads the text
/// once, and takes no memory.
pub fn read_number(text: &[u8], unit: Unit) -> Result<i128, NumRefusal>
    ensures value { result ≡ number_of unit text.now }
    ensures within { IfOk result (λ v. unsigned_abs v < 10 ^ 18) }
{
    let (is_negative, unsigned) = split_sign(text);
    let mantissa = read_mantissa(unsigned);
    if !mantissa.has_digits {
        return Err(NumRefusal::NoDigits);
    }
    if mantissa.value >= LIMIT {
        return Err(NumRefusal::TooManyDigits);
    }
    let (exponent, tail) = read_exponent(mantissa.rest)?;
    if is_bad_tail(tail) {
        return Err(NumRefusal::BadTail);
    }
    let power = total_power(exponent, mantissa.places, tail_power(tail), unit);
    number_from(is_negative, mantissa.value, power)
}

/// Whether a minus sign stands first, and what stands behind the sign.
fn split_sign(text: &[u8]) -> (bool, &[u8])
    ensures sign { result.0 ≡ is_negative text.now }
    ensures rest { result.1.now ≡ unsigned text.now }
{
    match text {
        [b'-', rest @ ..] => (true, rest),
        [b'+', rest @ ..] => (false, rest),
        _ => (false, text),
    }
}

/// Digits with at most one point.
#[derive(Clone, Copy)]
struct Mantissa<'a> {
    has_digits: bool,
    /// The number that the digits write without their point, or the greatest of its type where it
    /// is above that.
    value: u64,
    /// How many digits stand behind the point.
    places: usize,
    rest: &'a [u8],
}

fn read_mantissa(text: &[u8]) -> Mantissa<'_>
    ensures has_digits { IsTrue result.has_digits ↔ (mantissa_digits text.now ≢ []) }
    ensures value { result.value ≡ min (2 ^ 64 - 1) (digits_value 10 (mantissa_digits text.now)) }
    ensures places { result.places ≡ length (fraction_of (after_digits text.now)) }
    ensures rest { result.rest.now ≡ after_fraction (after_digits text.now) }
{
    let whole = read_digits(0, text);
    let fraction = read_fraction(whole.value, whole.rest);
    Mantissa {
        has_digits: whole.count > 0 || fraction.count > 0,
        value: fraction.value,
        places: fraction.count,
        rest: fraction.rest,
    }
}

/// Digits in a row.
#[derive(Clone, Copy)]
struct Digits<'a> {
    /// The number that they write behind those before them, or the greatest of its type where it is
    /// above that.
    value: u64,
    count: usize,
    rest: &'a [u8],
}

fn read_digits(before: u64, text: &[u8]) -> Digits<'_>
    ensures value { result.value ≡ min (2 ^ 64 - 1) (digits_value_after 10 before (digits_of text.now)) }
    ensures count { result.count ≡ length (digits_of text.now) }
    ensures rest { result.rest.now ≡ after_digits text.now }
{
    let mut value = before;
    let mut rest = text;
    while let [digit @ b'0'..=b'9', after @ ..] = rest {
        value = value
            .saturating_mul(10)
            .saturating_add(u64::from(*digit - b'0'));
        rest = after;
    }
    Digits {
        value,
        count: text.len() - rest.len(),
        rest,
    }
}

/// The digits behind a point that stands first.
fn read_fraction(before: u64, text: &[u8]) -> Digits<'_>
    ensures value { result.value ≡ min (2 ^ 64 - 1) (digits_value_after 10 before (fraction_of text.now)) }
    ensures count { result.count ≡ length (fraction_of text.now) }
    ensures rest { result.rest.now ≡ after_fraction text.now }
{
    match text {
        [b'.', fraction @ ..] => read_digits(before, fraction),
        _ => Digits {
            value: before,
            count: 0,
            rest: text,
        },
    }
}

/// The exponent that stands first, or 0, and what stands behind it.
fn read_exponent(text: &[u8]) -> Result<(i128, &[u8]), NumRefusal>
    ensures value { IfOk result (λ r. r.0 ≡ exponent_of text.now) }
    ensures rest { IfOk result (λ r. r.1.now ≡ after_exponent text.now) }
    ensures size { MatchResult result (λ _. unsigned_abs (exponent_of text.now) ≤ 99) (λ _. 99 < unsigned_abs (exponent_of text.now)) }
    ensures refusal { IfErr result (λ e. e ≡ NumRefusal.BadExponent) }
{
    if let [b'e' | b'E', exponent @ ..] = text {
        let (is_negative, unsigned) = split_sign(exponent);
        if let [b'0'..=b'9', ..] = unsigned {
            let digits = read_digits(0, unsigned);
            if digits.value > 99 {
                return Err(NumRefusal::BadExponent);
            }
            let size = i128::from(digits.value);
            return Ok((if is_negative { -size } else { size }, digits.rest));
        }
    }
    Ok((0, text))
}

fn is_bad_tail(tail: &[u8]) -> bool
    ensures { result ≡ is_bad_tail tail.now }
{
    begins(tail, b"mil") || !are_letters(tail)
}

fn are_letters(text: &[u8]) -> bool
    ensures { result ≡ list_all is_ascii_alphabetic text.now }
{
    text.iter().all(u8::is_ascii_alphabetic)
}

/// The factor that a tail stands for, as a power of ten.
fn tail_power(tail: &[u8]) -> i128
    ensures value { result ≡ tail_power tail.now }
    ensures size { unsigned_abs result ≤ 15 }
{
    if begins(tail, b"meg") {
        return 6;
    }
    match tail.first().map(u8::to_ascii_lowercase) {
        Some(b't') => 12,
        Some(b'g') => 9,
        Some(b'k') => 3,
        Some(b'm') => -3,
        Some(b'u') => -6,
        Some(b'n') => -9,
        Some(b'p') => -12,
        Some(b'f') => -15,
        _ => 0,
    }
}

/// Whether the text begins with the word, where capital letters count as small ones.
fn begins(text: &[u8], word: &[u8]) -> bool
    ensures { result ≡ begins text.now word.now }
{
    text.len() >= word.len() && text[..word.len()].eq_ignore_ascii_case(word)
}

/// By which power of ten the digits, read without their point, are multiplied: each digit behind the
/// point stands for one less.
fn total_power(exponent: i128, places: usize, tail_power: i128, unit: Unit) -> i128
    requires exponent { unsigned_abs exponent ≤ 99 }
    requires tail_power { unsigned_abs tail_power ≤ 15 }
    ensures { result ≡ exponent -ℤ pos places +ℤ tail_power +ℤ pos (unit_power unit) }
{
    exponent - places as i128 + tail_power + unit.power()
}

/// The digits times the power of ten, rounded, with the sign; `OutOfUnit` where that has more than 18
/// digits.
fn number_from(is_negative: bool, digits: u64, power: i128) -> Result<i128, NumRefusal>
    requires { digits < number_limit }
    ensures value { result ≡ in_range is_negative (rounded digits power) }
    ensures within { IfOk result (λ v. unsigned_abs v < number_limit) }
{
    let size = rounded(digits, power);
    if size >= u128::from(LIMIT) {
        return Err(NumRefusal::OutOfUnit);
    }
    let size = size as i128;
    Ok(if is_negative { -size } else { size })
}

/// The digits times the power of ten, rounded to a whole number. It is exact below the limit, and
/// else only not below it.
fn rounded(digits: u64, power: i128) -> u128
    requires { digits < number_limit }
    ensures { min number_limit result ≡ min number_limit (rounded digits power) }
{
    let digits = u128::from(digits);
    // Past 19 places every number but 0 is out of the limit, or rounds to 0.
    let tens = 10u128.pow(power.unsigned_abs().min(19) as u32);
    if power >= 0 {
        digits * tens
    } else {
        (2 * digits + tens) / (2 * tens)
    }
}
