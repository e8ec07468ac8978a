use crate::NumRefusal::{self, BadExponent, BadTail, NoDigits, OutOfUnit, TooManyDigits};
use crate::Unit::{self, Amp, Farad, Gain, Length, Ohm, Plain, Time, Volt};
use crate::{read_number, write_number, written_reads_back};
use std::test::Fail;

#[test]
fn reads(rt: HostRuntime) {
    let cases: &[(&str, Unit, Result<i128, NumRefusal>)] = &[
        ("5V", Volt, Ok(5_000_000)),
        ("0.5u", Volt, Ok(1)),
        ("-0.5u", Volt, Ok(-1)),
        ("10pF", Farad, Ok(10_000_000)),
        ("2MEG", Ohm, Ok(2_000_000_000)),
        ("2m", Ohm, Ok(2)),
        ("5.", Plain, Ok(5)),
        (".5", Plain, Ok(1)),
        (".5", Ohm, Ok(500)),
        ("+7", Plain, Ok(7)),
        ("1e", Plain, Ok(1)),
        ("1e5", Plain, Ok(100_000)),
        ("1E-3k", Plain, Ok(1)),
        ("1e+2", Plain, Ok(100)),
        ("1e-99", Plain, Ok(0)),
        ("0e99", Plain, Ok(0)),
        ("0e099t", Farad, Ok(0)),
        ("000000000000000000000001", Plain, Ok(1)),
        ("0.0000000000000000000000001", Plain, Ok(0)),
        ("0.0000000000000000000000001e25", Plain, Ok(1)),
        ("123456789.012345678", Plain, Ok(123_456_789)),
        ("123456789.012345678", Volt, Ok(123_456_789_012_346)),
        ("1m", Ohm, Ok(1)),
        ("1m", Plain, Ok(0)),
        ("1meg", Plain, Ok(1_000_000)),
        ("1MEGohm", Ohm, Ok(1_000_000_000)),
        ("1t", Plain, Ok(1_000_000_000_000)),
        ("3G", Plain, Ok(3_000_000_000)),
        ("1a", Plain, Ok(1)),
        ("1F", Farad, Ok(1_000)),
        ("7n", Time, Ok(7_000)),
        ("0.18u", Length, Ok(180_000)),
        ("200u", Gain, Ok(200_000_000)),
        ("1p", Amp, Ok(1)),
        ("2.5", Plain, Ok(3)),
        ("2.4", Plain, Ok(2)),
        ("-2.5", Plain, Ok(-3)),
        ("-2.4", Plain, Ok(-2)),
        ("2.49999999999999999", Plain, Ok(2)),
        ("-0.4", Plain, Ok(0)),
        ("1e17", Plain, Ok(100_000_000_000_000_000)),
        ("99999999999999999.5", Plain, Ok(100_000_000_000_000_000)),
        ("-999999999999999999", Plain, Ok(-999_999_999_999_999_999)),
        ("999999999999999999p", Time, Ok(999_999_999_999_999_999)),
        ("-0", Plain, Ok(0)),
        ("0t", Farad, Ok(0)),
        ("0g", Farad, Ok(0)),
        ("0k", Farad, Ok(0)),
        ("0meg", Farad, Ok(0)),
        ("0m", Plain, Ok(0)),
        ("0u", Plain, Ok(0)),
        ("0n", Plain, Ok(0)),
        ("0p", Plain, Ok(0)),
        ("0f", Plain, Ok(0)),
        ("0V", Volt, Ok(0)),
        ("", Plain, Err(NoDigits)),
        ("x", Plain, Err(NoDigits)),
        (".", Plain, Err(NoDigits)),
        ("+", Plain, Err(NoDigits)),
        ("-.", Plain, Err(NoDigits)),
        ("+-5", Plain, Err(NoDigits)),
        ("1234567890123456789", Plain, Err(TooManyDigits)),
        ("1234567890.123456789", Plain, Err(TooManyDigits)),
        ("1.000000000000000000e100mil", Plain, Err(TooManyDigits)),
        ("1e100", Plain, Err(BadExponent)),
        ("0e-100", Plain, Err(BadExponent)),
        ("1e99999999999999999999mil", Plain, Err(BadExponent)),
        ("5mil", Plain, Err(BadTail)),
        ("1Mil", Plain, Err(BadTail)),
        ("1milx", Plain, Err(BadTail)),
        ("1k5", Plain, Err(BadTail)),
        ("5 V", Volt, Err(BadTail)),
        ("1e+", Plain, Err(BadTail)),
        ("1e-", Plain, Err(BadTail)),
        ("1.2.3", Plain, Err(BadTail)),
        ("1e99 ", Plain, Err(BadTail)),
        ("1e99", Plain, Err(OutOfUnit)),
        ("1e099", Plain, Err(OutOfUnit)),
        ("1e0099", Plain, Err(OutOfUnit)),
        ("1e18", Plain, Err(OutOfUnit)),
        ("1a", Farad, Err(OutOfUnit)),
        ("-1meg", Time, Err(OutOfUnit)),
    ];
    for (text, unit, wanted) in cases {
        let read = read_number(text.as_bytes(), *unit);
        assert_eq!(rt; read, *wanted, "{text:?} as {unit:?}");
    }
}

#[test]
fn reads_long_texts(rt: HostRuntime) -> Result<(), Fail> {
    let zeros = vec![in rt.alloc(); b'0'; 16_777_216]?;
    assert_eq!(rt; read_number(&zeros, Farad), Ok(0));
    let nines = vec![in rt.alloc(); b'9'; 16_777_216]?;
    assert_eq!(rt; read_number(&nines, Plain), Err(TooManyDigits));
    Ok(())
}

#[test]
fn writes(rt: HostRuntime) -> Result<(), Fail> {
    written_reads_back();
    let cases = [
        (-7, Volt, "-7u"),
        (0, Farad, "0e-18"),
        (999_999_999_999_999_999, Time, "999999999999999999p"),
        (5, Ohm, "5m"),
        (12, Amp, "12p"),
        (180_000, Length, "180000p"),
        (1, Gain, "1p"),
        (-999_999_999_999_999_999, Plain, "-999999999999999999"),
    ];
    for (value, unit, wanted) in cases {
        assert_eq!(rt; write_number(rt.alloc(), value, unit)?.as_str(), wanted);
    }
    Ok(())
}
