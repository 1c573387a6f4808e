//! Lines, fields and numbers of a text.

use std::test::Fail;
use yt_base::{
    Decimal, Fields, Line, Lines, Span, digits, is_skipped, next_field, next_line, signed,
};

#[test]
fn numbers_are_put_and_read(rt: HostRuntime) -> Result<(), Fail> {
    let mut line = Line::new();
    line.put(b"n ");
    line.put_u64(u64::MAX);
    line.put(b" ");
    line.put_i64(i64::MIN);
    line.put(b" ");
    line.put_u128(u128::MAX);
    assert_eq!(rt;
        line.bytes(),
        b"n 18446744073709551615 -9223372036854775808 340282366920938463463374607431768211455".as_slice()
    );
    assert_eq!(rt; line.spare(), 173);
    line.clear();
    assert_eq!(rt; line.spare(), 256);
    for (text, value) in [
        ("", Decimal::Other),
        ("007", Decimal::Value(7)),
        ("1x", Decimal::Other),
        ("18446744073709551615", Decimal::Value(u64::MAX)),
        ("18446744073709551616", Decimal::Over),
        ("18446744073709551616x", Decimal::Other),
    ] {
        assert_eq!(rt; digits(text.as_bytes()), value, "at {text}");
    }
    for (text, value) in [
        ("-", None),
        ("-0", Some(0)),
        ("-9223372036854775808", Some(i64::MIN)),
        ("-9223372036854775809", None),
        ("9223372036854775807", Some(i64::MAX)),
        ("9223372036854775808", None),
        ("+1", None),
    ] {
        assert_eq!(rt; signed(text.as_bytes()), value, "at {text}");
    }
    Ok(())
}

#[test]
fn lines_and_fields_are_found(rt: HostRuntime) -> Result<(), Fail> {
    let text = b"a \t bc\r\n\r";
    let first = Span {
        from: 0,
        to: 6,
        next: 8,
    };
    let last = Span {
        from: 8,
        to: 8,
        next: 9,
    };
    assert_eq!(rt; next_line(text, 0), Some(first));
    assert_eq!(rt; next_line(text, 8), Some(last));
    assert_eq!(rt; next_line(text, 9), None);
    let field = Span {
        from: 4,
        to: 6,
        next: 6,
    };
    assert_eq!(rt; next_field(text, 1, 6), Some(field));
    assert_eq!(rt; next_field(text, 1, 4), None);
    Ok(())
}

#[test]
fn files_are_taken_apart(rt: HostRuntime) -> Result<(), Fail> {
    let mut lines = Lines::new(b"  \n\t#a b\r\n a\t#b \r\n#\n\nc".as_slice());
    for (line, skipped, first) in [
        ("  ", true, None),
        ("\t#a b", true, Some("#a")),
        (" a\t#b ", false, Some("a")),
        ("#", true, Some("#")),
        ("", true, None),
        ("c", false, Some("c")),
    ] {
        assert_eq!(rt; lines.next(), Some(line.as_bytes()));
        assert_eq!(rt; is_skipped(line.as_bytes()), skipped, "at {line}");
        let field = Fields::new(line.as_bytes()).next();
        assert_eq!(rt; field, first.map(|text| text.as_bytes()), "at {line}");
    }
    assert_eq!(rt; lines.next(), None);
    Ok(())
}
