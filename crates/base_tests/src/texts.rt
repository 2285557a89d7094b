use byte_text::{i64_text, read_i64, read_u64, same_name, u64_text};
use std::test::Fail;

// The numbers at the limits, and near a change of length, are written and read.
#[test]
fn limits_both_ways(rt: HostRuntime) -> Result<(), Fail> {
    let signed: [(i64, &[u8]); 7] = [
        (0, b"0"),
        (-1, b"-1"),
        (10, b"10"),
        (-99, b"-99"),
        (100, b"100"),
        (i64::MAX, b"9223372036854775807"),
        (i64::MIN, b"-9223372036854775808"),
    ];
    for (number, text) in signed {
        assert_eq!(rt; i64_text(number).as_slice(), text);
        assert_eq!(rt; read_i64(text), Some(number));
    }
    let unsigned: [(u64, &[u8]); 4] = [
        (0, b"0"),
        (9, b"9"),
        (1 << 63, b"9223372036854775808"),
        (u64::MAX, b"18446744073709551615"),
    ];
    for (number, text) in unsigned {
        assert_eq!(rt; u64_text(number).as_slice(), text);
        assert_eq!(rt; read_u64(text), Some(number));
    }
    Ok(())
}

// Texts that are no canonical decimal, and decimals of numbers just past the limits, are read as
// none.
#[test]
fn others_refused(rt: HostRuntime) -> Result<(), Fail> {
    let neither: [&[u8]; 12] = [
        b"",
        b"-",
        b"+1",
        b"-0",
        b"00",
        b"01",
        b"-01",
        b"--1",
        b" 1",
        b"1a",
        b"18446744073709551616",
        b"100000000000000000000",
    ];
    for text in neither {
        assert_eq!(rt; read_i64(text), None);
        assert_eq!(rt; read_u64(text), None);
    }
    assert_eq!(rt; read_i64(b"9223372036854775808"), None);
    assert_eq!(rt; read_i64(b"-9223372036854775809"), None);
    assert_eq!(rt; read_u64(b"-1"), None);
    Ok(())
}

#[test]
fn names_without_case(rt: HostRuntime) -> Result<(), Fail> {
    assert!(rt; same_name(b"Get", b"gET"));
    assert!(rt; same_name(b"", b""));
    assert!(rt; !same_name(b"get", b"gett"));
    assert!(rt; !same_name(b"@[`{", b"`{@["));
    assert!(rt; !same_name(b"\xc4", b"\xe4"));
    Ok(())
}
