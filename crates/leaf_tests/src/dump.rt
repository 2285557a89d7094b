use core_types::{Blob, NoMemory, RdbCause};
use rdb_prims::{Crc64, RdbFault, RdbStop, put_len, put_string, read_len, read_string};
use std::alloc::Global;
use std::test::Fail;

// A length, written behind a byte and in front of another.
fn written_length(alloc: Global, n: u64) -> Result<Blob, NoMemory> {
    let mut out = Blob::from_slice(alloc, b"<")?;
    put_len(&mut out, n)?;
    out.push(b'>')?;
    Ok(out)
}

// What stands at a place: a length and the place behind it, or an offset with its cause.
fn length_at(bytes: &[u8], at: u64) -> (u64, u64, Option<RdbCause>) {
    match read_len(bytes, at) {
        Ok((n, next)) => (n, next, None),
        Err(fault) => (0, fault.offset, Some(fault.cause)),
    }
}

// Lengths at the edges of each form are written in the shortest one, and read back between other
// bytes.
#[test]
fn lengths_at_the_edges(rt: HostRuntime) -> Result<(), Fail> {
    let rows: [(u64, &[u8]); 9] = [
        (0, &[b'<', 0x00, b'>']),
        (63, &[b'<', 0x3F, b'>']),
        (64, &[b'<', 0x40, 0x40, b'>']),
        (16_383, &[b'<', 0x7F, 0xFF, b'>']),
        (16_384, &[b'<', 0x80, 0, 0, 0x40, 0, b'>']),
        (0x0102_0304, &[b'<', 0x80, 1, 2, 3, 4, b'>']),
        (0xFFFF_FFFF, &[b'<', 0x80, 0xFF, 0xFF, 0xFF, 0xFF, b'>']),
        (0x1_0000_0000, &[b'<', 0x81, 0, 0, 0, 1, 0, 0, 0, 0, b'>']),
        (
            u64::MAX,
            &[b'<', 0x81, 255, 255, 255, 255, 255, 255, 255, 255, b'>'],
        ),
    ];
    for (n, text) in rows {
        let out = written_length(rt.alloc(), n)?;
        assert_eq!(rt; out.as_slice(), text);
        assert_eq!(rt; length_at(text, 1), (n, text.len() as u64 - 1, None));
    }
    Ok(())
}

// A longer form than is needed is read too. A byte that begins no length is told at its place, and
// a length that ends too soon at the end.
#[test]
fn other_lengths(rt: HostRuntime) {
    let rows: [(&[u8], (u64, u64, Option<RdbCause>)); 9] = [
        (&[0x40, 0x05], (5, 2, None)),
        (&[0x80, 0, 0, 0, 7], (7, 5, None)),
        (&[0x81, 0, 0, 0, 0, 0, 0, 0, 9], (9, 9, None)),
        (&[0x82, 0], (0, 0, Some(RdbCause::BadLength))),
        (&[0xC0, 0], (0, 0, Some(RdbCause::BadLength))),
        (&[0xFF, 0], (0, 0, Some(RdbCause::BadLength))),
        (&[], (0, 0, Some(RdbCause::Truncated))),
        (&[0x40], (0, 1, Some(RdbCause::Truncated))),
        (
            &[0x81, 0, 0, 0, 0, 0, 0, 0],
            (0, 8, Some(RdbCause::Truncated)),
        ),
    ];
    for (bytes, found) in rows {
        assert_eq!(rt; length_at(bytes, 0), found);
    }
    assert_eq!(rt; length_at(&[1, 2, 3], 3), (0, 3, Some(RdbCause::Truncated)));
    assert_eq!(rt;
        length_at(&[1, 2, 3], u64::MAX),
        (0, 3, Some(RdbCause::Truncated))
    );
}

// What stands at a place: a string between `[` and `]` and the place behind it, or an offset with
// its cause.
fn string_at(
    alloc: Global,
    bytes: &[u8],
    at: u64,
) -> Result<(Blob, u64, Option<RdbCause>), NoMemory> {
    let mut shown = Blob::new(alloc);
    match read_string(alloc, bytes, at) {
        Ok((text, next)) => {
            shown.push(b'[')?;
            shown.push_slice(text.as_slice())?;
            shown.push(b']')?;
            Ok((shown, next, None))
        }
        Err(RdbStop::Refused(RdbFault { offset, cause })) => Ok((shown, offset, Some(cause))),
        Err(RdbStop::Stopped(_)) => Err(NoMemory),
    }
}

// Strings in each form, the integers of each width at both ends. Each is read whole with more
// behind it, and each front of it ends too soon.
#[test]
fn strings_in_each_form(rt: HostRuntime) -> Result<(), Fail> {
    let rows: [(&[u8], &[u8]); 14] = [
        (&[0x00], b"[]"),
        (&[0x03, b'a', 0x00, 0xFF], b"[a\0\xFF]"),
        (&[0x40, 0x01, b'b'], b"[b]"),
        (&[0x80, 0, 0, 0, 1, b'c'], b"[c]"),
        (&[0x81, 0, 0, 0, 0, 0, 0, 0, 1, b'd'], b"[d]"),
        (&[0xC0, 0x80], b"[-128]"),
        (&[0xC0, 0x7F], b"[127]"),
        (&[0xC0, 0x00], b"[0]"),
        (&[0xC1, 0x00, 0x80], b"[-32768]"),
        (&[0xC1, 0xFF, 0x7F], b"[32767]"),
        (&[0xC1, 0xE8, 0x03], b"[1000]"),
        (&[0xC2, 0x00, 0x00, 0x00, 0x80], b"[-2147483648]"),
        (&[0xC2, 0xFF, 0xFF, 0xFF, 0x7F], b"[2147483647]"),
        (&[0xC2, 0xFF, 0xFF, 0xFF, 0xFF], b"[-1]"),
    ];
    let alloc = rt.alloc();
    for (bytes, text) in rows {
        let mut behind = Blob::from_slice(alloc, bytes)?;
        behind.push(0xC3)?;
        let (shown, next, cause) = string_at(alloc, behind.as_slice(), 0)?;
        assert_eq!(rt; shown.as_slice(), text);
        assert_eq!(rt; (next, cause), (bytes.len() as u64, None));
        for size in 0..bytes.len() {
            let (_, offset, cause) = string_at(alloc, &bytes[..size], 0)?;
            assert_eq!(rt; (offset, cause), (size as u64, Some(RdbCause::Truncated)));
        }
    }
    Ok(())
}

// What begins no string, a compressed one, and a length far beyond the end.
#[test]
fn no_strings(rt: HostRuntime) -> Result<(), Fail> {
    let rows: [(&[u8], u64, u64, RdbCause); 6] = [
        (&[0x00, 0xC3, 0x01, 0x01], 1, 1, RdbCause::Compressed),
        (&[0x00, 0x82], 1, 1, RdbCause::BadLength),
        (&[0x00, 0xBF], 1, 1, RdbCause::BadLength),
        (&[0x00, 0xC4], 1, 1, RdbCause::BadLength),
        (
            &[0x81, 255, 255, 255, 255, 255, 255, 255, 255, b'a'],
            0,
            10,
            RdbCause::Truncated,
        ),
        (&[0x00], 7, 1, RdbCause::Truncated),
    ];
    for (bytes, at, place, why) in rows {
        let (_, offset, cause) = string_at(rt.alloc(), bytes, at)?;
        assert_eq!(rt; (offset, cause), (place, Some(why)));
    }
    Ok(())
}

// The checksum of bytes in two pieces, cut at a place.
fn checksum(bytes: &[u8], cut: usize) -> u64 {
    let (front, more) = bytes.split_at(cut.min(bytes.len()));
    let mut crc = Crc64::new();
    crc.add(front);
    crc.add(more);
    crc.value()
}

// The check value of the format, however it is cut, and others that a program by bits gave.
#[test]
fn checksums(rt: HostRuntime) {
    for cut in 0..10usize {
        assert_eq!(rt; checksum(b"123456789", cut), 0xe9c6_d914_c4b8_d9ca);
    }
    let file = b"REDIS0009\xFE\x00\xFB\x01\x00\x00\x01a\x011\xFF";
    assert_eq!(rt; checksum(b"", 0), 0);
    assert_eq!(rt; checksum(b"abcdefgh", 0), 0xe79d_bd8a_a31b_6ee9);
    assert_eq!(rt; checksum(file, 9), 0xfaff_8f80_3691_e4cf);
}

// A length and a string, written into one buffer.
fn written(alloc: Global) -> Result<Blob, NoMemory> {
    let mut out = Blob::new(alloc);
    put_len(&mut out, 300)?;
    put_string(&mut out, b"hello")?;
    put_string(&mut out, &[b'x'; 64])?;
    Ok(out)
}

// With ample memory each call that takes some answers what it is for.
#[test]
fn ample(rt: HostRuntime) -> Result<(), Fail> {
    let alloc = rt.alloc();
    let out = written(alloc)?;
    assert_eq!(rt; out.len(), 2 + 6 + 66);
    assert_eq!(rt; length_at(out.as_slice(), 0), (300, 2, None));
    let (shown, next, cause) = string_at(alloc, out.as_slice(), 2)?;
    assert_eq!(rt; shown.as_slice(), b"[hello]".as_slice());
    assert_eq!(rt; (next, cause), (8, None));
    let (shown, next, cause) = string_at(alloc, out.as_slice(), next)?;
    assert_eq!(rt; shown.len(), 66);
    assert_eq!(rt; (next, cause), (74, None));
    Ok(())
}
