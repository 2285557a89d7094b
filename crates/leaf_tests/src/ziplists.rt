use sequences::Args;
use std::alloc::Global;
use std::test::Fail;
use zip_lists::{ZipStop, items};

// Items, each with a comma behind it.
fn listed(alloc: Global, items: &Args) -> Result<Vec<u8>, Fail> {
    let mut text = Vec::new(alloc);
    for item in items.from_place(0) {
        text.extend_from_slice(item)?;
        text.push(b',')?;
    }
    Ok(text)
}

// What is answered to bytes.
fn said(alloc: Global, bytes: &[u8]) -> Result<Vec<u8>, Fail> {
    match items(alloc, bytes) {
        Ok(found) => listed(alloc, &found),
        Err(ZipStop::BadZip(place)) => {
            let text = format!(in alloc; "bad {place}")?;
            Ok(Vec::from_slice(alloc, text.as_bytes())?)
        }
        Err(ZipStop::Memory) => Ok(Vec::from_slice(alloc, b"memory")?),
    }
}

// The bytes with this total in front, the lowest byte first, whatever they say.
fn with_total(alloc: Global, total: usize, bytes: &[u8]) -> Result<Vec<u8>, Fail> {
    let mut changed = Vec::from_slice(alloc, bytes)?;
    let digits = u32::try_from(total).unwrap_or(0).to_le_bytes();
    for (byte, digit) in changed.iter_mut().zip(digits.iter()) {
        *byte = *digit;
    }
    Ok(changed)
}

// What is answered to a header with the right total, this offset and this count, with these bytes
// behind it.
fn said_of(alloc: Global, last: u16, count: u16, body: &[u8]) -> Result<Vec<u8>, Fail> {
    let mut bytes = Vec::from_slice(alloc, &[0; 4])?;
    bytes.extend_from_slice(&last.to_le_bytes())?;
    bytes.extend_from_slice(&[0; 2])?;
    bytes.extend_from_slice(&count.to_le_bytes())?;
    bytes.extend_from_slice(body)?;
    let whole = with_total(alloc, bytes.len(), &bytes)?;
    said(alloc, &whole)
}

// The ziplists of a dump that Redis 6.2 wrote: f, v, g and 7, and a and 1000.
const FOUR: &[u8] = b"\x16\0\0\0\x13\0\0\0\x04\0\0\x01f\x03\x01v\x03\x01g\x03\xf8\xff";

const TWO: &[u8] = b"\x12\0\0\0\x0d\0\0\0\x02\0\0\x01a\x03\xc0\xe8\x03\xff";

#[test]
fn ample(rt: HostRuntime) -> Result<(), Fail> {
    let alloc = rt.alloc();
    assert_eq!(rt; said(alloc, FOUR)?.as_slice(), b"f,v,g,7,".as_slice());
    assert_eq!(rt; said(alloc, TWO)?.as_slice(), b"a,1000,".as_slice());
    Ok(())
}

// Each form of an entry, at both ends of what it holds.
#[test]
fn forms(rt: HostRuntime) -> Result<(), Fail> {
    let alloc = rt.alloc();
    let rows: [(u16, u16, &[u8], &[u8]); 13] = [
        (10, 0, b"\xff", b""),
        (13, 2, b"\0\xfe\x80\x03\xfe\x7f\xff", b"-128,127,"),
        (14, 2, b"\0\xc0\0\x80\x04\xc0\xff\x7f\xff", b"-32768,32767,"),
        (
            15,
            2,
            b"\0\xf0\0\0\x80\x05\xf0\xff\xff\x7f\xff",
            b"-8388608,8388607,",
        ),
        (
            16,
            2,
            b"\0\xd0\0\0\0\x80\x06\xd0\xff\xff\xff\x7f\xff",
            b"-2147483648,2147483647,",
        ),
        (
            20,
            2,
            b"\0\xe0\0\0\0\0\0\0\0\x80\x0a\xe0\xff\xff\xff\xff\xff\xff\xff\x7f\xff",
            b"-9223372036854775808,9223372036854775807,",
        ),
        (12, 2, b"\0\xf1\x02\xfd\xff", b"0,12,"),
        (15, 2, b"\0\xf0\xff\xff\xff\x05\xc0\x01\0\xff", b"-1,1,"),
        (10, 1, b"\0\0\xff", b","),
        (
            16,
            2,
            b"\0\x40\x03one\x06\x80\0\0\0\x03two\xff",
            b"one,two,",
        ),
        (10, 1, b"\0\xbf\0\0\0\x01x\xff", b"x,"),
        (13, 2, b"\0\x01a\xfe\x03\0\0\0\x01b\xff", b"a,b,"),
        (10, 65_535, b"\0\x01a\xff", b"a,"),
    ];
    for (last, count, body, text) in rows {
        assert_eq!(rt; said_of(alloc, last, count, body)?.as_slice(), text);
    }
    Ok(())
}

// Where several places are bad, the least is told.
#[test]
fn bad_places(rt: HostRuntime) -> Result<(), Fail> {
    let alloc = rt.alloc();
    let rows: [(u16, u16, &[u8], &[u8]); 17] = [
        (10, 0, b"", b"bad 10"),
        (10, 2, b"\0\x01a\xff", b"bad 8"),
        (11, 1, b"\0\x01a\xff", b"bad 4"),
        (11, 2, b"\0\x01a\xff", b"bad 4"),
        (10, 1, b"\x01\x01a\xff", b"bad 10"),
        (13, 2, b"\0\x01a\x04\x01b\xff", b"bad 13"),
        (13, 2, b"\0\x01a\xfe\x04\0\0\0\x01b\xff", b"bad 13"),
        (13, 3, b"\0\x01a\x04\x01b\xff", b"bad 8"),
        (13, 2, b"\0\x01a\x04\x01", b"bad 13"),
        (13, 2, b"\0\x01a\x03\x01", b"bad 15"),
        (13, 2, b"\0\x01a\x03\xc1\xff", b"bad 14"),
        (13, 2, b"\0\x01a\x04\xc1\xff", b"bad 13"),
        (13, 3, b"\0\x01a\x03\xff\xff", b"bad 14"),
        (10, 1, b"\0\x01a\xff\0", b"bad 14"),
        (10, 1, b"\0\x01a\xff\xff\xff", b"bad 14"),
        (10, 9, b"\0\x01a\xff\0", b"bad 8"),
        (10, 1, b"\0\x80\xff\xff\xff\xffa\xff", b"bad 18"),
    ];
    for (last, count, body, text) in rows {
        assert_eq!(rt; said_of(alloc, last, count, body)?.as_slice(), text);
    }
    Ok(())
}

// The front of a ziplist of each length, with its own total and with that of all.
fn front(alloc: Global, length: usize) -> Result<(Vec<u8>, Vec<u8>), Fail> {
    let bytes = &FOUR[..length.min(FOUR.len())];
    let whole = with_total(alloc, length, bytes)?;
    Ok((said(alloc, &whole)?, said(alloc, bytes)?))
}

#[test]
fn fronts(rt: HostRuntime) -> Result<(), Fail> {
    let alloc = rt.alloc();
    for length in 0..FOUR.len() {
        let (own, all) = front(alloc, length)?;
        let missing = format!(in alloc; "bad {length}")?;
        assert_eq!(rt; own.as_slice(), missing.as_bytes(), "at {length}");
        if length < 4 {
            assert_eq!(rt; all.as_slice(), missing.as_bytes(), "at {length}");
        } else {
            assert_eq!(rt; all.as_slice(), b"bad 0".as_slice(), "at {length}");
        }
    }
    Ok(())
}

// An entry of 303 bytes, and one behind it, which needs four bytes for that length.
fn said_long(alloc: Global) -> Result<Vec<u8>, Fail> {
    let mut body = Vec::from_slice(alloc, b"\0\x41\x2c")?;
    body.resize(303, b'x')?;
    body.extend_from_slice(b"\xfe\x2f\x01\0\0\x01y\xff")?;
    said_of(alloc, 313, 2, &body)
}

#[test]
fn long_entry(rt: HostRuntime) -> Result<(), Fail> {
    let text = said_long(rt.alloc())?;
    assert_eq!(rt; text.len(), 303);
    assert_eq!(rt; text.iter().filter(|byte| **byte == b'x').count(), 300);
    assert!(rt; text.ends_with(b",y,"));
    Ok(())
}
