use core_types::{Items, NoMemory, Tagged};
use std::alloc::Global;
use std::test::Fail;
use tagged_io::{TaggedIn, TaggedKind, TaggedOut, TakeFault};

// A value of -1, 5 and two bytes.
fn saved(alloc: Global) -> Result<Items, NoMemory> {
    let mut out = TaggedOut::new(alloc);
    out.put_signed(-1)?;
    out.put_unsigned(5)?;
    out.put_bytes(b"ab")?;
    Ok(out.finish())
}

#[test]
fn ample(rt: HostRuntime) -> Result<(), Fail> {
    let items = saved(rt.alloc())?;
    assert_eq!(rt; items.len(), 3);
    assert!(rt; matches!(items.get(0), Some(Tagged::Number(u64::MAX))));
    assert!(rt; matches!(items.get(1), Some(Tagged::Number(5))));
    assert!(rt;
        matches!(items.get(2), Some(Tagged::Bytes(bytes)) if bytes.as_slice() == b"ab".as_slice())
    );
    Ok(())
}

// Each part is taken by its kind alone, and a refused one stays.
#[test]
fn taken_in_order(rt: HostRuntime) -> Result<(), Fail> {
    let items = saved(rt.alloc())?;
    let mut taking = TaggedIn::new(&items);
    assert_eq!(rt;
        taking.take_bytes(),
        Err(TakeFault::WrongKind(TaggedKind::Number))
    );
    assert_eq!(rt; taking.take_signed(), Ok(-1));
    assert_eq!(rt; taking.take_unsigned(), Ok(5));
    assert_eq!(rt;
        taking.take_signed(),
        Err(TakeFault::WrongKind(TaggedKind::Bytes))
    );
    assert_eq!(rt; (taking.place(), taking.left()), (2, 1));
    assert_eq!(rt; taking.take_bytes(), Ok(b"ab".as_slice()));
    assert_eq!(rt; taking.take_unsigned(), Err(TakeFault::End));
    assert_eq!(rt; (taking.place(), taking.left()), (3, 0));
    Ok(())
}

#[test]
fn texts_of_faults(rt: HostRuntime) -> Result<(), Fail> {
    let alloc = rt.alloc();
    assert_eq!(rt; TakeFault::End.to_string(alloc)?.as_str(), "end");
    let wrong = TakeFault::WrongKind(TaggedKind::Number);
    assert_eq!(rt; wrong.to_string(alloc)?.as_str(), "wrong kind");
    Ok(())
}
