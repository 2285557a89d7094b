use std::test::Fail;
use type_ids::{NameFault, TypeName, id_of, split};

// The ids of `hellotype` as a snapshot of Redis stores them, and each fault of a name.
#[test]
fn hellotype(rt: HostRuntime) -> Result<(), Fail> {
    let name = TypeName::new(b"hellotype").expect(&rt, "nine letters");
    assert_eq!(rt; id_of(&name, 0), 0x85E965A2DCA97800);
    assert_eq!(rt; id_of(&name, 1), 0x85E965A2DCA97801);
    assert_eq!(rt; split(0x85E965A2DCA97801), Ok((name, 1)));
    assert_eq!(rt; split(0x85E965A2DCA97BFF), Ok((name, 1023)));
    assert_eq!(rt; name.text(), b"hellotype".as_slice());
    Ok(())
}

#[test]
fn faults(rt: HostRuntime) -> Result<(), Fail> {
    let faulty: [(&[u8], NameFault); 6] = [
        (b"AAAAAAAAA", NameFault::Reserved),
        (b"hellotyp", NameFault::BadLength),
        (b"hello.type", NameFault::BadLength),
        (b"hello.typ", NameFault::BadLetter(5)),
        (b"AAAAAAAA.", NameFault::BadLetter(8)),
        (b".........", NameFault::BadLetter(0)),
    ];
    for (text, fault) in faulty {
        assert_eq!(rt; TypeName::new(text), Err(fault));
    }
    assert_eq!(rt; split(1023), Err(NameFault::Reserved));
    assert!(rt; split(1024).is_ok());
    Ok(())
}

#[test]
fn texts_of_faults(rt: HostRuntime) -> Result<(), Fail> {
    let alloc = rt.alloc();
    let texts: [(NameFault, &str); 3] = [
        (NameFault::BadLength, "bad length"),
        (NameFault::BadLetter(3), "bad letter"),
        (NameFault::Reserved, "reserved"),
    ];
    for (fault, text) in texts {
        assert_eq!(rt; fault.to_string(alloc)?.as_str(), text);
    }
    Ok(())
}
