ghost use Rattle.std.specs.Prelude.{◌≡◌, ◌≤◌};

use std::test::Fail;
use value_box::{Boxed, Vault};

// Changes a value of 7 in a box.
fn change(b: &mut Boxed<u8>)
    ensures { b.new.serial ≡ b.old.serial }
{
    if *b.value() == 7 {
        *b.value_mut() = 8;
    }
}

// Issues a box, changes its value and takes it back: its serial, its value and how many boxes are
// out then; zeros where none was issued.
fn issue_and_change(vault: &mut Vault) -> (u64, u8, u64)
    requires { vault.old.retired ≤ vault.old.issued }
    ensures { vault.new.retired ≤ vault.new.issued }
{
    let Ok(mut b) = vault.issue(7) else {
        return (0, 0, 0);
    };
    change(&mut b);
    let serial = b.serial();
    let value = vault.retire(b);
    (serial, value, vault.live())
}

// A serial that was taken back is not issued again.
#[test]
fn serials_rise(rt: HostRuntime) -> Result<(), Fail> {
    let mut vault = Vault::new();
    assert_eq!(rt; issue_and_change(&mut vault), (0, 8, 0));
    assert_eq!(rt; issue_and_change(&mut vault), (1, 8, 0));
    assert_eq!(rt; vault.issued(), 2);
    Ok(())
}
