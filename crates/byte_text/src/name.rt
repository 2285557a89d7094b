//! Names, in which the case of ASCII letters makes no difference.

ghost use Rattle.std.specs.Prelude.{◌≡◌, ◌↔◌, IsTrue};
ghost use Rattle.byte_text.specs.Name.{same_name, upper_name};

/// Whether two names are the same but for the case of ASCII letters.
pub fn same_name(a: &[u8], b: &[u8]) -> bool
    ensures value { result ≡ same_name a.now b.now }
    ensures same { IsTrue result ↔ (upper_name a.now ≡ upper_name b.now) }
{
    a.eq_ignore_ascii_case(b)
}
