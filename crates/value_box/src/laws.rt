//! What the serials of a vault have in common.

ghost use Rattle.std.specs.Prelude.{ℕ, List};
ghost use Rattle.value_box.specs.Boxes.{Boxes, Call, Rise, serials};

/// Whatever is issued and taken back, each serial is above those before it, and none below the
/// number of boxes that were issued before.
pub fn no_serial_twice()
    ensures { (boxes : Boxes) (calls : List Call) → Rise boxes.issued (serials boxes calls) }
{}
