//! What holds of images, whatever was done.

ghost use Rattle.std.specs.Prelude.{◌≤◌, ◌++◌, ℕ, List};
ghost use Rattle.core_types.specs.declared.event.Event.{Event};
ghost use Rattle.disk_model.specs.Files.{Files};
ghost use Rattle.durable_host.specs.Crash.{HoldsFrom};
ghost use Rattle.durable_host.specs.Kept.{Kept};

/// An image that holds some of the events holds some of these and of further ones, and at least as
/// many as any smaller number of safe ones.
pub fn images_go_on()
    ensures further { (kept : Kept) (more : List Event) (less safe : ℕ) (image : Files)
        → less ≤ safe → HoldsFrom kept safe image
        → HoldsFrom (record kept { events = kept.events ++ more }) less image }
{}
