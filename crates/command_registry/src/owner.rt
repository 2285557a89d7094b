//! Whose a command is.

/// Whose a command is.
#[derive(Clone, Copy, Debug, PartialEq, Eq)]
pub enum Owner {
    /// A built-in command, by its number among them.
    Builtin(u16),
    /// A command of the module at this place.
    Module(u16),
}
