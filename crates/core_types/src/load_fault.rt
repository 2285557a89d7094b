//! Why saved data was not taken.

/// Why a module does not take a saved value.
#[derive(Clone, Copy, Debug, PartialEq, Eq)]
pub enum LoadFault {
    /// It does not read this encoding version.
    Version(u16),
    /// The part at this place, counted from 0, does not fit, or is missing there.
    Shape(u64),
}

/// Why a file is no dump of RDB version 9 that this server reads.
#[derive(Clone, Copy, Debug, PartialEq, Eq)]
pub enum RdbCause {
    /// The file does not begin with `REDIS`.
    Magic,
    /// The version is not `0009`.
    Version,
    /// The file ends too early.
    Truncated,
    /// A string is compressed.
    Compressed,
    /// A module's value has a floating-point number.
    Float,
    /// This byte is neither an opcode nor a type that is read here.
    BadType(u8),
    /// A length or a string has a form that may not stand there, or is too long.
    BadLength,
    /// A part of a module's value has this opcode, which is unknown.
    BadItem(u64),
    /// A string is no ziplist, or has an odd number of entries for a hash.
    BadZip,
    /// No module has the type of this id.
    NoSuchType(u64),
    /// The module of the type refused the value.
    LoadRefused(LoadFault),
    /// The file selects this database, which is not 0.
    OtherDatabase(u64),
    /// The file has data of a module outside the keys.
    ModuleAux,
    /// A key stands twice.
    RepeatedKey,
    /// A field of a hash stands twice.
    RepeatedField,
    /// A deadline is below 1.
    BadDeadline(i64),
    /// The checksum is not that of the bytes.
    Checksum {
        /// The checksum that the file has.
        stored: u64,
        /// The checksum that its bytes have.
        computed: u64,
    },
    /// Bytes follow a file that is to stand alone.
    Trailing,
}
