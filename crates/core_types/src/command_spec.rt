//! What is known of a command before it runs.

ghost use Rattle.std.specs.Prelude.{◌≡◌};
ghost use Rattle.core_types.specs.CommandRow.{reading, row_of_spec, takes, writing};

/// A command's name and the shape of its words, after the command table of the Redis reference.
#[derive(Clone, Copy, Debug)]
pub struct CommandSpec {
    /// The name, in upper case.
    pub name: &'static [u8],
    /// The exact number of words with the name, or the least number where it is negative.
    pub arity: i32,
    /// Whether its words, in a log, are a change of the keys.
    pub writes: bool,
    /// The place of the first key among the words, or 0 where it names none.
    pub key: u8,
}

impl CommandSpec {
    /// A command on the key behind its name that changes no key.
    pub fn reading(name: &'static [u8], arity: i32) -> CommandSpec
        ensures row { row_of_spec result ≡ reading name.now arity }
    {
        CommandSpec {
            name,
            arity,
            writes: false,
            key: 1,
        }
    }

    /// A command that can change the key behind its name.
    pub fn writing(name: &'static [u8], arity: i32) -> CommandSpec
        ensures row { row_of_spec result ≡ writing name.now arity }
    {
        CommandSpec {
            name,
            arity,
            writes: true,
            key: 1,
        }
    }

    /// Whether a request may have this number of words.
    pub fn takes(&self, count: usize) -> bool
        ensures takes { result ≡ takes self.now.arity count }
    {
        let least = self.arity.unsigned_abs() as usize;
        if self.arity < 0 {
            count >= least
        } else {
            count == least
        }
    }
}
