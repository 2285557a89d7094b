//! The errors that a command is refused with, after the Redis command reference.

ghost use Rattle.std.specs.Prelude.{◌≡◌, ◌++◌, map, codes, IfOk, OnOk};
ghost use Rattle.std.specs.Char.{to_ascii_lowercase};
ghost use Rattle.core_types.specs.Refusals.{refusal_text, no_number, refused, wrong_arity, invalid_expire, unknown_command};

use crate::{Blob, NoMemory, Reply};
use std::alloc::Global;

/// Why a command is refused.
#[derive(Clone, Copy, Debug, PartialEq, Eq)]
pub enum Refusal {
    /// The key holds another type than the command is for.
    WrongType,
    /// A word or a value is no canonical decimal of an i64.
    NotAnInteger,
    /// A field's value is no canonical decimal of an i64.
    HashNotAnInteger,
    /// The sum is no i64.
    Overflow,
    /// The amount to take away has no negative in 64 bits.
    DecrementOverflow,
    /// The key is not there.
    NoSuchKey,
    /// A list has no such place.
    IndexOutOfRange,
    /// An offset is negative.
    OffsetOutOfRange,
    /// There is one database, of number 0.
    DatabaseOutOfRange,
    /// A word stands where none is taken.
    Syntax,
    /// A string would be longer than 536,870,912 bytes.
    TooLong,
    /// A module called a command that is no built-in key command.
    NotAKeyCommand,
}

impl Refusal {
    /// The text of the error.
    pub fn text(self) -> &'static [u8]
        ensures text { result.now ≡ refusal_text self }
    {
        match self {
            Refusal::WrongType => {
                b"WRONGTYPE Operation against a key holding the wrong kind of value"
            }
            Refusal::NotAnInteger => b"ERR value is not an integer or out of range",
            Refusal::HashNotAnInteger => b"ERR hash value is not an integer",
            Refusal::Overflow => b"ERR increment or decrement would overflow",
            Refusal::DecrementOverflow => b"ERR decrement would overflow",
            Refusal::NoSuchKey => b"ERR no such key",
            Refusal::IndexOutOfRange => b"ERR index out of range",
            Refusal::OffsetOutOfRange => b"ERR offset is out of range",
            Refusal::DatabaseOutOfRange => b"ERR DB index is out of range",
            Refusal::Syntax => b"ERR syntax error",
            Refusal::TooLong => b"ERR string exceeds maximum allowed size (536870912 bytes)",
            Refusal::NotAKeyCommand => b"ERR modules may call built-in key commands only",
        }
    }

    /// For what a word is refused that is to be a number, where this is what was read of it.
    pub fn no_number(read: Option<i64>) -> Option<Refusal>
        ensures none { result ≡ no_number read }
    {
        match read {
            Some(_) => None,
            None => Some(Refusal::NotAnInteger),
        }
    }

    /// The error as a reply.
    pub fn reply(self, alloc: Global) -> Result<Reply, NoMemory>
        ensures reply { IfOk result (λ reply. reply ≡ refused self) }
    {
        Reply::error(alloc, self.text())
    }
}

/// `ERR wrong number of arguments for 'name' command`, with the name in lower case.
pub fn wrong_arity(alloc: Global, name: &[u8]) -> Result<Reply, NoMemory>
    ensures reply { IfOk result (λ reply. reply ≡ wrong_arity name.now) }
{
    let text = around_name(alloc, b"ERR wrong number of arguments for '", name)?;
    Reply::error(alloc, text.as_slice())
}

/// `ERR invalid expire time in 'name' command`, with the name in lower case.
pub fn invalid_expire(alloc: Global, name: &[u8]) -> Result<Reply, NoMemory>
    ensures reply { IfOk result (λ reply. reply ≡ invalid_expire name.now) }
{
    let text = around_name(alloc, b"ERR invalid expire time in '", name)?;
    Reply::error(alloc, text.as_slice())
}

/// `ERR unknown command 'name'`, with the first 128 bytes of the name as it came.
#[tactic(auto, using(std::proofs::lemmas::List::take_min))]
pub fn unknown_command(alloc: Global, name: &[u8]) -> Result<Reply, NoMemory>
    ensures reply { IfOk result (λ reply. reply ≡ unknown_command name.now) }
{
    let mut text = Blob::from_slice(alloc, b"ERR unknown command '")?;
    text.push_slice(&name[..SHOWN.min(name.len())])?;
    text.push_slice(b"'")?;
    Reply::error(alloc, text.as_slice())
}

// The number of bytes of an unknown name that are told.
const SHOWN: usize = 128;

// A text, the name in lower case, and the end of such errors.
fn around_name(alloc: Global, before: &[u8], name: &[u8]) -> Result<Blob, NoMemory>
    ensures text { IfOk result
        (λ text. text ≡ before.now ++ map to_ascii_lowercase name.now ++ codes "' command") }
{
    let mut text = Blob::from_slice(alloc, before)?;
    push_lower_case(alloc, &mut text, name)?;
    text.push_slice(b"' command")?;
    Ok(text)
}

// Adds a name in lower case.
fn push_lower_case(alloc: Global, text: &mut Blob, name: &[u8]) -> Result<(), NoMemory>
    ensures ok { OnOk result (text.new ≡ text.old ++ map to_ascii_lowercase name.now) }
{
    let lower: Vec<u8> = name
        .iter()
        .map(|byte| byte.to_ascii_lowercase())
        .collect(alloc)?;
    text.push_slice(&lower)
}
