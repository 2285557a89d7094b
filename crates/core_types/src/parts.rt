//! A reply laid out flat, as its parts.

ghost use Rattle.std.specs.Prelude.{◌≡◌, ◌++◌, [], ◌∷◌, OnOk, OnErr};
ghost use Rattle.core_types.specs.Parts.{parts_of};

use crate::{NoMemory, Part, Replies, Reply};

/// Adds the parts of a reply at the end, all of them or none.
pub(crate) fn push_parts(parts: &mut Vec<Part>, reply: Reply) -> Result<(), NoMemory>
    ensures ok { OnOk result (parts.new.items ≡ parts.old.items ++ parts_of reply) }
    ensures err { OnErr result (parts.new.items ≡ parts.old.items) }
{
    match reply {
        Reply::Simple(text) => push_part(parts, Part::Simple(text)),
        Reply::Error(text) => push_part(parts, Part::Error(text)),
        Reply::Int(n) => push_part(parts, Part::Int(n)),
        Reply::Bulk(bytes) => push_part(parts, Part::Bulk(bytes)),
        Reply::Null => push_part(parts, Part::Null),
        Reply::Array(replies) => push_array(parts, replies),
        Reply::NullArray => push_part(parts, Part::NullArray),
    }
}

fn push_part(parts: &mut Vec<Part>, part: Part) -> Result<(), NoMemory>
    ensures ok { OnOk result (parts.new.items ≡ parts.old.items ++ part ∷ []) }
    ensures err { OnErr result (parts.new.items ≡ parts.old.items) }
{
    parts.push(part)?;
    Ok(())
}

// An array's header, and then the parts of its replies.
fn push_array(parts: &mut Vec<Part>, replies: Replies) -> Result<(), NoMemory>
    ensures ok { OnOk result (parts.new.items
        ≡ parts.old.items ++ Part.ArrayOf replies.count ∷ replies.parts) }
    ensures err { OnErr result (parts.new.items ≡ parts.old.items) }
{
    let (count, mut inner) = replies.into_parts();
    parts.reserve(inner.len() + 1)?;
    parts.push_reserved(Part::ArrayOf(count));
    parts.append(&mut inner).unwrap();
    Ok(())
}
