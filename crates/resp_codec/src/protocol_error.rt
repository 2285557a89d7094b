//! What a client is told of a bad request.

ghost use Rattle.std.specs.Prelude.{◌≡◌, IfOk, codes, ◌++◌};
ghost use Rattle.resp_codec.specs.BadReply.{bad_reply, bad_text};

use core_types::{BadRequest, NoMemory, Reply};
use std::alloc::Global;

/// The error that a bad request is answered.
pub fn bad_reply(alloc: Global, kind: &BadRequest) -> Result<Reply, NoMemory>
    ensures { IfOk result (λ reply. reply ≡ bad_reply kind.now) }
{
    match kind {
        BadRequest::MultibulkLength => {
            Reply::error(alloc, b"ERR Protocol error: invalid multibulk length")
        }
        BadRequest::BulkLength => Reply::error(alloc, b"ERR Protocol error: invalid bulk length"),
        BadRequest::ExpectedDollar(byte) => expected_dollar(alloc, *byte),
        BadRequest::LineTooLong => Reply::error(alloc, b"ERR Protocol error: line too long"),
        BadRequest::NoLineEnd => Reply::error(alloc, b"ERR Protocol error: line end expected"),
        BadRequest::Quote => {
            Reply::error(
                alloc,
                b"ERR Protocol error: quoted inline words are not served",
            )
        }
    }
}

fn expected_dollar(alloc: Global, byte: u8) -> Result<Reply, NoMemory>
    ensures { IfOk result (λ reply. reply ≡ bad_reply (BadRequest.ExpectedDollar byte)) }
{
    let mut text = *b"ERR Protocol error: expected '$', got '?'";
    text[39] = byte;
    Reply::error(alloc, &text)
}
