//! The numbers of headers, which are canonical decimals.

ghost use Rattle.std.specs.Prelude.{IfSome, IfNone};
ghost use Rattle.resp_codec.specs.Faults.{IsNoCount, IsNoLength};
ghost use Rattle.resp_codec.specs.inner.Number.{IsCount, IsLength};

use byte_text::{read_i64, read_u64};

const MOST_WORDS: i64 = 1_048_576;

const LONGEST_WORD: u64 = 536_870_912;

/// How many words a multibulk has whose count is this text, where 0 stands for each number below 1
/// too, or `None` where a multibulk has no such count.
pub(crate) fn read_count(text: &[u8]) -> Option<u64>
    ensures some { IfSome result (IsCount text.now) }
    ensures none { IfNone result (IsNoCount text.now) }
{
    let count = read_i64(text)?;
    if count > MOST_WORDS {
        return None;
    }
    Some(u64::try_from(count).unwrap_or(0))
}

/// How many bytes a word has whose length is this text, or `None` where a word has no such length.
pub(crate) fn read_length(text: &[u8]) -> Option<u64>
    ensures some { IfSome result (IsLength text.now) }
    ensures none { IfNone result (IsNoLength text.now) }
{
    let length = read_u64(text)?;
    if length > LONGEST_WORD {
        return None;
    }
    Some(length)
}
