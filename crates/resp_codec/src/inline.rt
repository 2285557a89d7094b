//! Requests on one line: words between spaces and tabs.

ghost use Rattle.std.specs.Prelude.{◌≡◌, IfOk};
ghost use Rattle.std.specs.Str.Lines.{strip_carriage_return};
ghost use Rattle.resp_codec.specs.Inline.{is_quote, line_words, words_of};
ghost use Rattle.resp_codec.specs.inner.FirstQuote.{IsFirstQuote};

use crate::line::CR;
use core_types::{Args, NoMemory};
use std::alloc::Global;

/// The place of the first quote.
pub(crate) fn first_quote(line: &[u8]) -> Option<usize>
    ensures { IsFirstQuote line.now result }
{
    for (place, byte) in line.iter().enumerate() {
        if is_quote(*byte) {
            return Some(place);
        }
    }
    None
}

/// The words of a line that ended with LF.
pub(crate) fn line_words(alloc: Global, line: &[u8]) -> Result<Args, NoMemory>
    ensures { IfOk result (λ words. words ≡ line_words line.now) }
{
    words_of(alloc, without_return(line))
}

fn without_return(line: &[u8]) -> &[u8]
    ensures { result.now ≡ strip_carriage_return line.now }
{
    match line {
        [front @ .., CR] => front,
        _ => line,
    }
}

fn words_of(alloc: Global, text: &[u8]) -> Result<Args, NoMemory>
    ensures { IfOk result (λ words. words ≡ words_of text.now) }
{
    let mut words = Args::new(alloc);
    let parts = text.split(|byte| *byte == b' ' || *byte == b'\t');
    for word in parts.filter(|word| !word.is_empty()) {
        words.push(word)?;
    }
    Ok(words)
}

fn is_quote(byte: u8) -> bool
    ensures { result ≡ is_quote byte }
{
    byte == b'"' || byte == b'\''
}
