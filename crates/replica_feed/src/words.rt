//! The words of a request as a frame.

ghost use Rattle.std.specs.Prelude.{◌≡◌, length, true, IfOk};
ghost use Rattle.sequences.specs.Words.{word};
ghost use Rattle.replica_feed.specs.Frames.{full_word, unit_word};
ghost use Rattle.replica_feed.specs.Reading.{IsJudged};
ghost use Rattle.replica_feed.specs.inner.Texts.{IsText, IsRead, unit_of};

use crate::fault::FrameFault;
use crate::frame::Frame;
use byte_text::read_u64;
use core_types::{Args, Blob, Effects, NoMemory, Sequence};
use effect_log::{LogReader, NextUnit, Reason};
use std::alloc::Global;

/// What words are.
#[derive(Drop)]
pub(crate) enum Judged {
    /// This frame.
    Frame(Frame),
    /// No frame.
    Bad(FrameFault),
}

/// What the text of a Unit is.
#[derive(Drop)]
pub(crate) enum Text {
    /// One whole unit of these effects, or nothing.
    Unit(Effects),
    /// More than a unit, or less than one.
    Other,
    /// It has a fault of form.
    Bad(Reason),
}

/// Reads the words of a request as a frame.
pub(crate) fn judge(alloc: Global, words: &Args) -> Result<Judged, NoMemory>
    ensures { IfOk result (IsJudged words.now) }
{
    if words.len() == 4 && words.word(0) == b"FULL".as_slice() {
        return judge_full(alloc, words);
    }
    if words.len() == 5 && words.word(0) == b"UNIT".as_slice() {
        return judge_unit(alloc, words);
    }
    Ok(Judged::Bad(FrameFault::Shape))
}

fn judge_full(alloc: Global, words: &Args) -> Result<Judged, NoMemory>
    requires count { length words.now ≡ 4 }
    requires name { word 0 words.now ≡ full_word }
    ensures { IfOk result (IsJudged words.now) }
{
    match (read_u64(words.word(1)), read_u64(words.word(2))) {
        (Some(run), Some(number)) => Ok(Judged::Frame(Frame::Full {
            run,
            number,
            file: Blob::from_slice(alloc, words.word(3))?,
        })),
        _ => Ok(Judged::Bad(FrameFault::Shape)),
    }
}

fn judge_unit(alloc: Global, words: &Args) -> Result<Judged, NoMemory>
    requires count { length words.now ≡ 5 }
    requires name { word 0 words.now ≡ unit_word }
    ensures { IfOk result (IsJudged words.now) }
{
    match (
        read_u64(words.word(1)),
        read_u64(words.word(2)),
        read_u64(words.word(3)),
    ) {
        (Some(run), Some(from), Some(to)) => {
            let text = read_text(alloc, words.word(4))?;
            Ok(unit_of(run, from, to, text))
        }
        _ => Ok(Judged::Bad(FrameFault::Shape)),
    }
}

fn unit_of(run: u64, from: u64, to: u64, text: Text) -> Judged
    ensures { result ≡ unit_of run from to text }
{
    match text {
        Text::Unit(effects) if from < to => Judged::Frame(Frame::Unit {
            run,
            from,
            to,
            effects,
        }),
        Text::Bad(why) => Judged::Bad(FrameFault::Text(why)),
        _ => Judged::Bad(FrameFault::Shape),
    }
}

// What a text is, by the log's own grammar.
fn read_text(alloc: Global, text: &[u8]) -> Result<Text, NoMemory>
    ensures { IfOk result (IsText text.now) }
{
    let mut reader = LogReader::new(alloc, text, 0);
    match reader.next()? {
        NextUnit::Unit(effects) => read_rest(&mut reader, effects),
        NextUnit::End => Ok(Text::Unit(Sequence::new(alloc))),
        NextUnit::Tail(_) => Ok(Text::Other),
        NextUnit::Bad(_, why) => Ok(Text::Bad(why)),
    }
}

// Reads on behind the first unit: a fault of form anywhere is told before that there are more.
fn read_rest(reader: &mut LogReader, first: Effects) -> Result<Text, NoMemory>
    requires one { IsRead reader.old first true }
    ensures { IfOk result (IsText reader.old.bytes) }
{
    let mut alone = true;
    loop {
        match reader.next()? {
            NextUnit::Unit(_) => alone = false,
            NextUnit::End if alone => return Ok(Text::Unit(first)),
            NextUnit::End => return Ok(Text::Other),
            NextUnit::Tail(_) => return Ok(Text::Other),
            NextUnit::Bad(_, why) => return Ok(Text::Bad(why)),
        }
    }
}
