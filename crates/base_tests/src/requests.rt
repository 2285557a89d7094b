use core_types::{Args, BadRequest, Blob, NoMemory, Replies, Reply};
use resp_codec::{Array, Got, Reader, bad_reply, read_array, write_reply, write_request};
use std::alloc::Global;
use std::test::Fail;

// A request of two words, of which the second has a line end in it.
const SET: &[u8] = b"*2\r\n$3\r\nSET\r\n$4\r\na\r\nb\r\n";

// What is said and written of such requests and of two replies.
const DUE: &[u8] = b"|SET|a\r\nb|SET|a\r\nb*1\r\n$4\r\na\r\nb\r\n\
    *3\r\n:-10\r\n*0\r\n$4\r\na\r\nb\r\n\
    -ERR Protocol error: expected '$', got '?'\r\n";

// Says each word, behind a stroke.
fn say_words(text: &mut Blob, words: &Args) -> Result<(), NoMemory> {
    for word in words.from_place(0) {
        text.push(b'|')?;
        text.push_slice(word)?;
    }
    Ok(())
}

// Says the request that a reader is fed.
fn say_next(alloc: Global, text: &mut Blob) -> Result<(), NoMemory> {
    let mut reader = Reader::new(alloc);
    reader.feed(SET)?;
    match reader.next()? {
        Got::Request(words) => say_words(text, &words),
        _ => Ok(()),
    }
}

// Says the request at the front of a byte list.
fn say_front(alloc: Global, text: &mut Blob) -> Result<(), NoMemory> {
    match read_array(alloc, SET)? {
        Array::Request(words, _) => say_words(text, &words),
        _ => Ok(()),
    }
}

// Writes a request of one word.
fn write_word(alloc: Global, text: &mut Blob) -> Result<(), NoMemory> {
    let mut words = Args::new(alloc);
    words.push(b"a\r\nb")?;
    write_request(text, &words)
}

// An array of a number, an array of nothing, and a word.
fn nested(alloc: Global) -> Result<Reply, NoMemory> {
    let mut replies = Replies::new(alloc);
    replies.push(Reply::Int(-10))?;
    replies.push(Reply::Array(Replies::new(alloc)))?;
    replies.push(Reply::Bulk(Blob::from_slice(alloc, b"a\r\nb")?))?;
    Ok(Reply::Array(replies))
}

// Writes that array, and the error that a bad request is answered.
fn write_replies(alloc: Global, text: &mut Blob) -> Result<(), NoMemory> {
    write_reply(text, &nested(alloc)?)?;
    write_reply(text, &bad_reply(alloc, &BadRequest::ExpectedDollar(b'\n'))?)
}

// Whether all of these, one behind another, are what is due.
fn is_due(alloc: Global) -> Result<bool, NoMemory> {
    let mut text = Blob::new(alloc);
    say_next(alloc, &mut text)?;
    say_front(alloc, &mut text)?;
    write_word(alloc, &mut text)?;
    write_replies(alloc, &mut text)?;
    Ok(text.as_slice() == DUE)
}

// Each call that takes memory answers, and what it should.
#[test]
fn ample(rt: HostRuntime) -> Result<(), Fail> {
    assert!(rt; is_due(rt.alloc())?);
    Ok(())
}
