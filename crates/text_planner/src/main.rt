//! Reads the forms of a plan from standard input, and writes its sheet, or the line that says why the text is refused, to
//! standard output. A failing read or write is reported on standard error.

#![tactic(auto)]

use gezwaphimo::answer::answer;
use std::io;
use std::io::{Read, Write};

/// One byte more than a text can have: more need not be read to know that it is too long.
const TEXT_ROOM: usize = 65_537;

/// More bytes than an answer can have: 1,026 forms of at most 200 bytes.
const ANSWER_ROOM: usize = 205_200;

/// Reads until the room is full or the input ends, and says how many bytes it read. Each read is asked for all that is
/// left of the room, since an input that keeps the bounds of its messages loses what a shorter read leaves of one.
fn read_text(input: &mut impl Read, room: &mut [u8]) -> io::Result<usize> {
    let mut count = 0;
    for _ in 0..TEXT_ROOM {
        if count >= room.len() {
            break;
        }
        match input.read(&mut room[count..])? {
            0 => break,
            more => count += more,
        }
    }
    Ok(count)
}

/// Answers what stands on standard input.
fn main(rt: HostRuntime) -> io::Result<()> {
    let mut text = vec![in rt.alloc(); 0; TEXT_ROOM]?;
    let count = read_text(&mut rt.stdin(), &mut text)?;
    text.truncate(count);
    let mut bytes = vec![in rt.alloc(); 0; ANSWER_ROOM]?;
    // The answer is told to C: a count of bytes, or a negative number where they do not fit.
    let count = usize::try_from(answer(&text, &mut bytes)).unwrap_or(0);
    bytes.truncate(count);
    rt.stdout().write_all(&bytes)
}
