//! What a text is answered with.

use gezwaphimo::answer::answer;

/// The answer to a text, as it stands in the room that it is given; nothing where it is longer.
pub fn told<'a>(text: &[u8], room: &'a mut [u8]) -> &'a [u8] {
    // The answer is told to C: a count of bytes, or a negative number where they do not fit.
    let count = usize::try_from(answer(text, room)).unwrap_or(0);
    room.get(..count).unwrap_or(&[])
}
