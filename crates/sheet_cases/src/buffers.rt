//! A sheet into buffers of every length from none to one more than it has.

use book::refusal::{Layer, Refusal, Refused};
use book::traits::Book;
use plan::issued::IssuedPlan;
use sheet::sheet::sheet;
use sheet::spanned::Spanned;
use std::io;
use std::io::Write;

/// What a buffer holds before it is handed over.
const FILL: u8 = 7;

/// How many bytes a buffer has here.
const ROOM: usize = 4096;

/// What comes of a buffer that the sheet does not fit.
const TOO_SHORT: Refused = Refused {
    why: Refusal::BufferTooShort,
    layer: Layer::Plan,
    place: 0,
};

/// Whether each byte is as it was.
fn is_untouched(bytes: &[u8]) -> bool {
    bytes.iter().all(|byte| *byte == FILL)
}

/// Whether a buffer of so many bytes is answered rightly, where the sheet is known.
fn is_right<B: Book>(plan: &IssuedPlan<B>, known: &[u8], length: usize) -> bool
where
    B::Entry: Spanned,
{
    let mut buffer = [FILL; ROOM];
    let (front, back) = buffer.split_at_mut(length.min(ROOM));
    let answer = sheet(plan, front);
    let is_answered = if length < known.len() {
        answer == Err(TOO_SHORT) && is_untouched(front)
    } else {
        let rest = front.strip_prefix(known);
        answer == Ok(known.len()) && rest.is_some_and(|bytes| is_untouched(bytes))
    };
    is_answered && is_untouched(back)
}

/// Prints a sheet, and for how many lengths of the buffer it is answered rightly, of how many.
pub fn print_sheet<B: Book>(rt: &HostRuntime, plan: &IssuedPlan<B>) -> io::Result<()>
where
    B::Entry: Spanned,
{
    let mut bytes = [FILL; ROOM];
    // a refusal is not hidden: it is told below as 0 bytes, and no buffer is answered rightly
    let count = sheet(plan, &mut bytes).unwrap_or(0);
    let known = bytes.get(..count).unwrap_or(&[]);
    rt.stdout().write_all(known)?;
    let lengths = known.len() + 2;
    let right = (0..lengths)
        .filter(|length| is_right(plan, known, *length))
        .count();
    println!(rt; "{count} bytes, {right} of {lengths} buffers")
}
