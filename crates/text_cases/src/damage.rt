//! Every damage of one byte of a good text.

ghost use Rattle.std.specs.Prelude.{◌<◌, ◌≤◌};

use crate::told::told;
use std::io;

/// How many bytes the good text has.
const SIZE: usize = 137;

/// A good text of a few lines.
const GOOD: [u8; SIZE] =
    *b"(plan activity)\n(enter 1 (activity 5 whole))\n(enter 2 (hours 20 broken))\n(enter 9 (relation FS most 1 2 -4))\n(date 2 (start 1 least 10))\n";

/// What comes of a damaged text.
#[derive(Clone, Copy)]
enum Outcome {
    /// It is still a text that makes a plan.
    Taken,
    /// The reader refuses it.
    NoForm,
    /// A call is refused.
    Refused,
}

/// How often each has come.
// Counted as they come: gathered first, they take memory each.
#[derive(Clone, Copy, Default)]
struct Tally {
    taken: usize,
    no_form: usize,
    refused: usize,
}

impl Tally {
    fn add(&mut self, outcome: Outcome) {
        let count = match outcome {
            Outcome::Taken => &mut self.taken,
            Outcome::NoForm => &mut self.no_form,
            Outcome::Refused => &mut self.refused,
        };
        *count = count.saturating_add(1);
    }
}

/// How many lines of the good text end before a byte of it.
fn lines_before(place: usize) -> usize
    requires { place < SIZE }
    ensures { result ≤ place }
{
    let before = GOOD.iter().take(place);
    before.filter(|byte| **byte == b'\n').count()
}

/// What a text is answered with that the reader refuses at the text line of a byte of the good text.
fn no_form_at(place: usize) -> [u8; 20]
    requires { place < SIZE }
{
    let mut told = *b"(refused 1 text 13)\n";
    told[9] += lines_before(place) as u8;
    told
}

/// What comes of a text: taken, refused by a call, or refused by the reader as is told of the line that was damaged.
fn come_of(text: &[u8], no_form: &[u8]) -> Option<Outcome> {
    let mut bytes = [0; 1024];
    let told = told(text, &mut bytes);
    if told.starts_with(b"(length ") || told.starts_with(b"(contradiction ") {
        Some(Outcome::Taken)
    } else if told == no_form {
        Some(Outcome::NoForm)
    } else if told.starts_with(b"(refused ") && !told.ends_with(b" text 13)\n") {
        Some(Outcome::Refused)
    } else {
        None
    }
}

/// The good text with one byte changed.
fn damaged(place: usize, value: u8) -> [u8; SIZE]
    requires { place < SIZE }
{
    let mut text = GOOD;
    text[place] = value;
    text
}

/// Damages a byte to each other value, and counts what comes of each.
fn damage_at(rt: &HostRuntime, tally: &mut Tally, place: usize) -> io::Result<()>
    requires { place < SIZE }
{
    let no_form = no_form_at(place);
    for value in 0..=u8::MAX {
        if value != GOOD[place] {
            match come_of(&damaged(place, value), &no_form) {
                Some(come) => tally.add(come),
                None => println!(rt; "byte {place} as {value} is answered otherwise")?,
            }
        }
    }
    Ok(())
}

/// Damages each byte.
pub fn run(rt: &HostRuntime) -> io::Result<()> {
    let mut tally = Tally::default();
    for place in 0..SIZE {
        damage_at(rt, &mut tally, place)?;
    }
    let Tally {
        taken,
        no_form,
        refused,
    } = tally;
    println!(rt; "damaged: {no_form} refused by the reader, {refused} by a call, {taken} taken")
}
