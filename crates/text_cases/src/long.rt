//! Texts as long as they can be, and a byte longer; and the fullest plan.

use crate::told::told;
use std::alloc::{AllocError, Global};
use std::io;
use std::io::Write;

/// How many bytes an answer has at most.
const ROOM: usize = 205_200;

/// Prints what a text is answered with, as far as the first 64 bytes, and how many they are.
fn print_answer(rt: &HostRuntime, text: &str) -> io::Result<()> {
    let mut bytes = vec![in rt.alloc(); 0; ROOM]?;
    let told = told(text.as_bytes(), &mut bytes);
    println!(rt;
        "{} bytes are answered with {}, which begin:",
        text.len(),
        told.len()
    )?;
    rt.stdout().write_all(told.get(..64).unwrap_or(told))?;
    println!(rt; "")
}

/// An activity entered and struck, over and over, to 65,536 bytes just.
fn longest(alloc: Global) -> Result<String, AllocError> {
    let mut text = String::from_str(alloc, "(plan activity)\n")?;
    for _ in 0..1_638 {
        text.push_str("(enter 1 (activity 5 whole))\n(strike 1)\n")?;
    }
    Ok(text)
}

/// A plan of 400 lines and 64 dates: 200 activities, each after the one before it, and the dates on the first.
fn fullest(alloc: Global) -> Result<String, AllocError> {
    let mut text = String::from_str(alloc, "(plan activity)\n")?;
    for line in 1..=200 {
        writeln!(text, "(enter {line} (activity 9999 whole))")?;
    }
    for first in 1..=199 {
        let (line, second) = (first + 200, first + 1);
        writeln!(
            text,
            "(enter {line} (relation FS least {first} {second} 9999))"
        )?;
    }
    writeln!(text, "(enter 400 (relation SF least 1 200 -9999))")?;
    for place in 1..=64 {
        writeln!(text, "(date {place} (start 1 least {place}))")?;
    }
    Ok(text)
}

/// Answers each.
pub fn run(rt: &HostRuntime) -> io::Result<()> {
    let mut text = longest(rt.alloc())?;
    print_answer(rt, &text)?;
    text.push('\n')?;
    print_answer(rt, &text)?;
    print_answer(rt, &fullest(rt.alloc())?)
}
