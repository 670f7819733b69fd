//! A table of cases. A line `# what` begins one; lines `> ..` are its text, each with its byte 10, and `>.. ` one without;
//! lines `< ..` are the answer; `=` runs it.

use crate::told::told;
use std::alloc::AllocError;
use std::io;

/// How many bytes an answer of the table has at most.
const ROOM: usize = 4_096;

/// A case as it is put together.
#[derive(Drop)]
struct Case {
    text: Vec<u8>,
    expected: Vec<u8>,
}

impl Case {
    /// Takes what a line of the table says of the case.
    fn take(&mut self, line: &[u8]) -> Result<(), AllocError> {
        match line {
            [b'#', ..] => {
                self.text.clear();
                self.expected.clear();
            }
            [b'>', b' ', rest @ ..] => {
                self.text.extend_from_slice(rest)?;
                self.text.push(b'\n')?;
            }
            [b'>', _, rest @ ..] => self.text.extend_from_slice(rest)?,
            [b'<'] => self.expected.push(b'\n')?,
            [b'<', _, rest @ ..] => {
                self.expected.extend_from_slice(rest)?;
                self.expected.push(b'\n')?;
            }
            _ => {}
        }
        Ok(())
    }

    /// Whether the text is answered as the table has it.
    fn is_right(&self) -> bool {
        told(&self.text, &mut [0; ROOM]) == self.expected.as_slice()
    }
}

/// Runs the cases of the table, and says which are answered otherwise, each when it is run, and how many there are.
pub fn run(rt: &HostRuntime, table: &[u8]) -> io::Result<()> {
    let mut case = Case {
        text: Vec::new(rt.alloc()),
        expected: Vec::new(rt.alloc()),
    };
    // Counted as they come: gathered first, they take memory each, and a wrong one is told only after the last.
    let (mut cases, mut right) = (0_usize, 0_usize);
    for line in table.split(|byte| *byte == b'\n') {
        case.take(line)?;
        if line == b"=".as_slice() {
            cases = cases.saturating_add(1);
            if case.is_right() {
                right = right.saturating_add(1);
            } else {
                println!(rt; "case {cases} is answered otherwise")?;
            }
        }
    }
    println!(rt; "{right} of {cases} texts are answered as the table has it")
}
