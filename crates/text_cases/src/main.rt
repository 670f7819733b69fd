//! Answers a table of texts from standard input, and says which answers are as the table has them; then every damage of
//! one byte of a good text, and texts as long as they can be.

#![tactic(auto)]

use std::io;
use std::io::Read;

mod damage;
mod long;
mod stored;
mod told;

fn main(rt: HostRuntime) -> io::Result<()> {
    let mut table = Vec::new(rt.alloc());
    rt.stdin().read_to_end(&mut table)?;
    stored::run(&rt, &table)?;
    damage::run(&rt)?;
    long::run(&rt)
}
