// Reads a script from standard input and prints what came of it.
#![tactic(auto)]

use replay::replay::replay;
use script::limits::MAX_TEXT;
use std::io;
use std::io::{Read, Write};

fn main(rt: HostRuntime) -> io::Result<()> {
    let mut text = Vec::new(rt.alloc());
    // one byte more than is allowed tells a text that is too long
    rt.stdin().take(MAX_TEXT as u64 + 1).read_to_end(&mut text)?;
    let print = replay(rt.alloc(), &text)?;
    rt.stdout().write_all(&print)
}
