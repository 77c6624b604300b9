// Replays stored scripts, and compares each print with the one stored beside it, byte by byte.
#![tactic(auto)]

use replay::replay::replay;
use std::{fs, io};

// how many scripts are stored, numbered from 1
const SCRIPTS: u32 = 300;

// Whether the script of this number prints what is stored.
fn agrees(rt: &HostRuntime, number: u32) -> io::Result<bool> {
    let heap = rt.alloc();
    let script = fs::read(rt, format!(in heap; "{number}.script")?)?;
    let expected = fs::read(rt, format!(in heap; "{number}.print")?)?;
    Ok(replay(heap, &script)? == expected)
}

fn main(rt: HostRuntime) -> io::Result<()> {
    // counted in the loop that reads them
    let mut agreed = 0u32;
    for number in 1..=SCRIPTS {
        if agrees(&rt, number)? {
            agreed += 1;
        } else {
            println!(rt; "script {number} differs")?;
        }
    }
    println!(rt; "{agreed} of {SCRIPTS} prints agree")
}
